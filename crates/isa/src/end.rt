//! How a run ends.

use avro_bytes::Outcome;
pub use spec_machine::Trap;

/// How a run ends.
#[derive(Debug, Drop, PartialEq, Eq)]
pub enum End {
    /// With an outcome.
    Out(Outcome),
    /// With a trap.
    Trap(Trap),
}
