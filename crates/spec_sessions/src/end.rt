//! How a session ends.

use spec_avro::Outcome;
use spec_machine::Trap;

/// How a session ends.
#[derive(Debug, Drop, PartialEq, Eq)]
pub enum SessionEnd {
    /// With an outcome.
    Out(Outcome),
    /// With a trap, as no program of two schemas does.
    Trap(Trap),
    /// Because memory ran out, at its last row.
    NoMemory,
}
