//! What becomes of a payload.

use crate::malformed::MalformedKind;
use crate::mismatch::Mismatch;

/// What becomes of a payload.
#[derive(Debug, Drop, PartialEq, Eq)]
pub enum Outcome {
    /// The written form of what the reader makes of the datum.
    Done(Vec<u8>),
    Mismatch(Mismatch),
    /// The first fault, and its offset in the payload.
    Malformed { kind: MalformedKind, at: usize },
    /// The written form would pass its limit.
    OutputTooLarge,
}
