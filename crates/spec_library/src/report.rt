//! What is reported of a payload and of a message.

use spec_avro::{MalformedKind, Mismatch};
use spec_registry::EnvelopeError;

/// What is reported of a payload and the room that was given for its output.
#[derive(Clone, Copy, Debug, PartialEq, Eq)]
pub enum PayloadReport {
    /// The output is at the room's front, with this length.
    Done { length: usize },
    /// The output has this length, and the room is shorter.
    RoomTooSmall { length: usize },
    Mismatch(Mismatch),
    /// The first fault, and its offset in the payload.
    Malformed { kind: MalformedKind, at: usize },
    OutputTooLarge,
    PayloadTooLarge,
    NoMemory,
}

/// What a call reports.
#[derive(Clone, Copy, Debug, PartialEq, Eq)]
pub enum Report {
    Payload(PayloadReport),
    /// No pair is open.
    Closed,
    /// The bytes are no message.
    BadEnvelope(EnvelopeError),
    /// The message names another writer, by this id.
    OtherWriter { id: u32 },
    /// The item's payload is not within the buffer.
    OutOfRange,
}

/// The ids of a pair: what a message has to have, and what its output gets.
#[derive(Clone, Copy, Debug, PartialEq, Eq)]
pub struct Ids {
    pub writer: u32,
    pub reader: u32,
}
