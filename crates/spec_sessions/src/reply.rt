//! What is replied to an event.

use crate::refusal::EventRefusal;

/// What is replied to an event.
#[derive(Clone, Copy, Debug, PartialEq, Eq)]
pub enum EventReply {
    /// The id of the schema that was registered.
    Id(u32),
    Done,
    /// The index of the session that began.
    SessionIs(usize),
    /// How many rows were taken.
    Rows(u64),
    /// Nothing has changed.
    Refused(EventRefusal),
}
