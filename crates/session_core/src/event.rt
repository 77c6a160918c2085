//! What happens to a world.

use crate::act::Act;
use schema_registry::Level;

/// What happens to a world of sessions.
#[derive(Drop)]
pub enum Event {
    /// Registers the schema of a text: gives it an id, and makes it a version of the subject.
    Register {
        subject: String,
        text: String,
    },
    /// Sets the level of a subject, or the global one.
    Level {
        subject: Option<String>,
        level: Level,
    },
    /// Makes the program of two schemas, by their ids.
    Publish {
        writer: u32,
        reader: u32,
    },
    /// Begins a session of a published pair, by the ids of its schemas. Worker 0 holds it.
    Begin {
        writer: u32,
        reader: u32,
    },
    /// Does an act on a session, by its index.
    On {
        session: usize,
        act: Act,
    },
}
