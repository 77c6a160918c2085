//! What a line of `replay` asks for.

use schema_registry::Refusal;
use session_core::Event;

/// What a line of `replay` asks of a world: an event, or a text of one of its sessions.
#[derive(Drop)]
pub enum Request {
    Event(Event),
    /// A level was to be set by a word that names none; this is why it is not.
    NoLevel(Refusal),
    /// Asks for the state of the session at this index.
    Show(usize),
    /// Asks for the listing of its program.
    List(usize),
    /// Asks how it ended.
    Result(usize),
}
