//! What is asked of the service.

use schema_registry::Command;
use wire_frames::Message;

/// What is asked of the service.
#[derive(Drop)]
pub enum Request {
    /// A command to the registry that is no registration.
    Command(Command),
    /// To register the schema of a text for a subject, and to return its id.
    Registration { subject: String, text: String },
    /// The text of the schema of an id.
    Schema { id: u32 },
    /// A message for the reader of an id, from the message in the body.
    Transcoding { reader: u32, message: Message },
}
