//! A command that a registry's file holds.

use std::string::String;

/// A command that changed a registry, as a line of its file says it.
#[derive(Debug, Drop)]
pub enum StoredCommand {
    /// A schema got this id: the id, the subject and the schema's text.
    Registration {
        id: u32,
        subject: String,
        text: String,
    },
    /// A compatibility level was set: the subject, where `None` is the global level, and the level's name.
    Level {
        subject: Option<String>,
        level: String,
    },
}
