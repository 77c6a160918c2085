//! What a schema has to go together with.

use crate::level::Level;

/// The level that counts for a subject, and the ids of the versions that it names, in their order: a schema has to go
/// together with these.
#[derive(Drop)]
pub(crate) struct Requirement {
    pub(crate) level: Level,
    pub(crate) ids: Vec<u32>,
}
