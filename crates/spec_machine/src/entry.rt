//! What a writer's symbol becomes.

/// What a writer's symbol becomes: an entry of a map.
#[derive(Clone, Copy, Debug, PartialEq, Eq)]
pub enum Entry {
    /// The position of a reader's symbol.
    Position(u32),
    /// The index of a miss.
    Miss(u32),
}
