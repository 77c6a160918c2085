//! What is kept of a JSON value.

/// What is kept of a JSON value.
#[derive(Debug, Drop)]
pub enum Kept {
    Null,
    Text(String),
    /// An array without items.
    NoItems,
    /// Any other value, of which nothing else is kept.
    Other,
}
