//! A node before its defaults are read.

use avro_types::{Aliases, Kind, Name};
use serde_json::Value;

/// What a node is before the defaults of its fields have been read.
#[derive(Debug, Drop)]
pub enum Draft<'v> {
    /// A kind that has no fields.
    Whole(Kind),
    /// A record under its full name, with its aliases as full names.
    Record {
        name: Name,
        aliases: Aliases,
        fields: Vec<DraftField<'v>>,
    },
}

/// A field, and the value at its `default`.
#[derive(Debug, Drop)]
pub struct DraftField<'v> {
    pub name: String,
    pub aliases: Vec<String>,
    /// The number of the node that is its type.
    pub node: usize,
    pub default: Option<&'v Value>,
}
