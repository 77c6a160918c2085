//! What a node of a schema is.

use crate::aliases::Aliases;
use crate::datum::Datum;
use crate::name::Name;
use crate::symbols::Symbols;

/// What a node of a schema is.
#[derive(Debug, Drop)]
pub enum Kind {
    Null,
    Boolean,
    Int,
    Long,
    Bytes,
    Text,
    /// A fixed under its full name, with its aliases as full names, and its size in bytes.
    Fixed {
        name: Name,
        aliases: Aliases,
        size: usize,
    },
    /// An enum under its full name, with its aliases as full names, its symbols, and the position of the one that is
    /// taken for unknown ones.
    Enum {
        name: Name,
        aliases: Aliases,
        symbols: Symbols,
        default: Option<u32>,
    },
    /// The number of the items' node.
    Array(usize),
    /// The number of the values' node.
    Map(usize),
    /// The numbers of the branches' nodes.
    Union(Vec<usize>),
    /// A record under its full name, with its aliases as full names, and its fields in the order of their declaration.
    Record {
        name: Name,
        aliases: Aliases,
        fields: Vec<Field>,
    },
}

/// A field of a record.
#[derive(Debug, Drop)]
pub struct Field {
    pub name: String,
    /// Names of writers' fields that go with it where none has its own.
    pub aliases: Vec<String>,
    /// The number of the node that is its type.
    pub node: usize,
    /// What a reader takes where the writer has no such field.
    pub default: Option<Datum>,
}
