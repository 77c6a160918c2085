//! Bytes and data.
//!
//! The types of Avro: what the nodes of a schema are, and data by their kinds (Avro 1.11 Specification, "Schema
//! Declaration").
#![tactic(auto)]

mod aliases;
mod copying;
mod datum;
mod kind;
mod limits;
mod name;
mod nodes;
mod symbols;

pub use aliases::Aliases;
pub use datum::Datum;
pub use kind::{Field, Kind};
pub use limits::{MOST_FIELDS, MOST_FIXED, MOST_NODES, MOST_SYMBOLS, MOST_TEXT, limits_are_these};
pub use name::Name;
pub use nodes::Nodes;
pub use symbols::Symbols;
