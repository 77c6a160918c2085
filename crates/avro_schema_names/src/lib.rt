//! Schemas.
//!
//! Drafts of a schema's nodes, and where each name is defined; names, attributes and aliases of a schema's parts; which
//! branches of a union are apart, and which branch its defaults are of; and what is wrong with a schema (Avro 1.11
//! Specification, "Names", "Aliases", "Complex Types", "Unions").
#![tactic(auto)]

mod aliases;
mod draft;
mod drafts;
mod named;
mod names;
mod namespace;
mod type_attributes;
mod unions;
mod word;

pub use aliases::{NewNames, field_aliases, new_names};
pub use draft::{Draft, DraftField};
pub use drafts::{Drafts, FieldList};
pub use names::{defined_node, field_name};
pub use namespace::Namespace;
pub use spec_schema::SchemaError;
pub use type_attributes::{default_symbol, size_of, symbols_of};
pub use unions::{are_apart, default_member};
pub use word::{Form, Word, form_of_type, leaf_of};
