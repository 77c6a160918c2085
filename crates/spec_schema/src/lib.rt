//! Which schema a text is.
//!
//! Definitions in `specs/`, over the JSON values of `serde_json`, and here the faults of a text and the words that
//! name types.
#![tactic(auto)]

mod schema_error;
mod word;

pub use schema_error::SchemaError;
pub use word::{Form, Word};
