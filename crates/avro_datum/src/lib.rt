//! Bytes and data.
//!
//! Data by a schema: reading, skipping and writing them (Avro 1.11 Specification, "Binary Encoding").
#![tactic(auto)]

mod form;
mod laws;
mod leaf;
mod parts;
mod payload;
mod sink;
mod walking;
mod writing;

pub use form::NodeForm;
pub use laws::{
    payload_is_spelled_or_faulty, spelled_datum_conforms, written_form_is_the_shortest_spelling,
};
pub use payload::{PayloadError, read_all};
pub use writing::{WriteError, write};
