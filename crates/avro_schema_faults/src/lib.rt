//! Schemas.
//!
//! Where in its JSON value a text that is no schema has its first fault.
#![tactic(auto)]

mod bad_defaults;
mod faults;
mod fractions;
mod laws;
mod numbers;
mod seeking;
mod tracing;
mod types;
mod words;

pub use avro_schema_names::SchemaError;
pub use avro_schema_paths::Step;
pub use faults::{Fault, fault_of};
pub use laws::{each_fault_has_one_place, places_lead_to_faults, record_paths_lead_to_records};
pub use words::word_at;
