//! Schemas.
//!
//! Avro schemas, and data by their kinds: the walk over the JSON of a schema, what its values declare, and the data of
//! its fields' defaults (Avro 1.11 Specification, "Schema Declaration").
#![tactic(auto)]

mod defaults;
mod finishing;
mod holder;
mod laws;
mod numbers;
mod schema;
mod walk_laws;
mod walking;

pub use avro_schema_names::SchemaError;
pub use avro_types::{Aliases, Datum, Field, Kind, Name, Nodes, Symbols};
pub use finishing::{all_defaults, field_default, nodes_with};
pub use laws::parsed_schema_is_declared;
pub use schema::Schema;
pub use walk_laws::walk_gives_what_is_declared;
pub use walking::walk;
