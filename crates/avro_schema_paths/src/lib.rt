//! Schemas.
//!
//! Where each node of a schema is declared in its JSON value, as a path, and the path's text as a JSON Pointer
//! (RFC 6901).
#![tactic(auto)]

mod entries;
mod laws;
mod parts;
mod paths;
mod placing;
mod pointers;
mod step;

pub use entries::{NodePath, Place};
pub use laws::{
    each_node_has_one_path, each_node_has_path, paths_lead_there, pointers_lead_there,
    read_value_is_declared,
};
pub use paths::paths_of;
pub use placing::add_places;
pub use pointers::pointer;
pub use step::Step;
