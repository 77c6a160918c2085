//! Resolution.
//!
//! Which nodes of a writer's and a reader's schema match, which fields of their records are partners, and what a reader
//! makes of a writer's data (Avro 1.11 Specification, "Schema Resolution", "Aliases").
#![tactic(auto)]

mod fields;
mod full_names;
mod laws;
mod leaves;
mod matching_laws;
mod mismatch;
mod pairing;
mod pairs;
mod place;
mod resolving;
mod rule;
mod safety;
mod symbols;
mod transcoding;
mod unions;

pub use avro_bytes::{MOST_OUTPUT, MOST_PAYLOAD, Mismatch, MismatchKind, Outcome};
pub use fields::{field_lists, first_lacking};
pub use laws::{
    answer_is_spelled, payload_has_one_outcome, resolution_is_whole, what_is_safe_can_be_read,
};
pub use matching_laws::{matches_by_rule, partners_by_rule};
pub use mismatch::ResolveError;
pub use pairing::{Partner, Route, partners, routes};
pub use place::{Destination, place_of};
pub use resolving::resolve;
pub use rule::{both_items, both_values, matches};
pub use safety::can_read;
pub use symbols::{symbol_at, symbol_for};
pub use transcoding::{TranscodeError, transcode_tree};
pub use unions::member_of;
