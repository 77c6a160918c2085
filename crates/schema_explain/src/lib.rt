//! Resolution.
//!
//! What becomes of every part of a message that is written by one schema and read by another (Avro 1.11 Specification,
//! "Schema Resolution").
#![tactic(auto)]

mod arrivals;
mod entries;
mod explaining;
mod fields;
mod laws;
mod line;
mod pairs;
mod parts;

pub use avro_bytes::MismatchKind;
pub use explaining::explain;
pub use laws::{
    each_bad_pair_has_a_line, each_mismatch_has_a_line, each_pair_has_a_line, fates_are_met,
    mismatches_are_at_bad_pairs, safe_where_no_line_mismatches, there_is_one_explanation,
};
pub use line::{Fate, Line, Part};
