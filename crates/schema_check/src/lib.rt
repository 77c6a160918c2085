//! Resolution.
//!
//! Why a reader cannot read all that a writer writes: every bad pair of nodes that the roots lead to, by which kind it
//! is bad, and a way to it (Avro 1.11 Specification, "Schema Resolution"). A call answers `AllocError` where there is
//! no memory for its answer, and for nothing else.
#![tactic(auto)]

mod checking;
mod fields;
mod laws;
mod pairs;
mod steps;
mod symbols;
mod ways;

pub use avro_bytes::MismatchKind;
pub use checking::{BadPair, Check, check_pair};
pub use fields::all_lacking;
pub use laws::{
    bad_pair_has_a_kind, bad_pair_has_details, mismatch_is_at_a_bad_pair, pair_has_one_check,
    place_has_one_way,
};
pub use pairs::NodePair;
pub use symbols::all_missing;
pub use ways::way_to;
