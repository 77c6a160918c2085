//! Programs.
//!
//! The program of a pair of schemas.
#![tactic(auto)]

mod laws;

pub use laws::{
    no_program_only_past_a_limit, program_is_in_range, program_is_linked,
    worked_pairs_have_their_programs,
};
