//! Programs.
//!
//! The simulation: the program of a pair of schemas, run alone, ends with the outcome of its payload.
#![tactic(auto)]

mod laws;

pub use laws::{
    program_ends_with_the_outcome, runs_alone_are_counted_and_stay, worked_program_runs_alone,
};
