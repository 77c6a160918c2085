//! Programs.
//!
//! The statements of a pair's code, and what they refer to: routines, constants and misses, each once and with its
//! number, and what the symbols of a pair of enums become.
#![tactic(auto)]

mod constants;
mod misses;
mod sections;
mod statements;
mod targets;

pub use constants::Constants;
pub use misses::Misses;
pub use sections::{Sections, note_calls};
pub use statements::{
    Constant, Go, Section, Statement, miss, put, put_all, put_branched, put_loop, put_record,
    put_routine, put_slot,
};
pub use targets::{entries, position_for};
