//! What is promised of programs.
//!
//! The instruction table, the program of a pair of schemas, its listing and its image: definitions in `specs/`, and
//! here the instructions, the limits and the plain types that they speak of.
#![tactic(auto)]

mod entry;
mod instr;
mod limits;
mod listing_fault;
mod miss_kinds;
mod operation;
mod program_error;
mod sizes;
mod trap;
mod version;

pub use entry::Entry;
pub use instr::Instr;
pub use limits::{
    MOST_CALLS, MOST_CHUNK, MOST_CONSTANT_BYTES, MOST_ENTRIES, MOST_FIXED, MOST_INSTRS,
    MOST_INSTRS_OF_ONE, MOST_NODES, MOST_SLOTS, MOST_SYMBOLS, MOST_TABLES,
};
pub use listing_fault::{AsmError, AsmErrorKind, AsmFault};
pub use miss_kinds::KINDS;
pub use operation::{OPERATIONS, Operation, Shape};
pub use program_error::ProgramError;
pub use sizes::Sizes;
pub use trap::Trap;
pub use version::Version;
