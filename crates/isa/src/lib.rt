//! Programs.
//!
//! The instruction table: what programs are, and what each row does to a state.
#![tactic(auto)]

mod coded;
mod end;
mod laws;
mod limits;
mod lists;
mod parts;
mod program;
mod range;

pub use coded::operation_at;
pub use end::{End, Trap};
pub use laws::{
    operations_go_with_instructions_and_codes, row_or_end_is_there, row_stays_on_longer_input,
    row_that_ends_changes_nothing_else, rows_stay_within_bounds, worked_rows_come_out,
};
pub use limits::{
    MOST_CALLS, MOST_CHUNK, MOST_CONSTANT_BYTES, MOST_ENTRIES, MOST_FIXED, MOST_INSTRS, MOST_NODES,
    MOST_SLOTS, MOST_SYMBOLS, MOST_TABLES, limits_are_these,
};
pub use lists::Lists;
pub use parts::Parts;
pub use program::{Program, ProgramError};
pub use spec_machine::{Entry, Instr, OPERATIONS, Operation, Shape};
