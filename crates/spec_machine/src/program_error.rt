//! What keeps parts from being a program.

use crate::entry::Entry;
use crate::instr::Instr;
use thiserror::Error;

/// The first thing that keeps parts from being a program.
#[derive(Clone, Copy, Debug, PartialEq, Eq, Error)]
pub enum ProgramError {
    #[error("there is no instruction")]
    NoCode,
    #[error("a limit is passed")]
    TooLarge,
    #[error("constant {0} is empty")]
    EmptyConstant(usize),
    /// A map, and which of its entries.
    #[error("entry {1} of map {0} is out of range")]
    Entry(usize, usize),
    /// A jump table, and which of its addresses.
    #[error("address {1} of jump table {0} is out of range")]
    Address(usize, usize),
    #[error("miss {0} is out of range")]
    Miss(usize),
    #[error("the operand of instruction {0} is out of range")]
    Instr(usize),
}
