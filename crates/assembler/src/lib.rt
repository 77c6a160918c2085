//! Programs.
//!
//! The listings of programs: their text, and the words of its lines.
#![tactic(auto)]

mod assembling;
mod draft;
mod laws;
mod listing;
mod things;
mod words;

pub use assembling::assemble;
pub use laws::listing_is_of_one_program;
pub use listing::disassemble;
pub use spec_machine::{AsmError, AsmErrorKind, AsmFault};
pub use things::bytes_of;
pub use words::{
    is_numeral, is_text, kind_named, next_word, number_of, operation_named, split_line, split_word,
};
