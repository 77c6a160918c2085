//! Registry.
//!
//! What a note knows of a once cell, where many threads can read it; and a table of what is held for ids of 32 bits:
//! for each id one value, which is set once for all threads and for good, and is found without a lock.
#![tactic(auto)]

mod bytes;
mod held_value;
mod kept_id_note;
mod kept_note;
mod limits;
mod note;
mod row;
mod table;
#[cfg(test)]
mod tests;

pub use held_value::HeldValue;
pub use kept_id_note::KeptIdNote;
pub use kept_note::KeptNote;
pub use note::IdNote;
pub use table::IdTable;
