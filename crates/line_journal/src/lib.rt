//! Registry.
//!
//! A file of lines that outlives a crash. A line is on the disk before `append` answers `Ok`. After a crash the file
//! reads as the lines that it had, with at most one more, of which nothing was answered.
#![tactic(auto)]

mod crashing;
mod error;
mod journal;
mod laws;
mod layout;
mod opening;
mod reading;
mod taking_back;
mod writing;

pub use crashing::Aftermath;
pub use error::{AppendError, Damage, OpenError, ReadError};
pub use journal::Journal;
pub use laws::a_changed_gate_is_found;
pub use layout::{CLOSED, GATE, LONGEST, NEWLINE, OPEN, limits_are_these};
pub use reading::{Found, read_lines};
