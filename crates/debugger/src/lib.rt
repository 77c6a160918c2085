//! Sessions.
//!
//! What a debugger shows: the state of a session or a machine, and the listing of its program, as text.
#![tactic(auto)]

mod frames;
mod sessions;
mod showing;
mod words;

pub use sessions::{list, show};
pub use showing::{list_program, show_machine};
