//! Edge: lines and commands.
//!
//! What the program does with its input: each command reads it whole, makes its whole output, and then writes it.
#![tactic(auto)]

mod command;
mod compile;
mod debugging;
mod laws;
mod listed;
mod pieces;
mod questions;
mod refusal;
mod replaying;
mod running;
mod schemas;
mod session_debugging;
mod telling;
mod transcode;

pub use command::run;
pub use command_io::{MOST_READS, MOST_WRITES, RunError};
pub use command_line::Verb;
pub use laws::input_has_one_output;
pub use questions::{Question, answer};
pub use replaying::replay;
pub use schema_report::{Form, Level, Verdict};
pub use session_debugging::debug;
pub use spec_lines::Status;
