//! Edge: lines and commands.
//!
//! What commands read and write: a whole input, its lines, what those of sessions say, payloads in hexadecimal, the
//! answers to them, how a run ended, and a whole output.
#![tactic(auto)]

mod answer;
mod debug_kind;
mod debug_line;
mod input;
mod kind;
mod lines;
mod numbers;
mod output;
mod reading;
mod request;
mod run_error;
mod run_line;
mod texts;
mod words;

pub use answer::{payload_of, push_answer, push_outcome};
pub use debug_line::{DebugLine, read_debug_line};
pub use input::{MOST_READS, read_all};
pub use lines::{split_line, split_line_or_empty};
pub use output::{MOST_WRITES, write_whole};
pub use reading::read_replay_line;
pub use request::Request;
pub use run_error::RunError;
pub use run_line::push_run;
