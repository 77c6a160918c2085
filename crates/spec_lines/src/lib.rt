//! What is promised of lines.
//!
//! What each subcommand prints: definitions in `specs/`, and here the plain types that they speak of.
#![tactic(auto)]

mod debug_kind;
mod debug_line;
mod kind;
mod refusal;
mod status;
mod verb;

pub use debug_kind::DebugKind;
pub use debug_line::DebugLine;
pub use kind::Kind;
pub use refusal::Refusal;
pub use status::Status;
pub use verb::Verb;
