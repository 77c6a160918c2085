//! Resolution.
//!
//! What a person asks of schemas, as text: where their nodes are, and why a reader cannot read all that a writer
//! writes.
#![tactic(auto)]

mod asking;
mod checking;
mod explaining;
mod listing;
mod reading;
mod refusal;
mod report;
mod types;
mod wording;

pub use asking::{Level, check_report, nodes_report};
pub use explaining::{Form, explain_report};
pub use report::{Report, Verdict};
