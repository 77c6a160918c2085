//! Edge: HTTP.
//!
//! Asking the registry beside this service for the schema of an id: the text of the question, the answer that the bytes
//! received begin with, and what its content says.
#![tactic(auto)]

mod answer;
mod body;
mod content;
mod fault;
mod head;
mod limits;
mod lines;
mod question;
mod read_once;
mod receiving;
mod stage;

pub use answer::{UpstreamAnswer, parse_answer};
pub use content::{is_unknown, schema_in};
pub use fault::{AnswerFault, ContentFault, ReceiveFault};
pub use limits::{
    MOST_ANSWER, MOST_CONTENT, MOST_ERROR, MOST_FIELDS, MOST_HEAD, MOST_TRIES, limits_are_these,
};
pub use question::{Place, question_of};
pub use receiving::receive;
