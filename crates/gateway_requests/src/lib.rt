//! Edge: HTTP.
//!
//! What a request asks of the service, or the first of its faults; the answers, with their codes, statuses and texts;
//! and a request that is received and an answer that is sent, part by part, over any stream.
#![tactic(auto)]

mod answer;
mod asking;
mod fault;
mod head;
mod json_body;
mod laws;
mod limits;
mod read_error;
mod reception;
mod replies;
mod request;
mod route;
mod sending;

pub use answer::Answer;
pub use asking::{Chosen, action_at, choose, request_of, transcoding_of};
pub use fault::{Fault, fault_message};
pub use head::{Front, content_length, is_number, number_up_to, read_body, read_head};
pub use laws::codes_begin_with_their_status;
pub use limits::{MOST_BODY, MOST_FIELDS, MOST_HEAD, MOST_TRIES, limits_are_these};
pub use read_error::ReadError;
pub use reception::Reception;
pub use replies::{
    compatibility_text, entry_text, fault_text, id_text, level_text, names_text, new_level_text,
    numbers_text, schema_text,
};
pub use request::Request;
pub use route::{Action, Route, Routes, path_of};
pub use sending::{Progress, Sending, drain, receive, send};
pub use spec_service::{AnswerBytes, ContentType, Status, UpstreamFault};
