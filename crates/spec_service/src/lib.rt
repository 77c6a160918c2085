//! What is promised of the service over HTTP.
//!
//! Requests, routes and answers, also over connections that stay and beside another registry: definitions in
//! `specs/`, and here the limits and the plain types that they speak of.
#![tactic(auto)]

mod action;
mod answer_bytes;
mod chosen;
mod content_type;
mod evidence;
mod fault;
mod limits;
mod named_schema;
mod place;
mod route;
mod sight;
mod sighting;
mod status;
mod transcode_fault;
mod upstream_content;
mod upstream_fault;
pub mod upstream_limits;

pub use action::Action;
pub use answer_bytes::AnswerBytes;
pub use chosen::Chosen;
pub use content_type::ContentType;
pub use evidence::Evidence;
pub use fault::Fault;
pub use limits::{MOST_BODY, MOST_FIELDS, MOST_HEAD, MOST_TRIES};
pub use named_schema::NamedSchema;
pub use place::Place;
pub use route::Route;
pub use sight::Sight;
pub use sighting::Sighting;
pub use status::Status;
pub use transcode_fault::TranscodeFault;
pub use upstream_content::ContentFault;
pub use upstream_fault::UpstreamFault;
