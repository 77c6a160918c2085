//! Edge: HTTP.
//!
//! The bytes of a connection that stays: what comes next of the requests, before it is handed on to the connection's
//! server, and what is sent in answer.
#![tactic(auto)]

mod closing;
mod exchange;
mod laws;
mod prepared;
mod scout;
mod standing;
mod stream;
mod whole_request;

pub use exchange::PersistentExchange;
pub use laws::{calls_are_for_the_seen, seen_are_the_requests};
pub use prepared::Prepared;
pub use scout::{Refusal, Scout, Sighting, Step};
pub use stream::{Course, RequestStream};
pub use whole_request::WholeRequest;
