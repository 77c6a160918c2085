//! Edge: HTTP.
//!
//! Requests answered by the ids of an upstream registry: the schemas of a request are looked up first, and once none of
//! them is waited for, it is answered by these.
#![tactic(auto)]

mod looked;
mod looking;
mod replying;

pub use looked::Looked;
pub use looking::{Needed, needed_by};
pub use replying::reply_upstream;
