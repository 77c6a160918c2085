//! Edge: HTTP.
//!
//! The service on a listener: threads of clients, each with connections of its own, which it accepts, reads, writes and
//! closes as they are ready, and workers beside them, over one pool of sessions.
#![tactic(auto)]

mod beside;
mod bounds;
mod client;
mod connection;
mod connections;
mod desk;
mod fetchers;
mod gate;
mod listening;
mod log;
mod options;
mod service;
mod shared;
mod staying;
mod threads;
mod upstream_client;
mod worker;

pub use beside::Source;
pub use bounds::{Bounds, Persistence};
pub use client::{reply_by_ids, reply_over};
pub use command_io::RunError;
pub use connection::{Answered, Connection, PendingRequest};
pub use connections::{Connections, Event};
pub use desk::{MOST_WAITING, MOST_WAITING_BYTES};
pub use log::{Fetch, LogLock};
pub use options::{MOST_SERVING, MOST_WORKING, ServeOptions};
pub use service::{serve_beside, serve_on};
