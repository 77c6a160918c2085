//! Edge: HTTP.
//!
//! Asking an upstream registry for the schemas of ids: where it is, who asks it, the queue of the ids that are asked
//! for, the threads that ask for them, the connections by which they do, and the store that keeps what is answered.
#![tactic(auto)]

mod credentials;
mod dial;
mod failure;
mod fetch_list;
mod fetching;
mod kept_upstream;
mod limits;
mod network;
mod queue;
mod target;
mod timed;

pub use credentials::{CredentialsFault, LONGEST_CREDENTIALS, credentials_of};
pub use dial::{Dial, MOST_ADDRESSES};
pub use fetch_list::Asked;
pub use fetching::{Watcher, run_fetcher};
pub use kept_upstream::{Beginning, KeptUpstream};
pub use limits::{FAILURE_TIME, MOST_ASKED, MOST_FAILURES};
pub use network::Network;
pub use queue::FetchQueue;
pub use target::{Target, UrlFault, target_of};
