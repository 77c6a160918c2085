//! Edge: HTTP.
//!
//! How messages are transcoded for requests: by sessions of a pool, which its workers run, and clients while they wait.
#![tactic(auto)]

mod app;
mod serving;
mod working;

pub use app::App;
pub use gateway_core::{
    AnswerBytes, Evidence, Gate, NamedReply, NamedSchema, Place, Reply, Schemas, ServeError, Sight,
    TellError,
};
pub use serving::{MOST_ABANDONS, Pooled, reply_named, reply_to, serve_and_tell, serve_one};
pub use working::{Helping, SLICE, pop_client, pop_worker, work};
