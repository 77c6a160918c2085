//! Edge: HTTP.
//!
//! One request, one answer, over any reader and any writer.
#![tactic(auto)]

mod answering;
mod app;
mod gate;
mod messages;
mod named;
mod replies;
mod serve_error;
mod serving;
mod transcode;
mod writing;

pub use answering::{Reply, reply_to};
pub use app::App;
pub use gate::{Gate, Place};
pub use gateway_requests::AnswerBytes;
pub use messages::{NamedPair, NamedSchema, Rewritten, Schemas, Unpaired};
pub use named::{NamedReply, Sight, reply_named};
pub use serve_error::{ServeError, TellError};
pub use serving::{serve_and_tell, serve_one};
pub use spec_service::Evidence;
pub use transcode::{ReceiptPair, Transcode, TranscodeFault};
