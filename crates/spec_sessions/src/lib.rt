//! What is promised of sessions.
//!
//! What happens to a world of sessions, and that each is its own: definitions in `specs/`, and here the plain types
//! that they speak of.
#![tactic(auto)]

mod end;
mod finished;
mod limits;
mod publish_error;
mod refusal;
mod reply;
mod session_refusal;

pub use end::SessionEnd;
pub use finished::Finished;
pub use limits::{MOST_BREAKS, MOST_ROOM};
pub use publish_error::PublishError;
pub use refusal::EventRefusal;
pub use reply::EventReply;
pub use session_refusal::{BreakRefusal, ClearRefusal, PieceRefusal};
