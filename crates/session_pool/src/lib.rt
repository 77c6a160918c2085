//! Sessions.
//!
//! A pool of sessions that threads share: clients feed them and ask for their outcomes, and whichever worker takes one
//! runs it, by its own jobs or by one that it steals. No call of the pool waits for another thread.
#![tactic(auto)]

mod debug_error;
mod debugging;
mod limits;
mod pool;
mod refusals;
mod seat;
mod turning;

pub use debug_error::DebugError;
pub use debugging::{DebugCommand, DebugReply, one_session_is_handed_back};
pub use limits::{MOST_CLIENTS, MOST_KEPT, MOST_WORKERS, limits_are_these};
pub use pool::{ClientSeat, Finished, Pass, SessionPool, WorkerSeat};
pub use refusals::{NotYet, OpenError, PieceError, ReturnedPass, ReturnedPiece};
pub use seat::{JobSeat, Tally};
pub use session_core::{PublishError, SessionEnd};
pub use session_pool_slots::{Busy, SLOTS};
pub use turning::{Jobs, Turn};
