//! Sessions.
//!
//! Sessions: a program run on bytes that come in pieces, with breakpoints, until it ends or memory does; and sessions
//! beside a registry, with what happens to them, one event after another.
#![tactic(auto)]

mod act;
mod event;
mod held;
mod laws;
mod limits;
mod pair_row;
mod programs;
mod published;
mod running;
mod session;
mod session_refusal;
mod world;

pub use act::Act;
pub use event::Event;
pub use laws::{replies_tell_what_happened, sessions_are_their_own};
pub use limits::{MOST_BREAKS, MOST_ROOM, limits_are_these};
pub use pair_row::PairRow;
pub use programs::Programs;
pub use session::{Session, Slice, Stopped};
pub use session_refusal::{BreakRefusal, ClearRefusal, PieceRefusal, RefusedPiece};
pub use spec_sessions::{EventRefusal, EventReply, PublishError, SessionEnd};
pub use world::World;
