//! Sessions.
//!
//! A table of slots, each with room for a session, that clients and workers share without a lock: the rule of a slot,
//! over whatever a session is, the table, its seats, and each atomic step on it.
#![tactic(auto)]

mod slots;
mod taking;

pub use slots::{
    ENDED, FREE, READY, SLOTS, SessionSlots, SlotSeat, WAITING, WITH_CLIENT, WITH_WORKER,
    word_after, word_after_slice,
};
pub use taking::{Busy, RunSlice, TakenOut};
