//! Sessions.
//!
//! The programs of pairs of a registry's schemas, each compiled once for all threads, when it is first asked for.
#![tactic(auto)]

mod cache;
mod compiled;
mod place;
mod refusal;

pub use cache::{ProgramCache, pairs_have_their_own_numbers};
pub use compiled::{Compiled, LargePair};
pub use refusal::PairRefusal;
pub use session_core::{Programs, PublishError};
