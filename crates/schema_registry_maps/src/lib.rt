//! Registry.
//!
//! Texts under ids, the versions of subjects, what is set for a subject, and which versions a new one is compared with.
#![tactic(auto)]

mod adding;
mod comparing;
mod limits;
mod putting;
mod settings;
mod versions;

pub use adding::add;
pub use comparing::{compared, newer_reads, older_reads};
pub use limits::{MOST_ID, limits_are_these};
pub use putting::put;
pub use settings::set_for;
pub use versions::Versions;
