//! What is promised of a registry.
//!
//! Commands and replies, levels, what is held and what is answered, and the envelope of a message: definitions in
//! `specs/`, and here the limits and the plain types that they speak of.
#![tactic(auto)]

mod envelope;
mod level;
mod limits;
mod refusal;
mod version;

pub use envelope::{EnvelopeError, PREFIX_LENGTH};
pub use level::Level;
pub use limits::{LONGEST_SUBJECT, MOST_LEVELS, MOST_SCHEMAS, MOST_SUBJECTS, MOST_VERSION};
pub use refusal::{KeepFault, Refusal};
pub use version::Version;
