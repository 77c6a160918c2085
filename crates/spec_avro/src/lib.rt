//! What is promised of bytes, data and resolution.
//!
//! Definitions in `specs/`, and here the limits and the plain types that they speak of, with tables of names and
//! numbers.
#![tactic(auto)]

mod limits;
mod malformed;
mod meter;
mod mismatch;
mod outcome;
mod place;
mod transcode_error;

pub use limits::{
    INT_BYTES, INT_LAST, LONG_BYTES, LONG_LAST, MOST_CONTENT, MOST_DEPTH, MOST_FIELDS, MOST_FIXED,
    MOST_NODES, MOST_OUTPUT, MOST_PAYLOAD, MOST_SYMBOLS, MOST_TEXT, MOST_UNITS,
};
pub use malformed::MalformedKind;
pub use meter::Meter;
pub use mismatch::{Mismatch, MismatchKind};
pub use outcome::Outcome;
pub use place::{Destination, Partner, Route};
pub use transcode_error::TranscodeError;
