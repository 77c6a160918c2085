//! Why transcoding a payload returns no outcome.

use thiserror::Error;

/// Why there is no outcome, the first reason.
#[derive(Clone, Copy, Debug, PartialEq, Eq, Error)]
pub enum TranscodeError {
    #[error("the payload passes its limit")]
    TooLarge,
    #[error("out of memory")]
    NoMemory,
}
