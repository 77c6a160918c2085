//! Why a payload has no outcome.

use spec_sessions::PublishError;
use thiserror::Error;

/// Why a payload has no outcome.
#[derive(Clone, Copy, Debug, PartialEq, Eq, Error)]
pub enum TranscodeFault {
    /// The pair has no program, or none was found for it.
    #[error("no program: {0}")]
    NoProgram(PublishError),
    #[error("all sessions are taken")]
    Full,
    #[error("the session was abandoned")]
    NotFinished,
    #[error("out of memory")]
    NoMemory,
}
