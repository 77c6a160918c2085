//! Why a call of the pool was refused.

use crate::pool::Pass;
use session_core::{PieceRefusal, PublishError};
use thiserror::Error;

/// Why no session was opened.
#[derive(Clone, Copy, Debug, PartialEq, Eq, Error)]
pub enum OpenError {
    /// The cache has no program for the pair.
    #[error("no program: {0}")]
    NoProgram(PublishError),
    #[error("no slot is free")]
    Full,
}

/// Why a piece was not taken.
#[derive(Clone, Copy, Debug, PartialEq, Eq, Error)]
pub enum PieceError {
    #[error("a worker has the session")]
    Busy,
    #[error("the bytes with the piece would pass the limit of a payload")]
    TooLarge,
    #[error("a piece comes after the last")]
    Ended,
    #[error("out of memory")]
    NoMemory,
}

/// A piece that was not taken, which is handed back, and why.
#[derive(Debug, Drop, PartialEq, Eq)]
pub struct ReturnedPiece {
    pub why: PieceError,
    pub piece: Vec<u8>,
}

/// Why a session's end is not returned yet.
#[derive(Clone, Copy, Debug, PartialEq, Eq, Error)]
pub enum NotYet {
    #[error("a worker has the session")]
    Busy,
    #[error("the session has not ended")]
    Pending,
}

/// A pass that is handed back, and why.
#[derive(Drop)]
pub struct ReturnedPass<W> {
    pub why: W,
    pub pass: Pass,
}

impl PieceError {
    ghost use Rattle.std.specs.Prelude.{◌≡◌};
    ghost use Rattle.session_pool.specs.Feeding.{piece_error};

    /// Returns the error for a piece that a session refused.
    pub(crate) fn of(refusal: PieceRefusal) -> PieceError
        ensures { result ≡ piece_error refusal }
    {
        match refusal {
            PieceRefusal::TooLarge => PieceError::TooLarge,
            PieceRefusal::Ended => PieceError::Ended,
            PieceRefusal::NoMemory => PieceError::NoMemory,
        }
    }
}
