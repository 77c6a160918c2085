//! Why the bench gave up.

use std::alloc::AllocError;
use thiserror::Error;

/// Why the bench gave up.
#[derive(Clone, Copy, Debug, PartialEq, Eq, Error)]
pub(crate) enum BenchError {
    #[error("the one argument is how many sessions each way runs, 1 to 1000000000; 200000 without it")]
    Words,
    #[error("out of memory")]
    NoMemory,
    #[error("a schema or its program was refused")]
    Refused,
    #[error("the clock cannot be read")]
    NoClock,
    #[error("an answer is wrong or missing")]
    WrongAnswers,
    #[error("a figure cannot be told")]
    NotTold,
}

impl From<AllocError> for BenchError {
    fn from(_error: AllocError) -> BenchError {
        BenchError::NoMemory
    }
}
