//! Why the bench gave up.

use std::alloc::AllocError;
use thiserror::Error;

/// Why the bench gave up.
#[derive(Clone, Copy, Debug, PartialEq, Eq, Error)]
pub(crate) enum BenchError {
    #[error("the one argument is the number of finds of each kind")]
    Words,
    #[error("out of memory")]
    NoMemory,
    #[error("a schema was not found")]
    NotFound,
    #[error("the clock cannot be read")]
    NoClock,
    #[error("a figure cannot be printed")]
    NotPrinted,
}

impl From<AllocError> for BenchError {
    fn from(_error: AllocError) -> BenchError {
        BenchError::NoMemory
    }
}
