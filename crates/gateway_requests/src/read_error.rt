//! Why a request was not read, through no fault of its own.

ghost use Rattle.std.specs.Prelude.{◌≡◌};
ghost use Rattle.gateway_requests.specs.declared.read_error.ReadError.TheVariants.{NoMemory};

use std::alloc::AllocError;
use thiserror::Error;

/// Why a request was not read, through no fault of its own.
#[derive(Clone, Copy, Debug, PartialEq, Eq, Error)]
pub enum ReadError {
    #[error("the reader ended before the first byte")]
    Closed,
    #[error("the reader failed")]
    Failed,
    #[error("out of memory")]
    NoMemory,
}

impl From<AllocError> for ReadError {
    ghost from_gives = { λ _ e. e ≡ NoMemory };

    fn from(_error: AllocError) -> ReadError {
        ReadError::NoMemory
    }
}
