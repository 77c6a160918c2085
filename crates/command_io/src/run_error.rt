//! Why a run of the program was broken off.

ghost use Rattle.std.specs.Prelude.{◌≡◌};

use std::alloc::{AllocError, AllocFailed};
use thiserror::Error;

/// Why a run was broken off.
#[derive(Clone, Copy, Debug, PartialEq, Eq, Error)]
pub enum RunError {
    #[error("the input cannot be read to its end")]
    Read,
    #[error("the output cannot be written")]
    Write,
    #[error("out of memory")]
    NoMemory,
}

impl From<AllocError> for RunError {
    ghost use Rattle.command_io.specs.declared.run_error.RunError.TheVariants.{NoMemory};

    ghost from_gives = { λ _ e. e ≡ NoMemory };

    fn from(_error: AllocError) -> RunError {
        RunError::NoMemory
    }
}

impl<T: Drop> From<AllocFailed<T>> for RunError {
    ghost use Rattle.command_io.specs.declared.run_error.RunError.TheVariants.{NoMemory};

    ghost from_gives = { λ _ e. e ≡ NoMemory };

    fn from(_error: AllocFailed<T>) -> RunError {
        RunError::NoMemory
    }
}
