//! Why a pair of schemas was not compiled.

use std::alloc::{AllocError, AllocFailed};
use thiserror::Error;

/// Why a pair of schemas was not compiled.
#[derive(Clone, Copy, Debug, PartialEq, Eq, Error)]
pub enum CompileError {
    #[error("the program passes a limit")]
    ProgramTooLarge,
    #[error("out of memory")]
    NoMemory,
}

impl From<AllocError> for CompileError {
    ghost use Rattle.std.specs.Prelude.{◌≡◌};
    ghost use Rattle.program_compiler.specs.declared.error.CompileError.TheVariants.{NoMemory};

    ghost from_gives = { λ _ e. e ≡ NoMemory };

    fn from(_error: AllocError) -> CompileError {
        CompileError::NoMemory
    }
}

impl<T: Drop> From<AllocFailed<T>> for CompileError {
    ghost use Rattle.std.specs.Prelude.{◌≡◌};
    ghost use Rattle.program_compiler.specs.declared.error.CompileError.TheVariants.{NoMemory};

    ghost from_gives = { λ _ e. e ≡ NoMemory };

    fn from(_error: AllocFailed<T>) -> CompileError {
        CompileError::NoMemory
    }
}
