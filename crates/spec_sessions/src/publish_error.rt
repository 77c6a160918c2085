//! Why a store has no program for a pair.

use std::alloc::{AllocError, AllocFailed};
use thiserror::Error;

/// Why a store of programs has none for a pair of schemas.
#[derive(Clone, Copy, Debug, PartialEq, Eq, Error)]
pub enum PublishError {
    #[error("the program passes a limit")]
    ProgramTooLarge,
    /// The cells that the pair's program may be in hold those of other pairs.
    #[error("no cell is left")]
    Clash,
    #[error("out of memory")]
    NoMemory,
}

impl PublishError {
    ghost use Rattle.std.specs.Prelude.{◌≡◌};
    ghost use Rattle.spec_sessions.specs.Names.{error_name};

    /// Returns its name, as programs print it.
    pub fn name(self) -> &'static str
        ensures { result.now ≡ error_name self }
    {
        match self {
            PublishError::ProgramTooLarge => "ProgramTooLarge",
            PublishError::Clash => "Clash",
            PublishError::NoMemory => "NoMemory",
        }
    }
}

impl From<AllocError> for PublishError {
    ghost use Rattle.std.specs.Prelude.{◌≡◌};
    ghost use Rattle.spec_sessions.specs.declared.publish_error.PublishError.TheVariants.{NoMemory};

    ghost from_gives = { λ _ e. e ≡ NoMemory };

    fn from(_error: AllocError) -> PublishError {
        PublishError::NoMemory
    }
}

impl<T: Drop> From<AllocFailed<T>> for PublishError {
    ghost use Rattle.std.specs.Prelude.{◌≡◌};
    ghost use Rattle.spec_sessions.specs.declared.publish_error.PublishError.TheVariants.{NoMemory};

    ghost from_gives = { λ _ e. e ≡ NoMemory };

    fn from(_error: AllocFailed<T>) -> PublishError {
        PublishError::NoMemory
    }
}
