//! Why no members were read.

ghost use Rattle.std.specs.Prelude.{◌≡◌};
ghost use Rattle.gateway_bodies.specs.declared.error.BodyError.TheVariants.{NoMemory, NoObject};

use json::Invalid;
use std::alloc::AllocError;
use thiserror::Error;

/// Why no members were read.
#[derive(Clone, Copy, Debug, PartialEq, Eq, Error)]
pub enum BodyError {
    #[error("the text is no JSON object")]
    NoObject,
    #[error("out of memory")]
    NoMemory,
}

impl From<Invalid> for BodyError {
    ghost from_gives = { λ _ e. e ≡ NoObject };

    fn from(_error: Invalid) -> BodyError {
        BodyError::NoObject
    }
}

impl From<AllocError> for BodyError {
    ghost from_gives = { λ _ e. e ≡ NoMemory };

    fn from(_error: AllocError) -> BodyError {
        BodyError::NoMemory
    }
}
