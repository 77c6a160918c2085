//! What keeps bytes from being loaded as a program.

ghost use Rattle.std.specs.Prelude.{◌≡◌};
ghost use Rattle.avro_loader.specs.declared.fault.LoadError.TheVariants.{Fault, NoMemory};

use crate::ImageFault;
use std::alloc::{AllocError, AllocFailed};
use thiserror::Error;

/// Why an image was not loaded.
#[derive(Clone, Copy, Debug, PartialEq, Eq, Error)]
pub enum LoadError {
    #[error("out of memory")]
    NoMemory,
    #[error("{0}")]
    Fault(ImageFault),
}

impl From<ImageFault> for LoadError {
    ghost from_gives = { λ f e. e ≡ Fault f };

    fn from(fault: ImageFault) -> LoadError {
        LoadError::Fault(fault)
    }
}

impl From<AllocError> for LoadError {
    ghost from_gives = { λ _ e. e ≡ NoMemory };

    fn from(_error: AllocError) -> LoadError {
        LoadError::NoMemory
    }
}

impl<T: Drop> From<AllocFailed<T>> for LoadError {
    ghost from_gives = { λ _ e. e ≡ NoMemory };

    fn from(_error: AllocFailed<T>) -> LoadError {
        LoadError::NoMemory
    }
}
