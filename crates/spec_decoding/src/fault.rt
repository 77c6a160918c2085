//! Why bytes cannot be read.

ghost use Rattle.std.specs.Prelude.{◌≡◌};

use spec_avro::MalformedKind;
use std::alloc::{AllocError, AllocFailed};
use thiserror::Error;

/// Why bytes could not be read; of malformed ones the first fault, and its offset in the bytes.
#[derive(Clone, Copy, Debug, PartialEq, Eq, Error)]
pub enum Fault {
    #[error("the bytes end inside the spelling")]
    Need,
    #[error("malformed {} at {at}", .kind.name())]
    Malformed { kind: MalformedKind, at: usize },
    #[error("out of memory")]
    NoMemory,
}

impl From<AllocError> for Fault {
    ghost use Rattle.spec_decoding.specs.declared.fault.Fault.TheVariants.{NoMemory};

    ghost from_gives = { λ _ e. e ≡ NoMemory };

    fn from(_error: AllocError) -> Fault {
        Fault::NoMemory
    }
}

impl<T: Drop> From<AllocFailed<T>> for Fault {
    ghost use Rattle.spec_decoding.specs.declared.fault.Fault.TheVariants.{NoMemory};

    ghost from_gives = { λ _ e. e ≡ NoMemory };

    fn from(_error: AllocFailed<T>) -> Fault {
        Fault::NoMemory
    }
}
