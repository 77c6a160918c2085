//! Why a line or a command was refused.

use std::alloc::{AllocError, AllocFailed};
use thiserror::Error;

/// Why a line was not read as a command.
#[derive(Clone, Copy, Debug, PartialEq, Eq, Error)]
pub enum LineFault {
    #[error("out of memory")]
    NoMemory,
    /// The line does not end with the check of what is before it.
    #[error("the check at the end of the line is not that of the line")]
    BadCheck,
    /// The check is right, and what is before it is not as a command is written.
    #[error("no command is written as this line")]
    BadLine,
}

impl From<AllocError> for LineFault {
    ghost use Rattle.std.specs.Prelude.{◌≡◌};
    ghost use Rattle.registry_store.specs.declared.fault.LineFault.TheVariants.{NoMemory};

    ghost from_gives = { λ _ fault. fault ≡ NoMemory };

    fn from(_error: AllocError) -> LineFault {
        LineFault::NoMemory
    }
}

impl<T: Drop> From<AllocFailed<T>> for LineFault {
    ghost use Rattle.std.specs.Prelude.{◌≡◌};
    ghost use Rattle.registry_store.specs.declared.fault.LineFault.TheVariants.{NoMemory};

    ghost from_gives = { λ _ fault. fault ≡ NoMemory };

    fn from(_error: AllocFailed<T>) -> LineFault {
        LineFault::NoMemory
    }
}
