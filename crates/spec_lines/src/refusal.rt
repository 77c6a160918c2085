//! Why a whole input is not answered.

ghost use Rattle.std.specs.Prelude.{◌≡◌};

use spec_machine::AsmFault;
use spec_schema::SchemaError;
use std::alloc::{AllocError, AllocFailed};
use thiserror::Error;

/// Why an input is not answered.
#[derive(Clone, Copy, Debug, PartialEq, Eq, Error)]
pub enum Refusal {
    #[error("the schema in line {line} is bad: {error}")]
    BadSchema { line: u8, error: SchemaError },
    #[error("the listing is bad: {0}")]
    BadListing(AsmFault),
    #[error("the program of the schemas passes a limit")]
    ProgramTooLarge,
    #[error("the payload is no lower-case hexadecimal in pairs")]
    BadHex,
    #[error("the payload passes its limit")]
    TooLarge,
    #[error("out of memory")]
    NoMemory,
}

impl From<AllocError> for Refusal {
    ghost use Rattle.spec_lines.specs.declared.refusal.Refusal.TheVariants.{NoMemory};

    ghost from_gives = { λ _ e. e ≡ NoMemory };

    fn from(_error: AllocError) -> Refusal {
        Refusal::NoMemory
    }
}

impl<T: Drop> From<AllocFailed<T>> for Refusal {
    ghost use Rattle.spec_lines.specs.declared.refusal.Refusal.TheVariants.{NoMemory};

    ghost from_gives = { λ _ e. e ≡ NoMemory };

    fn from(_error: AllocFailed<T>) -> Refusal {
        Refusal::NoMemory
    }
}
