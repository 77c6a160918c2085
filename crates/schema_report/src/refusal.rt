//! Why an input is not answered.

ghost use Rattle.std.specs.Prelude.{◌≡◌};

use avro_schema::SchemaError;
use std::alloc::{AllocError, AllocFailed};

/// Why an input is not answered.
#[derive(Clone, Copy, Debug, PartialEq, Eq)]
pub(crate) enum Refusal {
    NoMemory,
    /// The schema in this line, from 1, is none, for this fault.
    BadSchema { line: u8, error: SchemaError },
}

impl From<AllocError> for Refusal {
    ghost use Rattle.schema_report.specs.declared.refusal.Refusal.TheVariants.{NoMemory};

    ghost from_gives = { λ _ e. e ≡ NoMemory };

    fn from(_error: AllocError) -> Refusal {
        Refusal::NoMemory
    }
}

impl<T: Drop> From<AllocFailed<T>> for Refusal {
    ghost use Rattle.schema_report.specs.declared.refusal.Refusal.TheVariants.{NoMemory};

    ghost from_gives = { λ _ e. e ≡ NoMemory };

    fn from(_error: AllocFailed<T>) -> Refusal {
        Refusal::NoMemory
    }
}
