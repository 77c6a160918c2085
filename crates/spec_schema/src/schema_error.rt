//! Why a text is no schema.

use std::alloc::{AllocError, AllocFailed};
use thiserror::Error;

/// Why a text is no schema: the first of its faults.
#[derive(Clone, Copy, Debug, PartialEq, Eq, Error)]
pub enum SchemaError {
    #[error("the schema passes a limit")]
    TooLarge,
    #[error("the text is no JSON, or nests too deep")]
    NotJson,
    #[error("a number that is no whole one in range")]
    BadNumber,
    #[error("an undefined name, or an attribute that is missing or misshapen")]
    Unknown,
    #[error("a form that is left out")]
    OutOfProfile,
    #[error("a name against the rule for names")]
    BadName,
    #[error("a full name that is defined twice")]
    Redefined,
    #[error("a union of a union, or of two members of one type")]
    BadUnion,
    #[error("symbols that are no names, or are not distinct")]
    BadSymbols,
    #[error("a default that is no value of its type")]
    BadDefault,
    #[error("out of memory")]
    NoMemory,
}

impl SchemaError {
    ghost use Rattle.std.specs.Prelude.{◌≡◌};
    ghost use Rattle.spec_schema.specs.SchemaError.{name_of};

    /// Returns its name, as programs print it.
    pub fn name(self) -> &'static str
        ensures { result.now ≡ name_of self }
    {
        match self {
            SchemaError::TooLarge => "TooLarge",
            SchemaError::NotJson => "NotJson",
            SchemaError::BadNumber => "BadNumber",
            SchemaError::Unknown => "Unknown",
            SchemaError::OutOfProfile => "OutOfProfile",
            SchemaError::BadName => "BadName",
            SchemaError::Redefined => "Redefined",
            SchemaError::BadUnion => "BadUnion",
            SchemaError::BadSymbols => "BadSymbols",
            SchemaError::BadDefault => "BadDefault",
            SchemaError::NoMemory => "NoMemory",
        }
    }
}

impl From<AllocError> for SchemaError {
    ghost use Rattle.std.specs.Prelude.{◌≡◌};
    ghost use Rattle.spec_schema.specs.declared.schema_error.SchemaError.TheVariants.{NoMemory};

    ghost from_gives = { λ _ e. e ≡ NoMemory };

    fn from(_error: AllocError) -> SchemaError {
        SchemaError::NoMemory
    }
}

impl<T: Drop> From<AllocFailed<T>> for SchemaError {
    ghost use Rattle.std.specs.Prelude.{◌≡◌};
    ghost use Rattle.spec_schema.specs.declared.schema_error.SchemaError.TheVariants.{NoMemory};

    ghost from_gives = { λ _ e. e ≡ NoMemory };

    fn from(_error: AllocFailed<T>) -> SchemaError {
        SchemaError::NoMemory
    }
}
