//! Why a command was refused, or was not kept.

use spec_schema::SchemaError;
use std::alloc::{AllocError, AllocFailed};
use thiserror::Error;

/// Why a command was not kept.
#[derive(Clone, Copy, Debug, PartialEq, Eq)]
pub enum KeepFault {
    /// Memory ran out before anything was kept.
    NoMemory,
    /// The keeper could not keep it, or takes no more.
    NotStored,
}

/// Why a command was refused.
#[derive(Clone, Copy, Debug, PartialEq, Eq, Error)]
pub enum Refusal {
    #[error("the name of the subject is empty, too long, or against the rule")]
    BadSubject,
    #[error("a version that is no number from 1")]
    BadVersion,
    #[error("no schema: {0}")]
    BadSchema(SchemaError),
    #[error("no compatibility level")]
    BadLevel,
    #[error("the subject has no versions")]
    NoSubject,
    #[error("the subject has no such version")]
    NoVersion,
    #[error("there is no such schema")]
    NoSchema,
    #[error("the schema does not go with those that the level names")]
    Incompatible,
    #[error("the registry is full")]
    Full,
    #[error("a cell holds another schema")]
    Clash,
    #[error("the command was not stored")]
    NotStored,
    #[error("out of memory")]
    NoMemory,
}

impl Refusal {
    ghost use Rattle.std.specs.Prelude.{◌≡◌};
    ghost use Rattle.spec_registry.specs.Refusal.{refusal_name};

    /// Returns its name, as programs print it.
    pub fn name(self) -> &'static str
        ensures { result.now ≡ refusal_name self }
    {
        match self {
            Refusal::BadSubject => "BadSubject",
            Refusal::BadVersion => "BadVersion",
            Refusal::BadSchema(_) => "BadSchema",
            Refusal::BadLevel => "BadLevel",
            Refusal::NoSubject => "NoSubject",
            Refusal::NoVersion => "NoVersion",
            Refusal::NoSchema => "NoSchema",
            Refusal::Incompatible => "Incompatible",
            Refusal::Full => "Full",
            Refusal::Clash => "Clash",
            Refusal::NotStored => "NotStored",
            Refusal::NoMemory => "NoMemory",
        }
    }
}

impl From<AllocError> for Refusal {
    ghost use Rattle.std.specs.Prelude.{◌≡◌};
    ghost use Rattle.spec_registry.specs.declared.refusal.Refusal.TheVariants.{NoMemory};

    ghost from_gives = { λ _ e. e ≡ NoMemory };

    fn from(_error: AllocError) -> Refusal {
        Refusal::NoMemory
    }
}

impl<T: Drop> From<AllocFailed<T>> for Refusal {
    ghost use Rattle.std.specs.Prelude.{◌≡◌};
    ghost use Rattle.spec_registry.specs.declared.refusal.Refusal.TheVariants.{NoMemory};

    ghost from_gives = { λ _ e. e ≡ NoMemory };

    fn from(_error: AllocFailed<T>) -> Refusal {
        Refusal::NoMemory
    }
}

impl From<KeepFault> for Refusal {
    ghost use Rattle.std.specs.Prelude.{◌≡◌};
    ghost use Rattle.spec_registry.specs.Refusal.{refusal_of_fault};

    ghost from_gives = { λ fault e. e ≡ refusal_of_fault fault };

    fn from(fault: KeepFault) -> Refusal {
        match fault {
            KeepFault::NoMemory => Refusal::NoMemory,
            KeepFault::NotStored => Refusal::NotStored,
        }
    }
}
