//! Why a call of a session was refused.

use std::alloc::{AllocError, AllocFailed};
use thiserror::Error;

/// Why a piece was not taken, which changed nothing.
#[derive(Clone, Copy, Debug, PartialEq, Eq, Error)]
pub enum PieceRefusal {
    #[error("the bytes with the piece would pass the limit of a payload")]
    TooLarge,
    #[error("a piece comes after the last")]
    Ended,
    #[error("out of memory")]
    NoMemory,
}

/// Why a breakpoint was not set, which changed nothing.
#[derive(Clone, Copy, Debug, PartialEq, Eq, Error)]
pub enum BreakRefusal {
    #[error("the address is none of the program's")]
    BadAddress,
    #[error("the session has as many other breakpoints as it may have")]
    TooManyBreaks,
    #[error("out of memory")]
    NoMemory,
}

/// Why a breakpoint was not cleared, which changed nothing.
#[derive(Clone, Copy, Debug, PartialEq, Eq, Error)]
pub enum ClearRefusal {
    #[error("the address is none of the program's")]
    BadAddress,
}

impl PieceRefusal {
    ghost use Rattle.std.specs.Prelude.{◌≡◌};
    ghost use Rattle.spec_sessions.specs.SessionNames.{piece_refusal_name};

    /// Returns its name, as programs print it.
    pub fn name(self) -> &'static str
        ensures { result.now ≡ piece_refusal_name self }
    {
        match self {
            PieceRefusal::TooLarge => "TooLarge",
            PieceRefusal::Ended => "Ended",
            PieceRefusal::NoMemory => "NoMemory",
        }
    }
}

impl BreakRefusal {
    ghost use Rattle.std.specs.Prelude.{◌≡◌};
    ghost use Rattle.spec_sessions.specs.SessionNames.{break_refusal_name};

    /// Returns its name, as programs print it.
    pub fn name(self) -> &'static str
        ensures { result.now ≡ break_refusal_name self }
    {
        match self {
            BreakRefusal::BadAddress => "BadAddress",
            BreakRefusal::TooManyBreaks => "TooManyBreaks",
            BreakRefusal::NoMemory => "NoMemory",
        }
    }
}

impl ClearRefusal {
    ghost use Rattle.std.specs.Prelude.{◌≡◌};
    ghost use Rattle.spec_sessions.specs.SessionNames.{clear_refusal_name};

    /// Returns its name, as programs print it.
    pub fn name(self) -> &'static str
        ensures { result.now ≡ clear_refusal_name self }
    {
        match self {
            ClearRefusal::BadAddress => "BadAddress",
        }
    }
}

impl From<AllocError> for PieceRefusal {
    ghost use Rattle.std.specs.Prelude.{◌≡◌};
    ghost use Rattle.spec_sessions.specs.declared.session_refusal.PieceRefusal.TheVariants.{NoMemory};

    ghost from_gives = { λ _ e. e ≡ NoMemory };

    fn from(_error: AllocError) -> PieceRefusal {
        PieceRefusal::NoMemory
    }
}

impl<T: Drop> From<AllocFailed<T>> for BreakRefusal {
    ghost use Rattle.std.specs.Prelude.{◌≡◌};
    ghost use Rattle.spec_sessions.specs.declared.session_refusal.BreakRefusal.TheVariants.{NoMemory};

    ghost from_gives = { λ _ e. e ≡ NoMemory };

    fn from(_error: AllocFailed<T>) -> BreakRefusal {
        BreakRefusal::NoMemory
    }
}
