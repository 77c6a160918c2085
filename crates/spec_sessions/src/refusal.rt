//! Why an event was refused.

use crate::publish_error::PublishError;
use crate::session_refusal::{BreakRefusal, ClearRefusal, PieceRefusal};
use spec_registry::Refusal;
use thiserror::Error;

/// Why an event was refused, which changed nothing.
#[derive(Clone, Copy, Debug, PartialEq, Eq, Error)]
pub enum EventRefusal {
    #[error("no session has this number")]
    NoSession,
    #[error("another worker holds the session")]
    NotHeld,
    #[error("the pair is not published")]
    NotPublished,
    #[error("no schema has this id")]
    NoSchema,
    #[error("the bytes with the piece would pass the limit of a payload")]
    TooLarge,
    #[error("a piece comes after the last")]
    Ended,
    #[error("the address is none of the program's")]
    BadAddress,
    #[error("the session has as many other breakpoints as it may have")]
    TooManyBreaks,
    #[error("out of memory")]
    NoMemory,
    #[error("{0}")]
    OfRegistry(Refusal),
    #[error("{0}")]
    OfPublication(PublishError),
}

impl EventRefusal {
    ghost use Rattle.std.specs.Prelude.{◌≡◌};
    ghost use Rattle.spec_sessions.specs.Names.{refusal_name};

    /// Returns its name, as programs print it.
    pub fn name(self) -> &'static str
        ensures { result.now ≡ refusal_name self }
    {
        match self {
            EventRefusal::NoSession => "NoSession",
            EventRefusal::NotHeld => "NotHeld",
            EventRefusal::NotPublished => "NotPublished",
            EventRefusal::NoSchema => "NoSchema",
            EventRefusal::TooLarge => "TooLarge",
            EventRefusal::Ended => "Ended",
            EventRefusal::BadAddress => "BadAddress",
            EventRefusal::TooManyBreaks => "TooManyBreaks",
            EventRefusal::NoMemory => "NoMemory",
            EventRefusal::OfRegistry(refusal) => refusal.name(),
            EventRefusal::OfPublication(error) => error.name(),
        }
    }
}

impl From<PieceRefusal> for EventRefusal {
    ghost use Rattle.std.specs.Prelude.{◌≡◌};
    ghost use Rattle.spec_sessions.specs.Acts.{of_piece};

    ghost from_gives = { λ refusal e. e ≡ of_piece refusal };

    fn from(refusal: PieceRefusal) -> EventRefusal {
        match refusal {
            PieceRefusal::TooLarge => EventRefusal::TooLarge,
            PieceRefusal::Ended => EventRefusal::Ended,
            PieceRefusal::NoMemory => EventRefusal::NoMemory,
        }
    }
}

impl From<BreakRefusal> for EventRefusal {
    ghost use Rattle.std.specs.Prelude.{◌≡◌};
    ghost use Rattle.spec_sessions.specs.Acts.{of_break};

    ghost from_gives = { λ refusal e. e ≡ of_break refusal };

    fn from(refusal: BreakRefusal) -> EventRefusal {
        match refusal {
            BreakRefusal::BadAddress => EventRefusal::BadAddress,
            BreakRefusal::TooManyBreaks => EventRefusal::TooManyBreaks,
            BreakRefusal::NoMemory => EventRefusal::NoMemory,
        }
    }
}

impl From<ClearRefusal> for EventRefusal {
    ghost use Rattle.std.specs.Prelude.{◌≡◌};
    ghost use Rattle.spec_sessions.specs.Acts.{of_clear};

    ghost from_gives = { λ refusal e. e ≡ of_clear refusal };

    fn from(refusal: ClearRefusal) -> EventRefusal {
        match refusal {
            ClearRefusal::BadAddress => EventRefusal::BadAddress,
        }
    }
}
