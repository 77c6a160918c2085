//! Why bytes are no message, and how long the part before a payload is.

ghost use Rattle.std.specs.Prelude.{◌≡◌};

use thiserror::Error;

/// How many bytes come before the payload: the magic byte, and the id in four.
pub const PREFIX_LENGTH: usize = 5;

/// Why bytes are no message, as the first of these that holds. This project's own.
#[derive(Clone, Copy, Debug, PartialEq, Eq, Error)]
pub enum EnvelopeError {
    #[error("a message has at least five bytes")]
    ShortEnvelope,
    #[error("a message begins with the byte 0")]
    BadMagic,
}

impl EnvelopeError {
    ghost use Rattle.std.specs.Prelude.{◌≡◌};
    ghost use Rattle.spec_registry.specs.Envelope.{name_of};

    /// Returns its name, as answers show it.
    pub fn name(self) -> &'static str
        ensures { result.now ≡ name_of self }
    {
        match self {
            EnvelopeError::ShortEnvelope => "ShortEnvelope",
            EnvelopeError::BadMagic => "BadMagic",
        }
    }
}
