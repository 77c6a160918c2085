//! Why there is no answer, and why there is no schema in one.

ghost use Rattle.std.specs.Prelude.{◌≡◌};
ghost use Rattle.upstream_answers.specs.declared.fault.AnswerFault.TheVariants as answers;
ghost use Rattle.upstream_answers.specs.declared.fault.ReceiveFault.TheVariants as receiving;

pub use spec_service::ContentFault;
use std::alloc::AllocError;
use thiserror::Error;

/// Why bytes are no answer.
#[derive(Clone, Copy, Debug, PartialEq, Eq, Error)]
pub enum AnswerFault {
    #[error("no answer of HTTP/1.1 within the limits")]
    NoAnswer,
    #[error("out of memory")]
    NoMemory,
}

impl From<AllocError> for AnswerFault {
    ghost from_gives = { λ _ e. e ≡ answers.NoMemory };

    fn from(_error: AllocError) -> AnswerFault {
        AnswerFault::NoMemory
    }
}

/// Why no answer was received.
#[derive(Clone, Copy, Debug, PartialEq, Eq, Error)]
pub enum ReceiveFault {
    #[error("the connection was closed before the first byte of an answer")]
    Closed,
    #[error("the connection failed, or its time ran out")]
    Failed,
    #[error("the connection was closed within an answer")]
    Cut,
    #[error("no answer of HTTP/1.1, whatever follows")]
    NoAnswer,
    #[error("an answer that is larger than the limits")]
    TooLarge,
    #[error("out of memory")]
    NoMemory,
}

impl From<AllocError> for ReceiveFault {
    ghost from_gives = { λ _ e. e ≡ receiving.NoMemory };

    fn from(_error: AllocError) -> ReceiveFault {
        ReceiveFault::NoMemory
    }
}
