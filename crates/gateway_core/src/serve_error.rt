//! Why a request got no whole answer.

ghost use Rattle.std.specs.Prelude.{◌≡◌};
ghost use Rattle.gateway_core.specs.Serving.{error_of, without_evidence};
ghost use Rattle.gateway_core.specs.declared.serve_error.TellError.TheVariants.{NoMemory};

use gateway_requests::ReadError;
use schema_registry::Receipt;
use spec_service::Evidence;
use std::alloc::AllocError;
use thiserror::Error;

/// Why a request got no whole answer.
#[derive(Clone, Copy, Debug, PartialEq, Eq, Error)]
pub enum ServeError {
    #[error("no byte came")]
    Closed,
    #[error("the reader failed")]
    ReadFault,
    /// The writer failed after it had taken `sent` bytes of the answer.
    #[error("the writer failed after {sent} bytes")]
    WriteFault { sent: usize },
    /// Even an answer that says so found no memory.
    #[error("out of memory")]
    NoMemory,
}

/// Why a request got no whole answer, with the receipts that the bytes written of one rest on.
#[derive(Drop)]
pub enum TellError {
    /// No byte came.
    Closed,
    /// The reader failed.
    ReadFault,
    /// The writer failed after it had taken `sent` bytes of an answer, which rests on this evidence.
    CutShort {
        sent: usize,
        evidence: Evidence<Receipt>,
    },
    /// Even an answer that says so found no memory.
    NoMemory,
}

impl From<ReadError> for TellError {
    ghost from_gives = { λ error e. e ≡ error_of error };

    fn from(error: ReadError) -> TellError {
        match error {
            ReadError::Closed => TellError::Closed,
            ReadError::Failed => TellError::ReadFault,
            ReadError::NoMemory => TellError::NoMemory,
        }
    }
}

impl From<AllocError> for TellError {
    ghost from_gives = { λ _ e. e ≡ NoMemory };

    fn from(_error: AllocError) -> TellError {
        TellError::NoMemory
    }
}

impl From<TellError> for ServeError {
    ghost from_gives = { λ error e. e ≡ without_evidence error };

    fn from(error: TellError) -> ServeError {
        match error {
            TellError::Closed => ServeError::Closed,
            TellError::ReadFault => ServeError::ReadFault,
            TellError::CutShort { sent, .. } => ServeError::WriteFault { sent },
            TellError::NoMemory => ServeError::NoMemory,
        }
    }
}
