//! Why a datum was not resolved.

ghost use Rattle.std.specs.Prelude.{◌≡◌};

use avro_bytes::{Mismatch, MismatchKind};
use std::alloc::{AllocError, AllocFailed};
use thiserror::Error;

/// Why a datum was not resolved.
#[derive(Clone, Copy, Debug, PartialEq, Eq, Error)]
pub enum ResolveError {
    #[error("{} of the writer's node {} and the reader's {}", .0.kind.name(), .0.writer_node, .0.reader_node)]
    Mismatch(Mismatch),
    #[error("out of memory")]
    NoMemory,
}

impl From<AllocError> for ResolveError {
    ghost use Rattle.std.specs.Prelude.{◌≡◌};
    ghost use Rattle.resolver.specs.declared.mismatch.ResolveError.TheVariants.{NoMemory};

    ghost from_gives = { λ _ e. e ≡ NoMemory };

    fn from(_error: AllocError) -> ResolveError {
        ResolveError::NoMemory
    }
}

impl<T: Drop> From<AllocFailed<T>> for ResolveError {
    ghost use Rattle.std.specs.Prelude.{◌≡◌};
    ghost use Rattle.resolver.specs.declared.mismatch.ResolveError.TheVariants.{NoMemory};

    ghost from_gives = { λ _ e. e ≡ NoMemory };

    fn from(_error: AllocFailed<T>) -> ResolveError {
        ResolveError::NoMemory
    }
}

/// Returns the error for a mismatch of a kind between two nodes.
pub(crate) fn mismatched(kind: MismatchKind, writer_node: usize, reader_node: usize) -> ResolveError
    ensures { result
        ≡ ResolveError.Mismatch (record { kind = kind; writer_node = writer_node; reader_node = reader_node }) }
{
    ResolveError::Mismatch(Mismatch {
        kind,
        writer_node,
        reader_node,
    })
}
