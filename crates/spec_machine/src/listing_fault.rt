//! What keeps a text from being a listing, and in which line.

ghost use Rattle.std.specs.Prelude.{◌≡◌};
ghost use Rattle.spec_machine.specs.declared.listing_fault.AsmError.TheVariants.{NoMemory};

use std::alloc::{AllocError, AllocFailed};
use thiserror::Error;

/// What keeps a text from being a listing. Where a line has several of the first four faults, the one listed first
/// here is reported.
#[derive(Clone, Copy, Debug, PartialEq, Eq, Error)]
pub enum AsmErrorKind {
    #[error("BadHeader")]
    BadHeader,
    /// There is no such line at this place, or it is not ended.
    #[error("BadLine")]
    BadLine,
    #[error("BadIndex")]
    BadIndex,
    #[error("TooLarge")]
    TooLarge,
    /// In the line after the last one. All lines are well formed.
    #[error("NoCode")]
    NoCode,
    /// A number refers to what there is not. All lines are well formed.
    #[error("OutOfRange")]
    OutOfRange,
}

/// What is wrong, and in which line, counted from 1.
#[derive(Clone, Copy, Debug, PartialEq, Eq, Error)]
#[error("{line} {kind}")]
pub struct AsmFault {
    pub line: usize,
    pub kind: AsmErrorKind,
}

/// Why a text was not assembled.
#[derive(Clone, Copy, Debug, PartialEq, Eq, Error)]
pub enum AsmError {
    #[error("out of memory")]
    NoMemory,
    #[error("{0}")]
    Fault(AsmFault),
}

impl From<AllocError> for AsmError {
    ghost from_gives = { λ _ e. e ≡ NoMemory };

    fn from(_error: AllocError) -> AsmError {
        AsmError::NoMemory
    }
}

impl<T: Drop> From<AllocFailed<T>> for AsmError {
    ghost from_gives = { λ _ e. e ≡ NoMemory };

    fn from(_error: AllocFailed<T>) -> AsmError {
        AsmError::NoMemory
    }
}
