//! Why a command was not kept, and why a file was not opened.

use crate::fault::LineFault;
use line_journal::Damage;
use std::alloc::{AllocError, AllocFailed};
use std::io;
use thiserror::Error;

/// Why a command was not kept.
#[derive(Clone, Copy, Debug, Error)]
pub enum StoreFault {
    #[error("out of memory")]
    NoMemory,
    /// The store takes no command: an earlier one is in doubt, a sync has failed, or the file is too long.
    #[error("the file takes no more commands until it is opened again")]
    Closed,
    /// The line of the command is longer than a line of the file may be.
    #[error("the command is too long for a line of the file")]
    TooLong,
    /// A call of the disk failed, or the disk may leave a byte that is neither the old one nor the new one.
    #[error("the file was not written: {0}")]
    Failed(io::Error),
}

impl From<AllocError> for StoreFault {
    ghost use Rattle.std.specs.Prelude.{◌≡◌};
    ghost use Rattle.registry_store.specs.declared.store_fault.StoreFault.TheVariants.{NoMemory};

    ghost from_gives = { λ _ fault. fault ≡ NoMemory };

    fn from(_error: AllocError) -> StoreFault {
        StoreFault::NoMemory
    }
}

/// Why a file was not opened as a store.
#[derive(Clone, Copy, Debug, Error)]
pub enum OpenFault {
    #[error("out of memory")]
    NoMemory,
    /// The bytes are not those of a file of lines.
    #[error("the file is damaged at byte {}, in line {}", .0.at, .0.line)]
    Damaged(Damage),
    /// The line with this number, from 1, is not that of a command.
    #[error("line {number}: {fault}")]
    BadLine { number: usize, fault: LineFault },
    /// A call of the disk failed.
    #[error("the file was not read: {0}")]
    Failed(io::Error),
}

impl<T: Drop> From<AllocFailed<T>> for OpenFault {
    ghost use Rattle.std.specs.Prelude.{◌≡◌};
    ghost use Rattle.registry_store.specs.declared.store_fault.OpenFault.TheVariants.{NoMemory};

    ghost from_gives = { λ _ fault. fault ≡ NoMemory };

    fn from(_error: AllocFailed<T>) -> OpenFault {
        OpenFault::NoMemory
    }
}
