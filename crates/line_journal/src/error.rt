//! Why a line is refused, and why a file is not read or not opened.

use std::alloc::{AllocError, AllocFailed};
use std::io;

/// Why a line was not added.
#[derive(Clone, Copy, Debug)]
pub enum AppendError {
    NoMemory,
    /// The journal takes no line: an earlier one is in doubt, a sync has failed, or the file is too long.
    Closed,
    /// The line has more than `LONGEST` bytes.
    TooLong,
    /// The line has a newline within it.
    HasNewline,
    /// A call of the disk failed, or the disk may leave a byte that is neither the old one nor the new one.
    Failed(io::Error),
}

impl From<AllocError> for AppendError {
    ghost use Rattle.std.specs.Prelude.{◌≡◌};
    ghost use Rattle.line_journal.specs.declared.error.AppendError.TheVariants.{NoMemory};

    ghost from_gives = { λ _ e. e ≡ NoMemory };

    fn from(_error: AllocError) -> AppendError {
        AppendError::NoMemory
    }
}

/// Where a file is damaged, or ends too soon.
#[derive(Clone, Copy, Debug, PartialEq, Eq)]
pub struct Damage {
    /// The offset of the byte.
    pub at: usize,
    /// The line that it belongs to, from 1.
    pub line: usize,
}

/// Why bytes were not read as lines.
#[derive(Clone, Copy, Debug)]
pub enum ReadError {
    NoMemory,
    Damaged(Damage),
}

impl From<AllocError> for ReadError {
    ghost use Rattle.std.specs.Prelude.{◌≡◌};
    ghost use Rattle.line_journal.specs.declared.error.ReadError.TheVariants.{NoMemory};

    ghost from_gives = { λ _ e. e ≡ NoMemory };

    fn from(_error: AllocError) -> ReadError {
        ReadError::NoMemory
    }
}

impl<T: Drop> From<AllocFailed<T>> for ReadError {
    ghost use Rattle.std.specs.Prelude.{◌≡◌};
    ghost use Rattle.line_journal.specs.declared.error.ReadError.TheVariants.{NoMemory};

    ghost from_gives = { λ _ e. e ≡ NoMemory };

    fn from(_error: AllocFailed<T>) -> ReadError {
        ReadError::NoMemory
    }
}

/// Why a file was not opened.
#[derive(Clone, Copy, Debug)]
pub enum OpenError {
    NoMemory,
    /// The file is no file of lines, or it is damaged.
    Damaged(Damage),
    /// A call of the disk failed.
    Failed(io::Error),
}

impl From<AllocError> for OpenError {
    ghost use Rattle.std.specs.Prelude.{◌≡◌};
    ghost use Rattle.line_journal.specs.declared.error.OpenError.TheVariants.{NoMemory};

    ghost from_gives = { λ _ e. e ≡ NoMemory };

    fn from(_error: AllocError) -> OpenError {
        OpenError::NoMemory
    }
}

impl From<io::Error> for OpenError {
    ghost use Rattle.std.specs.Prelude.{◌≡◌};
    ghost use Rattle.line_journal.specs.declared.error.OpenError.TheVariants.{Failed};

    ghost from_gives = { λ error e. e ≡ Failed error };

    fn from(error: io::Error) -> OpenError {
        OpenError::Failed(error)
    }
}
