//! Why a store is not opened or not made.

use journal_file::FileError;
use registry_store::{OpenFault, UpstreamStoreFault};
use schema_registry::{Refusal, ReplayFault, StartFault};
use std::alloc::AllocError;
use std::io;
use std::io::ErrorKind;
use thiserror::Error;

/// Why the file of a store is not opened or not made.
#[derive(Clone, Copy, Debug, Error)]
pub enum FileTrouble {
    #[error("there is no such file")]
    Missing,
    #[error("it is there already")]
    Exists,
    #[error("it is a link, a folder or a device")]
    NotAFile,
    #[error("it has a second name")]
    TwoNames,
    #[error("it is empty")]
    Empty,
    #[error("another process has it open")]
    Busy,
    #[error("{0}")]
    Failed(io::Error),
}

/// Why a store is not opened or not made. It names the path of its file.
#[derive(Clone, Copy, Debug, Error)]
pub enum StoreRefusal<'p> {
    #[error("out of memory")]
    NoMemory,
    /// The file is not opened, or there is none and none is made.
    #[error("cannot open the store {path}: {trouble}")]
    Open {
        path: &'p str,
        trouble: FileTrouble,
    },
    /// No new file is made.
    #[error("cannot make the store {path}: {trouble}")]
    Make {
        path: &'p str,
        trouble: FileTrouble,
    },
    /// What the file holds is no registry, or was not read.
    #[error("the store {path}: {fault}")]
    Contents {
        path: &'p str,
        fault: StartFault,
    },
    /// What the file holds are no schemas of the upstream registry, or was not read.
    #[error("the store {path}: {fault}")]
    Schemas {
        path: &'p str,
        fault: UpstreamStoreFault,
    },
}

impl<'p> From<AllocError> for StoreRefusal<'p> {
    fn from(_error: AllocError) -> StoreRefusal<'p> {
        StoreRefusal::NoMemory
    }
}

/// Returns why a file that the system refused is not opened or not made.
fn trouble_of(error: FileError) -> FileTrouble {
    match error {
        FileError::Missing => FileTrouble::Missing,
        FileError::Exists => FileTrouble::Exists,
        FileError::NotAFile => FileTrouble::NotAFile,
        FileError::TwoNames => FileTrouble::TwoNames,
        FileError::Empty => FileTrouble::Empty,
        FileError::Busy => FileTrouble::Busy,
        FileError::Io(error) => FileTrouble::Failed(error),
    }
}

/// Returns the refusal of a store whose file is not opened.
pub(crate) fn open_refusal(path: &str, error: FileError) -> StoreRefusal<'_> {
    match trouble_of(error) {
        FileTrouble::Failed(error) if error.kind() == ErrorKind::OutOfMemory => {
            StoreRefusal::NoMemory
        }
        trouble => StoreRefusal::Open { path, trouble },
    }
}

/// Returns the refusal of a store whose file is not made.
pub(crate) fn make_refusal(path: &str, error: FileError) -> StoreRefusal<'_> {
    match trouble_of(error) {
        FileTrouble::Failed(error) if error.kind() == ErrorKind::OutOfMemory => {
            StoreRefusal::NoMemory
        }
        trouble => StoreRefusal::Make { path, trouble },
    }
}

/// Returns the refusal of a store whose file was opened, and which is not one of the schemas of an upstream registry.
pub(crate) fn schemas_refusal(path: &str, fault: UpstreamStoreFault) -> StoreRefusal<'_> {
    match fault {
        UpstreamStoreFault::NoMemory | UpstreamStoreFault::File(OpenFault::NoMemory) => {
            StoreRefusal::NoMemory
        }
        fault => StoreRefusal::Schemas { path, fault },
    }
}

/// Returns the refusal of a store whose file was opened, and from which no registry starts.
pub(crate) fn start_refusal(path: &str, fault: StartFault) -> StoreRefusal<'_> {
    match fault {
        StartFault::File(OpenFault::NoMemory) => StoreRefusal::NoMemory,
        StartFault::Line(line) if line.fault == ReplayFault::Refused(Refusal::NoMemory) => {
            StoreRefusal::NoMemory
        }
        fault => StoreRefusal::Contents { path, fault },
    }
}
