//! Why a file is not opened or not made.

use std::io;

/// Why a file was not opened or not made.
#[derive(Clone, Copy, Debug)]
pub enum FileError {
    /// There is no file at the path.
    Missing,
    /// There is something at the path where a file was to be made.
    Exists,
    /// What is at the path is a link, a folder or a device, or another file came to its place meanwhile.
    NotAFile,
    /// The file has a second name, under which another program might write it.
    TwoNames,
    /// The file has no byte.
    Empty,
    /// Another process has the file open, or this process has it open already.
    Busy,
    Io(io::Error),
}

impl From<io::Error> for FileError {
    fn from(error: io::Error) -> FileError {
        FileError::Io(error)
    }
}
