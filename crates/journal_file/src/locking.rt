//! A file for this process alone.

use crate::error::FileError;
use os::RangeLock;
use std::os::fd::AsRawFd;
use std::os::unix::fs::MetadataExt;
use std::{fs, io};

/// The offset of the byte that is locked. No file is so long, so the byte is no part of it.
const LOCKED_BYTE: u64 = 1 << 62;

/// Returns an open file once it is known to be the one at the path, to have no second name, and to be locked for this
/// process. The lock ends as the file is closed.
pub(crate) fn lock(
    rt: &HostRuntime,
    path: &str,
    mut file: fs::File,
) -> Result<fs::File, FileError> {
    // What another part writes to a standard stream that was closed must not come into the file.
    if file.as_raw_fd() <= 2 {
        file = file.try_clone()?;
    }
    let (found, named) = (file.metadata()?, fs::symlink_metadata(rt, path)?);
    if found.dev() != named.dev() || found.ino() != named.ino() || !found.is_file() {
        return Err(FileError::NotAFile);
    }
    if found.nlink() != 1 {
        return Err(FileError::TwoNames);
    }
    if os::try_lock_range(file.as_raw_fd(), RangeLock::Exclusive, LOCKED_BYTE, 1) == 0 {
        return Ok(file);
    }
    let error = io::Error::from_raw_os_error(os::errno());
    if error.kind() == io::ErrorKind::WouldBlock {
        return Err(FileError::Busy);
    }
    Err(FileError::Io(error))
}
