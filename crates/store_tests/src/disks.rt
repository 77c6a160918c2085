//! Files in memory, and folders of the operating system that have one test's files.

use sqlite_disk::{Disk, Memory};
use std::alloc::{AllocError, Global};
use std::{fs, io};

/// Makes a file in memory of these bytes, as it is after a restart.
pub(crate) fn file_of(alloc: Global, bytes: &[u8]) -> io::Result<Memory> {
    let mut file = Memory::new(alloc);
    file.write_at(0, bytes)?;
    file.sync()?;
    Ok(file)
}

/// Makes a folder that has nothing in it. Returns whether it is made.
pub(crate) fn is_begun(rt: &HostRuntime, folder: &str) -> bool {
    let _ = fs::remove_dir_all(rt, folder);
    fs::create_dir(rt, folder).is_ok()
}

/// Removes a folder with its files. Returns whether it is removed.
pub(crate) fn is_removed(rt: &HostRuntime, folder: &str) -> bool {
    fs::remove_dir_all(rt, folder).is_ok()
}

/// Returns the bytes of a file as a text.
pub(crate) fn contents(rt: &HostRuntime, path: &str) -> Result<String, AllocError> {
    let alloc = rt.alloc();
    match fs::read(rt, path) {
        Ok(bytes) => String::from_str(alloc, std::str::from_utf8(&bytes).unwrap_or("no text")),
        Err(_) => String::from_str(alloc, "not read"),
    }
}

/// Returns words as a text, each as a line.
pub(crate) fn lines_of(alloc: Global, words: &[&str]) -> Result<String, AllocError> {
    let mut text = String::new(alloc);
    for word in words {
        write!(text, "{word}\n")?;
    }
    Ok(text)
}
