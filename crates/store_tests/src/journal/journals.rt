//! Journals over any disk, for tests.

use journal_file::{Unknown, make, open};
use line_journal::{AppendError, Journal};
use sqlite_disk::Disk;
use std::alloc::{AllocError, Global};
use std::io;

/// Returns lines as a text, each with `|` after it.
pub(crate) fn text_of(alloc: Global, lines: &[Vec<u8>]) -> Result<String, AllocError> {
    let mut text = String::new(alloc);
    for line in lines {
        let line = std::str::from_utf8(line).unwrap_or("no text");
        write!(text, "{line}|")?;
    }
    Ok(text)
}

/// Opens the journal on a disk. None where it is not opened.
pub(crate) fn opened<D: Disk + Drop>(alloc: Global, disk: D) -> Option<(Journal<D>, Vec<Vec<u8>>)> {
    if !disk.may_be_used() {
        return None;
    }
    Journal::open(alloc, disk).ok()
}

/// Adds a line. Returns the answer, with whether the journal takes lines then.
pub(crate) fn answer_to<D: Disk>(
    alloc: Global,
    journal: &mut Journal<D>,
    bytes: &[u8],
) -> &'static str {
    let Ok(line) = bytes.to_vec(alloc) else {
        return "no memory";
    };
    let answer = journal.append(line);
    match (answer, journal.takes_lines()) {
        (Ok(()), true) => "added",
        (Err(AppendError::TooLong), true) => "too long, open",
        (Err(AppendError::HasNewline), true) => "two lines, open",
        (Err(AppendError::Closed), false) => "closed",
        (Err(AppendError::Failed(error)), false) => {
            if error.kind() == io::ErrorKind::Unsupported {
                "not supported, closed"
            } else {
                "failed, closed"
            }
        }
        _ => "another answer",
    }
}

/// Makes the journal of the line `old` on a disk. Returns whether it is made.
fn is_made_on<D: Disk + Drop>(alloc: Global, disk: D) -> bool {
    if !disk.may_be_used() {
        return false;
    }
    match Journal::create(disk) {
        Ok(mut journal) => answer_to(alloc, &mut journal, b"old") == "added",
        Err(_) => false,
    }
}

/// Makes the journal of the line `old` at a path. Returns whether it is made.
pub(crate) fn is_made(rt: &HostRuntime, path: &str) -> bool {
    match make(rt, path, Unknown) {
        Ok(file) => is_made_on(rt.alloc(), file),
        Err(_) => false,
    }
}

/// Returns the lines of the journal on a disk as a text.
fn lines_on<D: Disk + Drop>(alloc: Global, disk: D) -> Result<String, AllocError> {
    match opened(alloc, disk) {
        Some((_journal, lines)) => text_of(alloc, &lines),
        None => String::from_str(alloc, "not opened"),
    }
}

/// Returns the lines of the journal at a path as a text.
pub(crate) fn lines_at(rt: &HostRuntime, path: &str) -> Result<String, AllocError> {
    match open(rt, path, Unknown) {
        Ok(file) => lines_on(rt.alloc(), file),
        Err(_) => String::from_str(rt.alloc(), "no file"),
    }
}
