//! Journals over files in memory. `Memory` may leave any byte of a torn write, so that a journal over it takes no line:
//! `stopping_tests` has those over a real file.

use crate::disks::{file_of, lines_of};
use crate::journal::journals::{answer_to, opened};
use crate::same::same;
use line_journal::{Journal, LONGEST, OpenError};
use sqlite_disk::{Crash, Disk, Fuse, Memory};
use std::alloc::{AllocError, Global};
use std::io;

/// Returns whether a file has these bytes, and has them after a crash too.
fn stays(file: Memory, bytes: &[u8]) -> bool {
    let mut file = file;
    let has_bytes = file.bytes() == bytes;
    file.crash();
    has_bytes & (file.bytes() == bytes)
}

/// Returns whether a journal is opened whose closed gate has as much after it as one line leaves, and whether that is
/// cut off.
fn longest_rest_is_cut_off(alloc: Global) -> io::Result<bool> {
    let mut bytes = b"++a\n--".to_vec(alloc)?;
    bytes.resize(LONGEST + 9, 0)?;
    let file = file_of(alloc, &bytes)?;
    match opened(alloc, file) {
        Some((journal, lines)) => Ok((lines.len() == 1) & stays(journal.into_disk(), b"++a\n--")),
        None => Ok(false),
    }
}

#[test]
fn what_one_line_leaves_is_cut_off(rt: HostRuntime) -> io::Result<()> {
    assert!(rt; longest_rest_is_cut_off(rt.alloc())?);
    Ok(())
}

/// Returns a line that is one byte too long.
fn too_long(alloc: Global) -> Result<Vec<u8>, AllocError> {
    let mut line = Vec::new(alloc);
    line.resize(LONGEST + 1, b'a')?;
    Ok(line)
}

/// Returns the answers to lines that a journal over a file in memory is to take, whether it takes more once the last
/// is taken back, and what its file has then.
fn answers_in_memory(alloc: Global) -> Result<String, AllocError> {
    let long = too_long(alloc)?;
    let Ok(mut journal) = Journal::create(Memory::new(alloc)) else {
        return String::from_str(alloc, "not made");
    };
    let long = answer_to(alloc, &mut journal, &long);
    let two = answer_to(alloc, &mut journal, b"a\nb");
    let first = answer_to(alloc, &mut journal, b"a");
    let second = answer_to(alloc, &mut journal, b"a");
    journal.take_back();
    let last = if journal.takes_lines() {
        "open"
    } else {
        "closed"
    };
    let file = journal.into_disk();
    let bytes = std::str::from_utf8(file.bytes()).unwrap_or("no text");
    lines_of(alloc, &[long, two, first, second, last, bytes])
}

/// What `answers_in_memory` returns.
const ANSWERS: &str = "\
too long, open
two lines, open
not supported, closed
closed
closed
--a
--
";

#[test]
fn lines_that_are_refused(rt: HostRuntime) -> Result<(), AllocError> {
    let answers = answers_in_memory(rt.alloc())?;
    same(&rt, answers.as_str(), ANSWERS);
    Ok(())
}

/// Returns the disk of a journal that is not opened since the disk does not support its repair. None else.
fn unsupported<D: Disk + Drop>(alloc: Global, disk: D) -> Option<D> {
    if !disk.may_be_used() {
        return None;
    }
    match Journal::open(alloc, disk) {
        Err((OpenError::Failed(error), disk)) => {
            if error.kind() == io::ErrorKind::Unsupported {
                Some(disk)
            } else {
                None
            }
        }
        _ => None,
    }
}

/// Returns whether a half open gate in memory is left as it is.
fn half_open_gate_stays(alloc: Global) -> io::Result<bool> {
    let file = file_of(alloc, b"+-a\n--")?;
    match unsupported(alloc, file) {
        Some(file) => Ok(file.bytes() == b"+-a\n--".as_slice()),
        None => Ok(false),
    }
}

#[test]
fn a_half_open_gate_that_cannot_be_repaired(rt: HostRuntime) -> io::Result<()> {
    assert!(rt; half_open_gate_stays(rt.alloc())?);
    Ok(())
}

/// Returns whether a disk has one line after a crash.
fn has_one_line<D: Crash + Drop>(alloc: Global, disk: D) -> bool {
    let mut disk = disk;
    disk.crash();
    match opened(alloc, disk) {
        Some((_journal, lines)) => lines.len() == 1,
        None => false,
    }
}

/// Returns whether opening a journal ends so on this disk, and its line is found after a crash.
fn opens_as<D: Crash + Drop>(alloc: Global, disk: D, is_opened: bool) -> bool {
    if !disk.may_be_used() {
        return false;
    }
    match Journal::open(alloc, disk) {
        Ok((journal, _lines)) => is_opened && has_one_line(alloc, journal.into_disk()),
        Err((OpenError::Failed(_), disk)) => !is_opened && has_one_line(alloc, disk),
        Err(_) => false,
    }
}

/// Returns whether an open that stops after this many calls ends by the fault of its disk, and one that does not stop
/// with its four calls ends well.
fn open_stops(alloc: Global, calls: u64) -> io::Result<bool> {
    let file = file_of(alloc, b"++a\n--torn")?;
    Ok(opens_as(alloc, Fuse::new(file, calls), calls == 4))
}

/// Returns whether an open stops at each call.
fn opens_stop(alloc: Global) -> io::Result<bool> {
    let mut right = true;
    for calls in 0..5 {
        right &= open_stops(alloc, calls)?;
    }
    Ok(right)
}

#[test]
fn an_open_that_stops_at_each_call(rt: HostRuntime) -> io::Result<()> {
    assert!(rt; opens_stop(rt.alloc())?);
    Ok(())
}
