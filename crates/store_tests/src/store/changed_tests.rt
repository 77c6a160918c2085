//! Each byte of a small store changed to each other value, over a file in memory.

use crate::disks::file_of;
use crate::same::same;
use registry_store::{CommandStore, OpenFault};
use sqlite_disk::Disk;
use std::alloc::Global;

/// Three commands, with checks that `sha256sum` gave.
const STORE: &[u8] = b"\
++register 1 orders \"int\" 22b20c4a80590a42
++level * FULL 4026cada239cc4ff
++register 2 a%20%2A \"long\" cf5d6a24a3c1f0da
--";

/// The byte of the gate of the last line.
const LAST_GATE: usize = 75;

/// What comes of bytes that are opened as a store.
#[derive(Clone, Copy)]
enum Opening {
    /// The store is opened.
    Whole,
    /// The fault names this line, from 1.
    BadLine(usize),
    /// A call of the disk failed.
    Failed,
    /// Memory ran out, or the disk may not be used.
    Neither,
}

/// Opens the store on a disk. Returns what comes of it.
fn opened_on<D: Disk + Drop>(alloc: Global, disk: D) -> Opening {
    if !disk.may_be_used() {
        return Opening::Neither;
    }
    match CommandStore::open(alloc, disk) {
        Ok(_) => Opening::Whole,
        Err((OpenFault::Damaged(damage), _disk)) => Opening::BadLine(damage.line),
        Err((OpenFault::BadLine { number, .. }, _disk)) => Opening::BadLine(number),
        Err((OpenFault::Failed(_), _disk)) => Opening::Failed,
        Err((OpenFault::NoMemory, _disk)) => Opening::Neither,
    }
}

/// Opens a file in memory of these bytes as a store. Returns what comes of it.
fn opened(alloc: Global, bytes: &[u8]) -> Opening {
    match file_of(alloc, bytes) {
        Ok(file) => opened_on(alloc, file),
        Err(_) => Opening::Neither,
    }
}

/// Opens `STORE` with another byte at offset `at`. Returns what comes of it.
fn opened_with(alloc: Global, at: usize, byte: u8) -> Opening {
    let Ok(mut bytes) = STORE.to_vec(alloc) else {
        return Opening::Neither;
    };
    if at < bytes.len() {
        bytes[at] = byte;
    }
    opened(alloc, &bytes)
}

/// Returns the line of a byte, from 1.
fn line_at(at: usize) -> usize {
    let mut line = 1_usize;
    for (place, byte) in STORE.iter().enumerate() {
        if place < at && *byte == b'\n' {
            line = line.saturating_add(1);
        }
    }
    line
}

/// Returns whether a store of another byte at this offset, which is in this line, comes out as it has to.
fn is_refused(opening: Opening, at: usize, byte: u8, line: usize) -> bool {
    let half_opens = at.wrapping_sub(LAST_GATE) < 2 && byte == b'-';
    match opening {
        // After a new newline the next gate is damaged, which belongs to the line after it.
        Opening::BadLine(found) => {
            !half_opens && (found == line || byte == b'\n' && found == line.saturating_add(1))
        }
        // The gate is half open and would be opened, which a disk that does not mix cannot do.
        Opening::Failed => half_opens,
        Opening::Whole | Opening::Neither => false,
    }
}

/// Returns the first other byte at offset `at` that is not refused in its line; None where each is.
fn unrefused_byte(alloc: Global, at: usize) -> Option<u8> {
    let line = line_at(at);
    let own = STORE.get(at).copied();
    for byte in 0..=255u8 {
        if own != Some(byte) && !is_refused(opened_with(alloc, at, byte), at, byte, line) {
            return Some(byte);
        }
    }
    None
}

/// Returns the first offset of a byte that may be another one, and is not refused then; None where each is.
fn unrefused_offset(alloc: Global) -> Option<usize> {
    for at in 0..STORE.len() {
        if unrefused_byte(alloc, at).is_some() {
            return Some(at);
        }
    }
    None
}

/// Returns whether `STORE` is opened, and has an open gate where its last one is to be.
fn is_whole(alloc: Global) -> bool {
    matches!(opened(alloc, STORE), Opening::Whole) && STORE.get(LAST_GATE).copied() == Some(b'+')
}

#[test]
fn each_changed_byte_is_refused_in_its_line(rt: HostRuntime) {
    assert!(rt; is_whole(rt.alloc()));
    same(&rt, unrefused_offset(rt.alloc()), None);
}
