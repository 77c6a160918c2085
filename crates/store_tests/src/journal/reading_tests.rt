//! Bytes that are read as lines.

use crate::journal::journals::text_of;
use crate::same::same;
use line_journal::{Damage, LONGEST, ReadError, read_lines};
use std::alloc::{AllocError, Global};

const THREE_LINES: &[u8] = b"++first\n++\n++third line\n--";

/// Returns the lines of some bytes as a text; None where they are damaged.
fn found_in(alloc: Global, bytes: &[u8]) -> Option<String> {
    match read_lines(alloc, bytes) {
        Ok(found) => text_of(alloc, &found.lines).ok(),
        Err(_) => None,
    }
}

/// Returns whether some bytes have these lines, of which the text has each with `|` after it.
fn has_lines(alloc: Global, bytes: &[u8], lines: &str) -> bool {
    match found_in(alloc, bytes) {
        Some(text) => text.as_str() == lines,
        None => false,
    }
}

/// Returns where some bytes are damaged; None where they are lines.
fn damage_in(alloc: Global, bytes: &[u8]) -> Option<Damage> {
    match read_lines(alloc, bytes) {
        Err(ReadError::Damaged(damage)) => Some(damage),
        _ => None,
    }
}

/// Returns where the first `len` bytes of `THREE_LINES` are damaged.
fn damage_of_prefix(alloc: Global, len: usize) -> Option<Damage> {
    match THREE_LINES.get(..len) {
        Some(prefix) => damage_in(alloc, prefix),
        None => None,
    }
}

/// Returns whether each prefix of `THREE_LINES` that ends in a line, from its gate to before `end`, is damaged: in the
/// gate where it ends in that, and else at the end of the prefix.
fn prefixes_are_damaged(alloc: Global, gate: usize, end: usize, line: usize) -> bool {
    let mut right = true;
    for len in gate..end {
        let at = if len.saturating_sub(gate) < 2 {
            gate
        } else {
            len
        };
        right &= damage_of_prefix(alloc, len) == Some(Damage { at, line });
    }
    right
}

/// Returns whether each prefix of `THREE_LINES` is damaged, and the whole is not.
fn only_the_whole_is_read(alloc: Global) -> bool {
    let mut right = prefixes_are_damaged(alloc, 0, 8, 1);
    right &= prefixes_are_damaged(alloc, 8, 11, 2);
    right &= prefixes_are_damaged(alloc, 11, 24, 3);
    right &= prefixes_are_damaged(alloc, 24, 26, 4);
    right & has_lines(alloc, THREE_LINES, "first||third line|")
}

#[test]
fn each_prefix_is_refused(rt: HostRuntime) {
    assert!(rt; only_the_whole_is_read(rt.alloc()));
}

/// Returns whether two lines, of which the last has a gate of these two bytes, are read as they have to be.
fn last_gate_is_read(alloc: Global, first: u8, second: u8) -> bool {
    let bytes = [
        b'+', b'+', b'a', b'\n', first, second, b'b', b'\n', b'-', b'-',
    ];
    match (first, second) {
        (b'+' | b'-', b'+') | (b'+', b'-') => has_lines(alloc, &bytes, "a|b|"),
        (b'-', b'-') => has_lines(alloc, &bytes, "a|"),
        _ => damage_in(alloc, &bytes) == Some(Damage { at: 4, line: 2 }),
    }
}

/// Returns whether a last gate that begins with this byte is read as it has to be, with each second byte.
fn last_gates_are_read(alloc: Global, first: u8) -> bool {
    let mut right = true;
    for second in 0..=255u8 {
        right &= last_gate_is_read(alloc, first, second);
    }
    right
}

/// Returns the first byte of a last gate that is not read as it has to be; None where there is none.
fn misread_gate(alloc: Global) -> Option<u8> {
    for first in 0..=255u8 {
        if !last_gates_are_read(alloc, first) {
            return Some(first);
        }
    }
    None
}

#[test]
fn the_last_gate_of_any_two_bytes(rt: HostRuntime) {
    same(&rt, misread_gate(rt.alloc()), None);
}

/// Returns where `THREE_LINES` is damaged once its byte at offset `at` is another one.
fn damage_with(alloc: Global, at: usize, byte: u8) -> Option<Damage> {
    let Ok(mut bytes) = THREE_LINES.to_vec(alloc) else {
        return None;
    };
    if at < bytes.len() {
        bytes[at] = byte;
    }
    damage_in(alloc, &bytes)
}

/// Returns whether each other byte at offset `at` is found as this damage, and its own byte as none.
fn other_bytes_are_found(alloc: Global, at: usize, damage: Damage) -> bool {
    let own = THREE_LINES.get(at).copied();
    let mut right = own.is_some();
    for byte in 0..=255u8 {
        let wanted = if own == Some(byte) {
            None
        } else {
            Some(damage)
        };
        right &= damage_with(alloc, at, byte) == wanted;
    }
    right
}

/// Returns whether each other byte of a gate is found as damage at the gate.
fn other_gates_are_found(alloc: Global, gate: usize, line: usize) -> bool {
    let damage = Damage { at: gate, line };
    other_bytes_are_found(alloc, gate, damage)
        & other_bytes_are_found(alloc, gate.saturating_add(1), damage)
}

#[test]
fn one_changed_byte_of_each_other_gate(rt: HostRuntime) {
    let alloc = rt.alloc();
    assert!(rt; other_gates_are_found(alloc, 0, 1) & other_gates_are_found(alloc, 8, 2));
    assert!(rt; other_gates_are_found(alloc, 24, 4));
}

/// Files whose first gate is half open and does not count.
const FIRST_GATES: [&str; 2] = ["+-a\n++b\n--", "-+a\n--torn"];

/// Files whose second gate is half open and does not count.
const SECOND_GATES: [&str; 5] = [
    "++a\n+-b\n-",
    "++a\n+-b\n--x",
    "++a\n-+b",
    "++a\n-+",
    "++a\n+-b\n++c\n--",
];

/// Returns whether each of some files has this damage.
fn all_have(alloc: Global, files: &[&str], damage: Damage) -> bool {
    let mut right = true;
    for file in files {
        right &= damage_in(alloc, file.as_bytes()) == Some(damage);
    }
    right
}

#[test]
fn half_open_gates_that_do_not_count(rt: HostRuntime) {
    assert!(rt; all_have(rt.alloc(), &FIRST_GATES, Damage { at: 0, line: 1 }));
    assert!(rt; all_have(rt.alloc(), &SECOND_GATES, Damage { at: 4, line: 2 }));
}

/// Returns a file of the line `a` and its closed gate, filled up with zeros to a length.
fn filled(alloc: Global, len: usize) -> Result<Vec<u8>, AllocError> {
    let mut bytes = b"++a\n--".to_vec(alloc)?;
    bytes.resize(len, 0)?;
    Ok(bytes)
}

/// Returns whether the longest rest that one line leaves is passed over, and a longer one is damage.
fn rests_are_measured(alloc: Global) -> Result<bool, AllocError> {
    let longest = filled(alloc, LONGEST + 9)?;
    let longer = filled(alloc, LONGEST + 10)?;
    let damage = Some(Damage { at: 4, line: 2 });
    Ok(has_lines(alloc, &longest, "a|") & (damage_in(alloc, &longer) == damage))
}

#[test]
fn a_rest_that_is_longer_than_one_line_leaves(rt: HostRuntime) -> Result<(), AllocError> {
    assert!(rt; rests_are_measured(rt.alloc())?);
    Ok(())
}
