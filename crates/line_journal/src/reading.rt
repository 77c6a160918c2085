//! Reading bytes as lines.

ghost use Rattle.std.specs.Prelude.{◌≡◌, ◌+◌, ◌<◌, ◌≤◌, ◌^◌, ◌++◌, ◌==◌, [], ◌∷◌, List, ℕ, drop, false, length, position, None, Ok, Err, IsTrue, IfOk, IfErr, IfSome, OnOk};
ghost use Rattle.std.specs.List.{flat_map, AllByRecursion};
ghost use Rattle.sqlite_disk.specs.Disk.{MoreFaults};
ghost use Rattle.std.specs.declared.io.Error.{Error};
ghost use Rattle.line_journal.specs.Lines.{IsLine, IsLeft, block, closed_gate, is_last_line, lines_in, lines_of};
ghost use Rattle.line_journal.specs.Reading.{IsLineTo, IsNext};
ghost use Rattle.line_journal.specs.declared.error.Damage.{Damage as DamageIn};

use crate::error::{Damage, OpenError, ReadError};
use crate::layout::{CLOSED, GATE, LONGEST, NEWLINE, OPEN};
use sqlite_disk::Disk;
use std::alloc::Global;

/// The lines of a file, and the offset of the closed gate after them.
#[derive(Drop)]
pub struct Found {
    pub lines: Vec<Vec<u8>>,
    pub gate: usize,
    /// The offset of the gate before the last line, where that gate is half open: a crash left it so, and the line
    /// counts.
    pub half_open: Option<usize>,
}

/// What comes at a gate.
#[derive(Clone, Copy)]
pub(crate) enum Next {
    /// An open gate and a line, up to its newline at this offset.
    Line(usize),
    /// A half open gate and the last line, up to its newline at this offset.
    LastLine(usize),
    /// The closed gate after the last line.
    End,
    /// Damage at this offset.
    Damaged(usize),
}

/// Reads the bytes of a file as its lines, in order. `Damaged` has the offset of the first gate that is none, or the
/// length of the bytes where they end within a line.
pub fn read_lines(alloc: Global, bytes: &[u8]) -> Result<Found, ReadError>
    ensures lines { IfOk result (λ found. lines_in bytes.now ≡ Ok (lines_of found.lines.items)) }
    ensures are_lines { IfOk result (λ found. AllByRecursion IsLine (lines_of found.lines.items)) }
    ensures gate { IfOk result (λ found. found.gate ≡ length (flat_map block (lines_of found.lines.items))) }
    ensures left { IfOk result (λ found. IsLeft (lines_of found.lines.items) found.half_open bytes.now) }
    ensures damaged { (damage : DamageIn) → result ≡ Err (ReadError.Damaged damage) → lines_in bytes.now ≡ Err damage }
{
    let mut lines = Vec::new(alloc);
    let mut at = 0;
    loop {
        match next_at(bytes, at) {
            Next::Line(end) => {
                push_line(&mut lines, &bytes[at + GATE..end])?;
                at = end + 1;
            }
            Next::LastLine(end) => {
                push_line(&mut lines, &bytes[at + GATE..end])?;
                return Ok(Found {
                    lines,
                    gate: end + 1,
                    half_open: Some(at),
                });
            }
            Next::End => {
                return Ok(Found {
                    lines,
                    gate: at,
                    half_open: None,
                });
            }
            Next::Damaged(place) => return Err(damage(place, lines.len())),
        }
    }
}

/// Adds a copy of a line to the lines.
fn push_line(lines: &mut Vec<Vec<u8>>, line: &[u8]) -> Result<(), ReadError>
    ensures items { OnOk result (lines_of lines.new.items ≡ lines_of lines.old.items ++ line.now ∷ []) }
    ensures whole { (damage : DamageIn) → result ≡ Err (ReadError.Damaged damage) → ⊥ }
{
    let alloc = *lines.allocator();
    lines.push(line.to_vec(alloc)?)?;
    Ok(())
}

/// Returns what comes at offset `at` of a file, where a gate has to be.
fn next_at(bytes: &[u8], at: usize) -> Next
    requires { at ≤ length bytes.now }
    ensures { IsNext bytes.now at result }
{
    if bytes.len() - at < GATE {
        return Next::Damaged(at);
    }
    let line = at + GATE;
    match (bytes[at], bytes[at + 1]) {
        (OPEN, OPEN) => match newline_from(bytes, line) {
            Some(end) => Next::Line(end),
            None => Next::Damaged(bytes.len()),
        },
        (OPEN, CLOSED) | (CLOSED, OPEN) => match last_newline_from(bytes, line) {
            Some(end) => Next::LastLine(end),
            None => Next::Damaged(at),
        },
        (CLOSED, CLOSED) if bytes.len() - line <= LONGEST + 1 + GATE => Next::End,
        _ => Next::Damaged(at),
    }
}

/// Returns the offset of the first newline from offset `from` on; `None` where there is none.
fn newline_from(bytes: &[u8], from: usize) -> Option<usize>
    requires { from ≤ length bytes.now }
    ensures found { IfSome result (λ end. IsLineTo bytes.now from end (drop (end + 1) bytes.now)) }
    ensures none { result ≡ None → IsLine (drop from bytes.now) }
{
    match first_newline(&bytes[from..]) {
        Some(len) => Some(from + len),
        None => None,
    }
}

/// Returns the offset of the first newline from offset `from` on, where a closed gate comes after it and ends the
/// file; `None` where there is no newline, or something else comes after the first one.
fn last_newline_from(bytes: &[u8], from: usize) -> Option<usize>
    requires { from ≤ length bytes.now }
    ensures found { IfSome result (λ end. IsLineTo bytes.now from end closed_gate) }
    ensures none { result ≡ None → is_last_line (drop from bytes.now) ≡ false }
{
    let end = newline_from(bytes, from)?;
    if bytes[end + 1..] != [CLOSED, CLOSED] {
        return None;
    }
    Some(end)
}

/// Returns the offset of the first newline; `None` where there is none.
fn first_newline(bytes: &[u8]) -> Option<usize>
    ensures { result ≡ position (λ b. b == NEWLINE) bytes.now }
{
    bytes.iter().position(|byte| *byte == NEWLINE)
}

/// Returns the damage at offset `at`, after `before` whole lines.
fn damage(at: usize, before: usize) -> ReadError
    requires { before + 1 < 2 ^ 64 }
    ensures { result ≡ ReadError.Damaged (record { at = at; line = before + 1 }) }
{
    ReadError::Damaged(Damage {
        at,
        line: before + 1,
    })
}

/// Reads all bytes of a file into memory.
pub(crate) fn read_all<D: Disk>(alloc: Global, disk: &mut D) -> Result<Vec<u8>, OpenError>
    requires { IsTrue (D.is_usable disk.old) }
    ensures bytes { IfOk result (λ bytes. IsTrue (D.is_clean disk.new) → bytes.items ≡ D.seen disk.old) }
    ensures seen { D.seen disk.new ≡ D.seen disk.old }
    ensures crash { (c : List ℕ) → D.may_leave disk.new c → D.may_leave disk.old c }
    ensures clean { IsTrue (D.is_clean disk.new) → IsTrue (D.is_clean disk.old) }
    ensures usable { IsTrue (D.is_usable disk.new) }
    ensures faults { D.faults disk.old ≤ D.faults disk.new }
    ensures whole { IfErr result (λ e. (damage : DamageIn) → e ≡ OpenError.Damaged damage → ⊥) }
    ensures failed { IfErr result (λ e. (error : Error) → e ≡ OpenError.Failed error
        → MoreFaults (D.faults disk.old) (D.faults disk.new)) }
{
    let len = disk.len()?;
    let mut bytes = Vec::new(alloc);
    bytes.resize(len, 0)?;
    disk.read_at(0, &mut bytes)?;
    Ok(bytes)
}
