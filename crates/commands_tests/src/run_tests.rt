//! Runs in pieces and slices: neither changes the end or the count.

use crate::again::{program_of, pushed};
use crate::rows::{BOTH, COUNTS, SWAPPED};
use crate::words::end_words;
use machine::{PlannedProgram, Run, Slice, Why};
use std::alloc::{AllocError, Global};
use std::process::Abort;
use std::test::Fail;

/// More slices than any row takes.
const TURNS: usize = 20_000;

/// Takes rows until the run ends or waits, in slices of at most `k`.
fn advance(run: &mut Run<'_>, k: u64) {
    for _turn in 0..TURNS {
        if matches!(run.slice(&[], k).why, Why::Ended | Why::Waits) {
            return;
        }
    }
}

/// Returns whether a run has taken no more rows than its bound: as many as its program has instructions for each unit
/// and for the whole, and one for each byte.
fn is_within_bound(run: &Run<'_>) -> bool {
    let parts = run.machine().units() as u64 + 1;
    let most = parts.saturating_mul(run.program().len() as u64);
    run.machine().count() <= most.saturating_add(run.input().len() as u64)
}

/// Returns what a run shows, in words.
fn words(alloc: Global, run: &Run<'_>) -> Result<String, AllocError> {
    if !is_within_bound(run) {
        return String::from_str(alloc, "past the row bound");
    }
    let end = end_words(alloc, run.machine().end())?;
    format!(in alloc; "{end} count {}", run.machine().count())
}

/// Takes a payload in pieces of `size` bytes, and rows in slices of at most `k`, to the end.
fn drive(run: &mut Run<'_>, payload: &[u8], size: usize, k: u64) -> Result<(), AllocError> {
    for piece in payload.chunks(size.max(1)) {
        advance(run, k);
        pushed(run, piece)?;
    }
    advance(run, k);
    run.close();
    advance(run, k);
    Ok(())
}

/// Returns what a run shows on a payload in pieces of `size` bytes, and slices of at most `limit` rows.
pub(crate) fn cut_run(
    alloc: Global,
    program: &PlannedProgram,
    payload: &[u8],
    size: usize,
    limit: u64,
) -> Result<String, AllocError> {
    let mut run = Run::new(alloc, program);
    drive(&mut run, payload, size, limit)?;
    words(alloc, &run)
}

/// Returns whether one way to cut a payload and its rows comes to that answer.
fn is_cut_answer(
    alloc: Global,
    program: &PlannedProgram,
    payload: &[u8],
    (size, k): (usize, u64),
    answer: &str,
) -> Result<bool, AllocError> {
    let found = cut_run(alloc, program, payload, size, k)?;
    Ok(found.as_str() == answer)
}

/// Returns whether each way to cut a payload and its rows comes to that answer.
fn is_answer(
    alloc: Global,
    program: &PlannedProgram,
    payload: &[u8],
    answer: &str,
) -> Result<bool, AllocError> {
    for way in [(payload.len(), u64::MAX), (1, u64::MAX), (3, 2), (1, 1)] {
        if !is_cut_answer(alloc, program, payload, way, answer)? {
            return Ok(false);
        }
    }
    Ok(true)
}

/// Returns whether each way to cut a payload in hexadecimal comes to that answer.
fn is_hex_answer(
    alloc: Global,
    program: &PlannedProgram,
    hex: &str,
    answer: &str,
) -> Result<bool, Fail> {
    let payload = hex::decode(alloc, hex)?;
    Ok(is_answer(alloc, program, &payload, answer)?)
}

/// Returns whether each way to cut a payload of a pair comes to that answer.
fn is_texts_answer(
    rt: &(impl Abort + AllocGlobal),
    writer: &str,
    reader: &str,
    hex: &str,
    answer: &str,
) -> Result<bool, Fail> {
    let program = program_of(rt, writer, reader);
    is_hex_answer(rt.alloc(), &program, hex, answer)
}

/// Returns whether a row is true.
fn is_true(rt: &(impl Abort + AllocGlobal), row: &str) -> Result<bool, Fail> {
    let mut parts = row.split('|');
    let (Some(writer), Some(reader), Some(hex), Some(answer)) = (
        parts.next(),
        parts.next(),
        parts.next(),
        parts.next(),
    ) else {
        return Ok(false);
    };
    is_texts_answer(rt, writer, reader, hex, answer)
}

#[test]
fn cuts_and_slices_change_nothing(rt: HostRuntime) -> Result<(), Fail> {
    for row in COUNTS.lines() {
        assert!(rt; is_true(&rt, row)?, "{row}");
    }
    Ok(())
}

/// Asserts that a new run takes one row, waits, and ends with another one once it is closed, and can be used again.
fn assert_waits<'p>(rt: &impl Abort, run: &mut Run<'p>, program: &'p PlannedProgram) {
    let waits = Slice {
        rows: 1,
        why: Why::Waits,
    };
    assert!(rt; run.slice(&[], 100) == waits);
    run.close();
    let ended = Slice {
        rows: 1,
        why: Why::Ended,
    };
    assert!(rt; run.slice(&[], 100) == ended);
    run.reset(program);
    assert!(rt; run.input().is_empty() && !run.is_closed());
    assert!(rt; run.machine().count() == 0);
}

/// Asserts that a new run of a program does what `assert_waits` says.
fn assert_run_waits(rt: &(impl Abort + AllocGlobal), program: &PlannedProgram) {
    let mut run = Run::new(rt.alloc(), program);
    assert_waits(rt, &mut run, program);
}

#[test]
fn a_run_waits_for_bytes(rt: HostRuntime) {
    let list = "{\"type\":\"array\",\"items\":\"long\"}";
    let program = program_of(&rt, list, list);
    assert_run_waits(&rt, &program);
}

/// A breakpoint at which there is no instruction. Where a breakpoint is set, nothing is looked for ahead, and
/// contents are in the arena in the order in which they were read.
pub(crate) const NOWHERE: u32 = u32::MAX;

/// Returns whether the arena of a run on a payload is the payload, after at most `k` rows, with nothing looked for
/// ahead.
fn has_arena(run: &mut Run<'_>, payload: &[u8], k: u64) -> Result<bool, AllocError> {
    pushed(run, payload)?;
    run.close();
    let _rows = run.slice(&[NOWHERE], k);
    Ok(run.machine().arena() == payload)
}

/// Returns whether the arena of a new run of a program is the payload, as `has_arena` says.
fn is_arena(
    alloc: Global,
    program: &PlannedProgram,
    payload: &[u8],
    k: u64,
) -> Result<bool, AllocError> {
    let mut run = Run::new(alloc, program);
    has_arena(&mut run, payload, k)
}

#[test]
fn the_arena_of_a_record_whose_fields_are_swapped(rt: HostRuntime) {
    let program = program_of(&rt, BOTH, SWAPPED);
    let payload = [0x36, 0x06, 0x66, 0x6f, 0x6f];
    assert!(rt; is_arena(rt.alloc(), &program, &payload, 8).expect(&rt, "no memory"));
}
