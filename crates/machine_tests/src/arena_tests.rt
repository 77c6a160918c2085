//! Where the bytes of a run lie.

ghost use Rattle.std.specs.Prelude.{◌≡◌};
ghost use Rattle.machine.specs.Running.{IsOn, IsUnder, start};

use crate::programs::push_hex;
use crate::rows::{assert_questions, assert_rows};
use debugger::show_machine;
use isa::Program;
use machine::{BufferAt, Machine, Step};
use machine_plan::PlannedProgram;
use std::alloc::{AllocError, Global};
use std::fmt::Write;
use std::test::Fail;

/// More segments than any buffer of these tests has.
const SEGMENTS: usize = 4;

/// A breakpoint at an address without an instruction. Where there is one, nothing is looked for ahead, and contents
/// lie in the arena in the order in which they were read.
const NOWHERE: u32 = u32::MAX;

/// A closed record adds nothing to the arena, and has its slots' segments. Slots are read by their indices, gathered
/// items are read, and a cut character is carried.
const ROWS: &str = "\
arena 8|swapped|3606666f6f|3606666f6f
out 8|swapped|3606666f6f|(1 4)(0 1) ff06666f6f36
slot 7 0|swapped|3606666f6f|(1 4) ff06666f6f
slot 7 1|swapped|3606666f6f|(0 1) ff36
slot 7 2|swapped|3606666f6f| none
gathered 3|array|04060800|(0 1) ff06
slot 3 0|array|04060800| none
out 3|array|04060800| ff
carry 2|0 TEXT;1 HALT|8201{63:61}c3a9|c3
";

/// Appends the bytes of a cut character that a machine carries after `limit` rows.
pub(crate) fn push_carry(
    alloc: Global,
    output: &mut String,
    machine: &mut Machine,
    program: &PlannedProgram,
    input: &[u8],
    limit: u64,
) -> Result<(), AllocError>
    requires { machine.old ≡ start }
{
    let _rows = machine.slice(program, input, true, &[], limit);
    push_hex(alloc, output, machine.carry())
}

/// Appends the offset and the length of each segment of a buffer.
fn push_segments(output: &mut String, machine: &Machine, at: BufferAt) -> Result<(), AllocError> {
    for number in 0..SEGMENTS {
        if let Some((place, len)) = machine.segment(at, number) {
            write!(output, "({place} {len})")?;
        }
    }
    Ok(())
}

/// Appends the segments of a buffer, and its bytes after a byte that was there before, or `none` where there
/// is no such buffer.
fn push_buffer(
    alloc: Global,
    output: &mut String,
    machine: &Machine,
    at: BufferAt,
) -> Result<(), AllocError> {
    push_segments(output, machine, at)?;
    if !machine.has_buffer(at) {
        return output.push_str(" none");
    }
    output.push_str(" ")?;
    let mut bytes = Vec::from_slice(alloc, &[0xff])?;
    machine.push_buffer(at, &mut bytes)?;
    push_hex(alloc, output, &bytes)
}

/// After how many rows a machine is asked, and for which buffer; `None` asks for its arena.
#[derive(Clone, Copy)]
pub(crate) struct After {
    pub(crate) rows: u64,
    pub(crate) buffer: Option<BufferAt>,
}

/// Appends a buffer, or else the arena, after some rows, with nothing looked for ahead.
pub(crate) fn push_after(
    alloc: Global,
    output: &mut String,
    machine: &mut Machine,
    program: &PlannedProgram,
    input: &[u8],
    after: After,
) -> Result<(), AllocError>
    requires { machine.old ≡ start }
{
    let _rows = machine.slice(program, input, true, &[NOWHERE], after.rows);
    match after.buffer {
        Some(at) => push_buffer(alloc, output, machine, at),
        None => push_hex(alloc, output, machine.arena()),
    }
}

#[test]
fn bytes_lie_where_they_were_read(rt: HostRuntime) -> Result<(), Fail> {
    assert_questions(&rt, ROWS)
}

/// Returns what a machine shows, and its arena.
fn shown(alloc: Global, machine: &Machine) -> Result<String, AllocError> {
    let mut text = show_machine(alloc, machine, false)?;
    let arena = hex::encode(alloc, machine.arena())?;
    text.push_str(arena.as_str())?;
    Ok(text)
}

/// Takes a row, if it can be counted.
fn step(machine: &mut Machine, program: &Program, input: &[u8]) -> Step
    requires under { IsUnder program.now machine.old }
    requires on { IsOn input.now machine.old }
    ensures under { IsUnder program.now machine.new }
    ensures on { IsOn input.now machine.new }
{
    if machine.count() == u64::MAX {
        return Step::Ended;
    }
    machine.step(program, input, true)
}

/// Returns whether a row is taken. It is asked for again where memory ran out the first time: then the machine has to
/// show what it showed before.
fn takes_row(
    alloc: Global,
    machine: &mut Machine,
    program: &Program,
    input: &[u8],
) -> Result<bool, AllocError>
    requires under { IsUnder program.now machine.old }
    requires on { IsOn input.now machine.old }
    ensures under { IsUnder program.now machine.new }
    ensures on { IsOn input.now machine.new }
{
    let before = shown(alloc, machine)?;
    let first = step(machine, program, input);
    if first != Step::NoMemory {
        return Ok(first == Step::Moved);
    }
    let after = shown(alloc, machine)?;
    Ok(before.as_str() == after.as_str() && step(machine, program, input) == Step::Moved)
}

/// Returns whether `k` rows are taken, each as `takes_row` takes it.
fn takes_rows(
    alloc: Global,
    machine: &mut Machine,
    program: &Program,
    input: &[u8],
    k: u64,
) -> Result<bool, AllocError>
    requires under { IsUnder program.now machine.old }
    requires on { IsOn input.now machine.old }
{
    'rows: for _row in 0..k {
        if !takes_row(alloc, machine, program, input)? {
            return Ok(false);
        }
    }
    Ok(true)
}

/// Appends the arena and the segments of the output after `limit` rows that are taken one by one.
pub(crate) fn push_steps(
    alloc: Global,
    output: &mut String,
    machine: &mut Machine,
    program: &Program,
    input: &[u8],
    limit: u64,
) -> Result<(), AllocError>
    requires { machine.old ≡ start }
{
    if !takes_rows(alloc, machine, program, input, limit)? {
        return output.push_str("no such row");
    }
    push_hex(alloc, output, machine.arena())?;
    output.push_str(" ")?;
    push_segments(output, machine, BufferAt::Out)
}

#[test]
fn rows_are_taken_one_by_one(rt: HostRuntime) -> Result<(), Fail> {
    assert_rows(&rt, "steps 8", "swapped|3606666f6f|3606666f6f (1 4)(0 1)")
}
