//! Programs by their code lines, and what their runs answer.

ghost use Rattle.std.specs.Prelude.{◌≡◌, ◌≤◌};
ghost use Rattle.machine.specs.Running.{start};

use crate::again::again;
use crate::texts::push_text;
use assembler::{AsmError, assemble};
use hex::FromHexError;
use isa::{Program, Trap};
use machine::{EndView, Machine, Why};
use machine_plan::PlannedProgram;
use std::alloc::{AllocError, Global};
use std::fmt::Write;

/// More turns than any test takes.
const TURNS: usize = 20_000;

/// Returns the program of these lines under the header. It is assembled again where memory ran out the first time.
pub(crate) fn program(alloc: Global, lines: &str) -> Result<Program, AsmError> {
    let mut text = String::from_str(alloc, "avro program 1\n")?;
    push_text(&mut text, lines)?;
    text.push_str("\n")?;
    again!(assemble(alloc, text.as_bytes()), AsmError::NoMemory)
}

/// Runs a program on an input that comes in pieces of `piece` bytes, in slices of `limit` rows.
pub(crate) fn run(
    machine: &mut Machine,
    program: &PlannedProgram,
    input: &[u8],
    piece: usize,
    limit: u64,
)
    requires { machine.old ≡ start }
{
    let mut end = 0;
    'turns: for _turn in 0..TURNS {
        let slice = machine.slice(program, &input[..end], end == input.len(), &[], limit);
        if slice.why == Why::Ended {
            return;
        }
        end = further(slice.why, end, piece, input.len());
    }
}

/// Returns the end of a further piece, if the machine waits for one.
fn further(why: Why, end: usize, piece: usize, len: usize) -> usize
    requires { end ≤ len }
    ensures order { end ≤ result }
    ensures within { result ≤ len }
{
    if why != Why::Waits {
        return end;
    }
    if len - end < piece { len } else { end + piece }
}

/// Appends bytes in hexadecimal.
pub(crate) fn push_hex(alloc: Global, output: &mut String, bytes: &[u8]) -> Result<(), AllocError> {
    let hex = hex::encode(alloc, bytes)?;
    output.push_str(hex.as_str())
}

/// Appends an output, or `-` where it has no bytes.
pub(crate) fn push_done(
    alloc: Global,
    output: &mut String,
    bytes: &[u8],
) -> Result<(), AllocError> {
    output.push_str("done ")?;
    if bytes.is_empty() {
        return output.push_str("-");
    }
    push_hex(alloc, output, bytes)
}

/// Appends the end of a run.
pub(crate) fn push_end(
    alloc: Global,
    output: &mut String,
    end: EndView<'_>,
) -> Result<(), AllocError> {
    match end {
        EndView::Done(bytes) => push_done(alloc, output, bytes),
        EndView::Mismatch(m) => {
            let kind = m.kind.name();
            write!(
                output,
                "mismatch {kind} {} {}",
                m.writer_node, m.reader_node
            )
        }
        EndView::Malformed { kind, at } => {
            let kind = kind.name();
            write!(output, "malformed {kind} at {at}")
        }
        EndView::OutputTooLarge => output.push_str("output too large"),
        EndView::Trap(trap) => {
            let trap = trap_name(trap);
            write!(output, "trap {trap}")
        }
    }
}

fn trap_name(trap: Trap) -> &'static str {
    match trap {
        Trap::NoFrame => "NoFrame",
        Trap::NoBuffer => "NoBuffer",
        Trap::TooManyCalls => "TooManyCalls",
        Trap::NoReturn => "NoReturn",
        Trap::BadSlot => "BadSlot",
        Trap::OpenAtHalt => "OpenAtHalt",
        Trap::OffEnd => "OffEnd",
    }
}

/// Appends how a machine's run ended, or that it runs, and its count of rows.
pub(crate) fn push_words(
    alloc: Global,
    output: &mut String,
    machine: &Machine,
) -> Result<(), AllocError> {
    match machine.end() {
        Some(end) => push_end(alloc, output, end)?,
        None => output.push_str("running")?,
    }
    let count = machine.count();
    write!(output, " count {count}")
}

/// Returns the bytes of a row of hexadecimal digits.
pub(crate) fn input(alloc: Global, hex: &str) -> Result<Vec<u8>, FromHexError> {
    let mut digits = String::new(alloc);
    push_text(&mut digits, hex)?;
    hex::decode(alloc, digits)
}
