//! The line of a run of a program.

ghost use Rattle.std.specs.Prelude.{◌≡◌, ◌++◌, string_bytes, OnOk};
ghost use Rattle.spec_lines.specs.RunLine.{line_of_run, name_of_trap, text_of_end};

use crate::answer::{push_done, push_outcome};
use avro_bytes::Outcome;
use isa::Trap;
use machine::{EndView, Machine};
use std::alloc::{AllocError, Global};
use std::fmt::Write;

/// Returns the name of a trap.
fn name_of_trap(trap: Trap) -> &'static str
    ensures { result.now ≡ name_of_trap trap }
{
    match trap {
        Trap::NoFrame => "NoFrame",
        Trap::NoBuffer => "NoBuffer",
        Trap::TooManyCalls => "TooManyCalls",
        Trap::NoReturn => "NoReturn",
        Trap::BadSlot => "BadSlot",
        Trap::OpenAtHalt => "OpenAtHalt",
        Trap::OffEnd => "OffEnd",
    }
}

/// Appends how a run ended, or that it goes on.
fn push_end(alloc: Global, output: &mut String, machine: &Machine) -> Result<(), AllocError>
    ensures { OnOk result (string_bytes output.new ≡ string_bytes output.old ++ text_of_end machine.now.state.end) }
{
    match machine.end() {
        Some(EndView::Done(bytes)) => push_done(alloc, output, bytes),
        Some(EndView::Mismatch(found)) => push_outcome(alloc, output, &Outcome::Mismatch(found)),
        Some(EndView::Malformed { kind, at }) => {
            push_outcome(alloc, output, &Outcome::Malformed { kind, at })
        }
        Some(EndView::OutputTooLarge) => push_outcome(alloc, output, &Outcome::OutputTooLarge),
        Some(EndView::Trap(trap)) => {
            let name = name_of_trap(trap);
            write!(output, "trap {name}")
        }
        None => output.push_str("running"),
    }
}

/// Appends the line of a run, without its LF. It is not specified what an `Err` leaves of the text.
pub fn push_run(alloc: Global, output: &mut String, machine: &Machine) -> Result<(), AllocError>
    ensures { OnOk result (string_bytes output.new ≡ string_bytes output.old ++ line_of_run machine.now.state) }
{
    push_end(alloc, output, machine)?;
    let count = machine.count();
    write!(output, " count {count}")
}
