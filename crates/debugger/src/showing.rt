//! The text that shows a state, and the listing of its program.

ghost use Rattle.std.specs.Prelude.{◌≡◌, ◌++◌, string_bytes, IfOk, OnOk};
ghost use Rattle.spec_machine.specs.Listing.{listing_of};
ghost use Rattle.spec_lines.specs.Show.{first_line, name_of_state, out_line, places, shown, told};

use crate::frames::{push_calls, push_frames};
use crate::words::{push_buffer, push_mark, push_moving, push_truth};
use assembler::disassemble;
use isa::Program;
use machine::{EndView, Machine};
use machine_store::BufferAt;
use std::alloc::{AllocError, Global};
use std::fmt::Write;

/// Returns the name of a run's state: whether it goes on, or how it ended.
fn name_of_state(machine: &Machine, no_memory: bool) -> &'static str
    ensures { result.now ≡ name_of_state no_memory machine.now.state.end }
{
    if no_memory {
        return "memory";
    }
    match machine.end() {
        None => "running",
        Some(EndView::Done(_)) => "done",
        Some(EndView::Mismatch(_)) => "mismatch",
        Some(EndView::Malformed { .. }) => "malformed",
        Some(EndView::OutputTooLarge) => "output",
        Some(EndView::Trap(_)) => "trap",
    }
}

/// Appends how far a run came.
fn push_places(output: &mut String, machine: &Machine) -> Result<(), AllocError>
    ensures { OnOk result (string_bytes output.new ≡ string_bytes output.old ++ places machine.now.state) }
{
    let (count, pc) = (machine.count(), machine.pc());
    let (pos, units) = (machine.pos(), machine.units());
    write!(output, "count {count} pc {pc} pos {pos} units {units}")
}

/// Appends the content that moves, the mark, and whether the output passed its limit.
fn push_told(output: &mut String, machine: &Machine) -> Result<(), AllocError>
    ensures { OnOk result (string_bytes output.new ≡ string_bytes output.old ++ told machine.now.state) }
{
    output.push_str(" part")?;
    push_moving(output, machine.moving())?;
    output.push_str(" mark")?;
    push_mark(output, machine.mark())?;
    output.push_str(" over")?;
    push_truth(output, machine.is_over())
}

/// Appends the line of the numbers and of the state.
fn push_first_line(
    output: &mut String,
    machine: &Machine,
    no_memory: bool,
) -> Result<(), AllocError>
    ensures { OnOk result
        (string_bytes output.new ≡ string_bytes output.old ++ first_line machine.now.state no_memory) }
{
    push_places(output, machine)?;
    push_told(output, machine)?;
    let name = name_of_state(machine, no_memory);
    write!(output, " state {name}\n")
}

/// Appends the line of the output.
fn push_out(alloc: Global, output: &mut String, machine: &Machine) -> Result<(), AllocError>
    ensures { OnOk result
        (string_bytes output.new ≡ string_bytes output.old ++ out_line machine.now.state.store.out) }
{
    output.push_str("out")?;
    push_buffer(alloc, output, machine, BufferAt::Out)?;
    output.push_str("\n")
}

/// Returns the text of a machine's state, with `no_memory` where memory was refused for the last row.
pub fn show_machine(alloc: Global, machine: &Machine, no_memory: bool) -> Result<String, AllocError>
    ensures { IfOk result (λ text. string_bytes text ≡ shown machine.now.state no_memory) }
{
    let mut output = String::new(alloc);
    push_first_line(&mut output, machine, no_memory)?;
    push_out(alloc, &mut output, machine)?;
    push_calls(&mut output, machine)?;
    push_frames(alloc, &mut output, machine)?;
    Ok(output)
}

/// Returns the listing of a program.
pub fn list_program(alloc: Global, program: &Program) -> Result<String, AllocError>
    ensures { IfOk result (λ text. string_bytes text ≡ listing_of program.now) }
{
    disassemble(alloc, program)
}
