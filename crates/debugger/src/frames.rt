//! The lines of open frames.

ghost use Rattle.std.specs.Prelude.{◌≡◌, ◌++◌, length, option_map, option_to_list, reverse, slice_get, string_bytes, OnOk, Some};
ghost use Rattle.std.specs.List.{flat_map};
ghost use Rattle.spec_machine.specs.State.{SkipBlocks};
ghost use Rattle.machine_store.specs.Viewing.{slots_in, view_of};
ghost use Rattle.spec_lines.specs.Show.{call_line, frame_line};
ghost use Rattle.spec_lines.specs.ShownWords.{bytes};

use crate::words::{push_buffer, push_number, push_walk};
use avro_bytes::BlockWalk;
use machine::Machine;
use machine_store::{BufferAt, FrameView};
use std::alloc::{AllocError, Global};
use std::fmt::Write;

/// Appends the bytes of each slot of a frame, which has `slots` slots.
fn push_slots(
    alloc: Global,
    output: &mut String,
    machine: &Machine,
    frame: usize,
    slots: usize,
) -> Result<(), AllocError>
    requires { slots ≡ length (slots_in (slice_get (reverse machine.now.state.store.frames) frame)) }
    ensures { OnOk result (string_bytes output.new ≡ string_bytes output.old
        ++ flat_map bytes (slots_in (slice_get (reverse machine.now.state.store.frames) frame))) }
{
    for slot in 0..slots {
        push_buffer(alloc, output, machine, BufferAt::Slot { frame, slot })?;
    }
    Ok(())
}

/// Appends the line of a record.
fn push_record(
    alloc: Global,
    output: &mut String,
    machine: &Machine,
    number: usize,
    selected: Option<usize>,
    slots: usize,
) -> Result<(), AllocError>
    requires { option_map view_of (slice_get (reverse machine.now.state.store.frames) number)
        ≡ Some (FrameView.Record selected slots) }
    ensures { OnOk result (string_bytes output.new ≡ string_bytes output.old
        ++ flat_map frame_line (option_to_list (slice_get (reverse machine.now.state.store.frames) number))) }
{
    output.push_str("rec")?;
    push_number(output, selected)?;
    push_slots(alloc, output, machine, number, slots)?;
    output.push_str("\n")
}

/// Appends the line of an array or a map.
fn push_blocks(
    alloc: Global,
    output: &mut String,
    machine: &Machine,
    number: usize,
    walk: BlockWalk,
    items: u32,
) -> Result<(), AllocError>
    requires { option_map view_of (slice_get (reverse machine.now.state.store.frames) number)
        ≡ Some (FrameView.Blocks walk items) }
    ensures { OnOk result (string_bytes output.new ≡ string_bytes output.old
        ++ flat_map frame_line (option_to_list (slice_get (reverse machine.now.state.store.frames) number))) }
{
    output.push_str("blocks")?;
    push_walk(output, walk)?;
    write!(output, " {items}")?;
    push_buffer(alloc, output, machine, BufferAt::Gathered { frame: number })?;
    output.push_str("\n")
}

/// Appends the line of an array or a map that is skipped.
fn push_skip_blocks(output: &mut String, over: BlockWalk) -> Result<(), AllocError>
    ensures { OnOk result (string_bytes output.new ≡ string_bytes output.old ++ frame_line (SkipBlocks over)) }
{
    output.push_str("sblocks")?;
    push_walk(output, over)?;
    output.push_str("\n")
}

/// Appends the line of the frame at an index, counted from the oldest, or nothing where there is none.
fn push_frame(
    alloc: Global,
    output: &mut String,
    machine: &Machine,
    number: usize,
) -> Result<(), AllocError>
    ensures { OnOk result (string_bytes output.new ≡ string_bytes output.old
        ++ flat_map frame_line (option_to_list (slice_get (reverse machine.now.state.store.frames) number))) }
{
    let Some(frame) = machine.frame_at(number) else {
        return Ok(());
    };
    match &frame {
        FrameView::Record { selected, slots } => {
            push_record(alloc, output, machine, number, *selected, *slots)
        }
        FrameView::Skip => output.push_str("skip\n"),
        FrameView::Blocks { walk, items } => {
            push_blocks(alloc, output, machine, number, *walk, *items)
        }
        FrameView::SkipBlocks { walk } => push_skip_blocks(output, *walk),
    }
}

/// Appends the lines of the frames, the oldest first.
pub(crate) fn push_frames(
    alloc: Global,
    output: &mut String,
    machine: &Machine,
) -> Result<(), AllocError>
    ensures { OnOk result (string_bytes output.new ≡ string_bytes output.old
        ++ flat_map frame_line (reverse machine.now.state.store.frames)) }
{
    for number in 0..machine.depth() as usize {
        push_frame(alloc, output, machine, number)?;
    }
    Ok(())
}

/// Appends the line of the call at an index, counted from the oldest, or nothing where there is none.
fn push_call(output: &mut String, machine: &Machine, number: usize) -> Result<(), AllocError>
    ensures { OnOk result (string_bytes output.new ≡ string_bytes output.old
        ++ flat_map call_line (option_to_list (slice_get (reverse machine.now.state.calls) number))) }
{
    match machine.call_at(number) {
        Some(address) => write!(output, "call {address}\n"),
        None => Ok(()),
    }
}

/// Appends the lines of the calls, the oldest first.
pub(crate) fn push_calls(output: &mut String, machine: &Machine) -> Result<(), AllocError>
    ensures { OnOk result (string_bytes output.new ≡ string_bytes output.old
        ++ flat_map call_line (reverse machine.now.state.calls)) }
{
    for number in 0..machine.calls() {
        push_call(output, machine, number)?;
    }
    Ok(())
}
