//! The words of these texts.

ghost use Rattle.std.specs.Prelude.{◌≡◌, ◌++◌, is_some, option_map, string_bytes, true, OnOk, Some};
ghost use Rattle.machine_store.specs.Viewing.{buffer_of};
ghost use Rattle.machine.specs.Running.{content_of};
ghost use Rattle.spec_lines.specs.ShownWords.{bytes, moving_content, number, number_or_none, size_or_none, truth, walk};

use avro_bytes::BlockWalk;
use machine::{Content, Machine};
use machine_store::BufferAt;
use std::alloc::{AllocError, Global};
use std::fmt::Write;

/// Appends a number, or `-` for none.
pub(crate) fn push_number(output: &mut String, number: Option<usize>) -> Result<(), AllocError>
    ensures { OnOk result (string_bytes output.new ≡ string_bytes output.old ++ number_or_none number) }
{
    match number {
        Some(number) => write!(output, " {number}"),
        None => output.push_str(" -"),
    }
}

/// Appends the index of a miss, or `-` for none.
pub(crate) fn push_mark(output: &mut String, mark: Option<u32>) -> Result<(), AllocError>
    ensures { OnOk result (string_bytes output.new ≡ string_bytes output.old ++ number_or_none mark) }
{
    match mark {
        Some(mark) => write!(output, " {mark}"),
        None => output.push_str(" -"),
    }
}

/// Appends a size, or `-` for none.
fn push_size(output: &mut String, size: Option<i64>) -> Result<(), AllocError>
    ensures { OnOk result (string_bytes output.new ≡ string_bytes output.old ++ size_or_none size) }
{
    match size {
        Some(size) => write!(output, " {size}"),
        None => output.push_str(" -"),
    }
}

/// Appends what is left of a content, and where it began, or `-` for none.
pub(crate) fn push_moving(output: &mut String, moving: Option<Content>) -> Result<(), AllocError>
    ensures { OnOk result
        (string_bytes output.new ≡ string_bytes output.old ++ moving_content (option_map content_of moving)) }
{
    match moving {
        Some(content) => {
            let (left, from) = (content.left, content.from);
            write!(output, " {left} {from}")
        }
        None => output.push_str(" -"),
    }
}

/// Appends 1 for true and 0 for false.
pub(crate) fn push_truth(output: &mut String, value: bool) -> Result<(), AllocError>
    ensures { OnOk result (string_bytes output.new ≡ string_bytes output.old ++ truth value) }
{
    output.push_str(if value { " 1" } else { " 0" })
}

/// Appends bytes in hexadecimal, or `-` for none.
fn push_bytes(alloc: Global, output: &mut String, content: &[u8]) -> Result<(), AllocError>
    ensures { OnOk result (string_bytes output.new ≡ string_bytes output.old ++ bytes content.now) }
{
    if content.is_empty() {
        return output.push_str(" -");
    }
    let text = hex::encode(alloc, content)?;
    write!(output, " {text}")
}

/// Appends the bytes of a buffer.
pub(crate) fn push_buffer(
    alloc: Global,
    output: &mut String,
    machine: &Machine,
    at: BufferAt,
) -> Result<(), AllocError>
    requires { is_some (buffer_of at machine.now.state.store) ≡ true }
    ensures { OnOk result (Some (string_bytes output.new)
        ≡ option_map (λ content. string_bytes output.old ++ bytes content) (buffer_of at machine.now.state.store)) }
{
    let mut content = Vec::new(alloc);
    machine.push_buffer(at, &mut content)?;
    push_bytes(alloc, output, &content)
}

/// Appends a walk over blocks.
pub(crate) fn push_walk(output: &mut String, over: BlockWalk) -> Result<(), AllocError>
    ensures { OnOk result (string_bytes output.new ≡ string_bytes output.old ++ walk over) }
{
    let (left, count_at, items_at) = (over.left(), over.count_at(), over.items_at());
    write!(output, " {left} {count_at} {items_at}")?;
    push_size(output, over.size())
}
