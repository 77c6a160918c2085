//! A path's text as a JSON Pointer (RFC 6901).

ghost use Rattle.std.specs.Prelude.{◌≡◌, ◌++◌, string_bytes, IfOk, OnOk};
ghost use Rattle.std.specs.List.{AllByRecursion};
ghost use Rattle.avro_schema_paths.specs.Pointers.{HasShortPosition, LeadsAsPath, pointer_of, segment};

use crate::step::Step;
use std::alloc::{AllocError, Global};
use std::fmt::Write;

/// Appends a slash, and the word of a step or its position in decimal digits.
fn push_step(text: &mut String, step: Step) -> Result<(), AllocError>
    ensures text { OnOk result (string_bytes text.new ≡ string_bytes text.old ++ segment step) }
    ensures short { HasShortPosition step }
{
    match step {
        Step::Type => text.push_str("/type"),
        Step::Items => text.push_str("/items"),
        Step::Values => text.push_str("/values"),
        Step::Fields => text.push_str("/fields"),
        Step::At(position) => write!(text, "/{position}"),
    }
}

/// Appends the steps of a path, one after another.
fn push_steps(text: &mut String, path: &[Step]) -> Result<(), AllocError>
    ensures text { OnOk result (string_bytes text.new ≡ string_bytes text.old ++ pointer_of path.now) }
    ensures short { OnOk result (AllByRecursion HasShortPosition path.now) }
{
    for step in path {
        push_step(text, *step)?;
    }
    Ok(())
}

/// Returns the JSON Pointer of a path (RFC 6901), as `/fields/1/type/items`: that of the root is empty.
pub fn pointer(alloc: Global, path: &[Step]) -> Result<String, AllocError>
    ensures text { IfOk result (λ text. string_bytes text ≡ pointer_of path.now) }
    ensures leads { IfOk result (λ text. LeadsAsPath (string_bytes text) path.now) }
{
    let mut text = String::new(alloc);
    push_steps(&mut text, path)?;
    Ok(text)
}
