//! What is still to be explained.

ghost use Rattle.std.specs.Prelude.{◌≡◌, ◌++◌, ◌∷◌, [], reverse, IfOk, OnOk};
ghost use Rattle.schema_explain.specs.Parts.{due};

use crate::line::{Line, Part};
use std::alloc::{AllocError, Global};

/// A pair of nodes that is still to be explained: how deep its line is, and which part it is of.
#[derive(Clone, Copy, Debug)]
pub(crate) struct Task {
    pub(crate) depth: usize,
    pub(crate) part: Part,
    pub(crate) writer: usize,
    pub(crate) reader: usize,
}

/// A line that is ready, or a pair that is due to be explained.
#[derive(Clone, Copy, Debug)]
pub(crate) enum Entry {
    Ready(Line),
    Due(Task),
}

/// Nodes that have parts: a writer's and a reader's, and how deep the lines of the parts are.
#[derive(Clone, Copy, Debug)]
pub(crate) struct Whole {
    pub(crate) depth: usize,
    pub(crate) writer: usize,
    pub(crate) reader: usize,
}

/// Returns a pair of nodes as a part of a whole.
pub(crate) fn due(whole: Whole, part: Part, writer: usize, reader: usize) -> Entry
    ensures { result ≡ due whole part writer reader }
{
    Entry::Due(Task {
        depth: whole.depth,
        part,
        writer,
        reader,
    })
}

/// Returns a pair of nodes as the only part of a whole.
pub(crate) fn one_due(
    alloc: Global,
    whole: Whole,
    part: Part,
    pair: (usize, usize),
) -> Result<Vec<Entry>, AllocError>
    ensures { IfOk result (λ v. v.items ≡ due whole part pair.0 pair.1 ∷ []) }
{
    let mut entries = Vec::new(alloc);
    entries.push(due(whole, part, pair.0, pair.1))?;
    Ok(entries)
}

/// Adds entries to a stack, the first of them on top.
pub(crate) fn put_on_top(stack: &mut Vec<Entry>, entries: Vec<Entry>) -> Result<(), AllocError>
    ensures { OnOk result (reverse stack.new.items ≡ entries.items ++ reverse stack.old.items) }
{
    let mut rest = entries;
    while let Some(entry) = rest.pop() {
        stack.push(entry)?;
    }
    Ok(())
}
