//! The lines of two schemas.

ghost use Rattle.std.specs.Prelude.{◌≡◌, ◌<◌, ◌≤◌, length, IfOk, OnOk};
ghost use Rattle.std.specs.List.{AllByRecursion};
ghost use Rattle.schema_explain.specs.Bounds.{AreBelow, AreFew, HasNodesOf, IsBelow, IsOfNodes};
ghost use Rattle.schema_explain.specs.Explanation.{IsExplanation, line_at, pair_step, step};

use crate::arrivals::{Arrival, arrival_of};
use crate::entries::{Entry, Task, Whole, put_on_top};
use crate::line::{Fate, Line, Part};
use crate::pairs::PairList;
use crate::parts::parts_of;
use avro_types::Nodes;
use std::alloc::{AllocError, Global};

/// The line of a pair, and the entries of its parts.
#[derive(Drop)]
struct Step {
    line: Line,
    parts: Vec<Entry>,
}

/// Returns the line of a pair, with what becomes of it.
fn line_at(task: Task, arrival: Arrival, fate: Fate) -> Line
    ensures { result ≡ line_at task arrival fate }
{
    Line {
        depth: task.depth,
        part: task.part,
        writer: Some(task.writer),
        reader: Some(arrival.node),
        branch: arrival.branch,
        fate,
    }
}

/// Returns the line of a pair and its parts. A pair that has parts is added to those explained; where it is one of
/// them, its parts are left out.
fn pair_step(
    alloc: Global,
    writer: &Nodes,
    reader: &Nodes,
    explained: &mut PairList,
    task: Task,
) -> Result<Step, AllocError>
    requires writer { task.writer < length writer.now }
    requires reader { task.reader < length reader.now }
    requires nodes { IsOfNodes writer.now reader.now explained.old }
    requires depth { task.depth ≤ length explained.old.pairs }
    ensures line { IfOk result (λ s. s.line ≡ (pair_step writer.now reader.now task explained.old.pairs).line) }
    ensures parts { IfOk result
        (λ s. s.parts.items ≡ (pair_step writer.now reader.now task explained.old.pairs).parts) }
    ensures explained { OnOk result
        (explained.new.pairs ≡ (pair_step writer.now reader.now task explained.old.pairs).explained) }
    ensures nodes { OnOk result (IsOfNodes writer.now reader.now explained.new) }
    ensures within { IfOk result (λ s. HasNodesOf writer.now reader.now s.line) }
    ensures below { IfOk result (λ s. AreBelow writer.now reader.now (length explained.new.pairs) s.parts.items) }
    ensures few { IfOk result (λ s. AreFew (length explained.old.pairs) (length explained.new.pairs) s.parts.items) }
{
    writer.is_well_formed(); // law
    reader.is_well_formed(); // law
    let arrival = arrival_of(writer, task.writer, reader, task.reader);
    let parts = Vec::new(alloc);
    if arrival.fate != Fate::Parts {
        let line = line_at(task, arrival, arrival.fate);
        return Ok(Step { line, parts });
    }
    if !explained.add((task.writer, arrival.node))? {
        let line = line_at(task, arrival, Fate::AsAbove);
        return Ok(Step { line, parts });
    }
    let whole = Whole {
        depth: task.depth + 1,
        writer: task.writer,
        reader: arrival.node,
    };
    let parts = parts_of(alloc, writer, reader, whole)?;
    let line = line_at(task, arrival, Fate::Parts);
    Ok(Step { line, parts })
}

/// Returns the line of an entry and its parts: those of a pair that is due, and none of a line that is ready.
fn step_of(
    alloc: Global,
    writer: &Nodes,
    reader: &Nodes,
    explained: &mut PairList,
    entry: Entry,
) -> Result<Step, AllocError>
    requires nodes { IsOfNodes writer.now reader.now explained.old }
    requires below { IsBelow writer.now reader.now (length explained.old.pairs) entry }
    ensures line { IfOk result (λ s. s.line ≡ (step writer.now reader.now entry explained.old.pairs).line) }
    ensures parts { IfOk result (λ s. s.parts.items ≡ (step writer.now reader.now entry explained.old.pairs).parts) }
    ensures explained { OnOk result
        (explained.new.pairs ≡ (step writer.now reader.now entry explained.old.pairs).explained) }
    ensures nodes { OnOk result (IsOfNodes writer.now reader.now explained.new) }
    ensures within { IfOk result (λ s. HasNodesOf writer.now reader.now s.line) }
    ensures below { IfOk result (λ s. AreBelow writer.now reader.now (length explained.new.pairs) s.parts.items) }
    ensures few { IfOk result (λ s. AreFew (length explained.old.pairs) (length explained.new.pairs) s.parts.items) }
{
    match entry {
        Entry::Ready(line) => Ok(Step {
            line,
            parts: Vec::new(alloc),
        }),
        Entry::Due(task) => pair_step(alloc, writer, reader, explained, task),
    }
}

/// Returns what becomes of every part of a message that one schema writes and another reads, depth first: a line for
/// each, the fields of a record in the reader's order and then those that are dropped.
///
/// Parts that recur are explained where they come first. A line's nodes are nodes of the schemas. It fails only where
/// an allocation fails.
pub fn explain(alloc: Global, writer: &Nodes, reader: &Nodes) -> Result<Vec<Line>, AllocError>
    ensures lines { IfOk result (λ lines. IsExplanation writer.now reader.now lines.items) }
    ensures nodes { IfOk result (λ lines. AllByRecursion (HasNodesOf writer.now reader.now) lines.items) }
{
    writer.is_well_formed(); // law
    reader.is_well_formed(); // law
    let mut explained = PairList::new(alloc, writer.len(), reader.len())?;
    let mut stack = Vec::new(alloc);
    stack.push(Entry::Due(Task {
        depth: 0,
        part: Part::Root,
        writer: 0,
        reader: 0,
    }))?;
    let mut lines = Vec::new(alloc);
    while let Some(entry) = stack.pop() {
        let step = step_of(alloc, writer, reader, &mut explained, entry)?;
        lines.push(step.line)?;
        put_on_top(&mut stack, step.parts)?;
    }
    Ok(lines)
}
