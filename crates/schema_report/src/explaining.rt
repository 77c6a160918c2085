//! What becomes of every part of a message, as a tree and as JSON.
//!
//! Which lines there are, and what each says, is `schema_explain`'s contract; that these are its words no clause says,
//! but the tests of `schema_tests`.

use crate::asking::refused;
use crate::listing::push_path;
use crate::reading::{PathedSchema, read_schema};
use crate::report::{Report, Verdict};
use crate::wording::{
    Both, Holder, default_of, default_symbol, old_name, part_name, push_type_of, push_words,
};
use avro_schema_paths::{Step, pointer};
use schema_explain::{Fate, Line, Part, explain};
use serde_json::{Value, json};
use std::alloc::{AllocError, Global};
use std::fmt::Write;

/// How an explanation is given.
#[derive(Clone, Copy, Debug, PartialEq, Eq)]
pub enum Form {
    /// As a tree of lines, each part deeper than what it is a part of.
    Tree,
    /// As one JSON value: a list of the lines.
    Json,
    /// Of one pair of nodes alone, as a mismatch names them: what they are, where, and the lines of that pair.
    Pair { writer: u32, reader: u32 },
}

/// The most levels that are shown by spaces; deeper lines begin with the number of their level.
const MOST_LEVELS: usize = 40;

/// Appends the spaces before a line, two for each level.
fn push_indent(output: &mut String, depth: usize) -> Result<(), AllocError> {
    for _level in 0..depth.min(MOST_LEVELS) {
        output.push_str("  ")?;
    }
    if depth > MOST_LEVELS {
        write!(output, "[{depth}] ")?;
    }
    Ok(())
}

/// The lines that the next ones may be parts of, one a level.
#[derive(Drop)]
struct Holders {
    levels: Vec<Holder>,
}

impl Holders {
    /// Returns what a line of this depth is a part of.
    fn of(&self, depth: usize) -> Holder {
        match depth.checked_sub(1) {
            Some(level) if level < self.levels.len() => self.levels[level],
            _ => Holder {
                writer: None,
                reader: None,
            },
        }
    }

    /// Notes a line: the next ones that are deeper are parts of it.
    fn note(&mut self, line: &Line) -> Result<(), AllocError> {
        self.levels.truncate(line.depth);
        self.levels.push(Holder {
            writer: line.writer,
            reader: line.reader,
        })?;
        Ok(())
    }
}

/// Returns the lines as a tree.
fn tree_of(alloc: Global, both: &Both, lines: &[Line]) -> Result<String, AllocError> {
    let mut output = String::new(alloc);
    let mut holders = Holders {
        levels: Vec::new(alloc),
    };
    for line in lines {
        push_indent(&mut output, line.depth)?;
        push_words(alloc, &mut output, both, holders.of(line.depth), line)?;
        holders.note(line)?;
    }
    Ok(output)
}

/// Appends what a node is and its path, or that there is no such node. Returns whether there is.
fn push_node(
    alloc: Global,
    output: &mut String,
    side: &str,
    schema: &PathedSchema,
    node: u32,
) -> Result<bool, AllocError> {
    let at = node as usize;
    let nodes = schema.schema.nodes();
    if at >= nodes.len() || at >= schema.paths.len() {
        write!(output, "no node {node} in the {side}'s schema\n")?;
        return Ok(false);
    }
    write!(output, "{side} {node} ")?;
    push_type_of(output, nodes, Some(at))?;
    output.push_str(" ")?;
    push_path(alloc, output, &schema.paths[at])?;
    output.push_str("\n")?;
    Ok(true)
}

/// Returns what a pair of nodes is, and its lines without their indentation. The verdict is no where there is no such
/// node.
fn pair_of(
    alloc: Global,
    both: &Both,
    lines: &[Line],
    writer: u32,
    reader: u32,
) -> Result<Report, AllocError> {
    let mut output = String::new(alloc);
    let is_writer = push_node(alloc, &mut output, "writer", both.writer, writer)?;
    let is_reader = push_node(alloc, &mut output, "reader", both.reader, reader)?;
    let mut holders = Holders {
        levels: Vec::new(alloc),
    };
    for line in lines {
        if line.writer == Some(writer as usize) && line.reader == Some(reader as usize) {
            push_words(alloc, &mut output, both, holders.of(line.depth), line)?;
        }
        holders.note(line)?;
    }
    let verdict = if is_writer && is_reader {
        Verdict::Yes
    } else {
        Verdict::No
    };
    Ok(Report {
        text: output,
        verdict,
    })
}

/// Returns the word for what becomes of a part.
fn fate_word(fate: Fate) -> &'static str {
    match fate {
        Fate::Copied => "copied",
        Fate::Promoted => "promoted",
        Fate::PromotedIfText => "promoted if UTF-8",
        Fate::Parts => "parts",
        Fate::AsAbove => "as above",
        Fate::Default => "default",
        Fate::Dropped => "dropped",
        Fate::Mismatch(_) => "mismatch",
    }
}

/// Returns the word for which part a line is of.
fn part_word(part: Part) -> &'static str {
    match part {
        Part::Root => "message",
        Part::Field { .. } => "field",
        Part::Item => "item",
        Part::Value => "value",
        Part::Branch(_) => "branch",
        Part::Symbol(_) => "symbol",
    }
}

/// Returns a node as JSON: its number, what it is, and its path; null where there is none.
fn node_value(
    alloc: Global,
    schema: &PathedSchema,
    node: Option<usize>,
) -> Result<Value, AllocError> {
    let Some(node) = node else {
        return Ok(Value::Null);
    };
    let nodes = schema.schema.nodes();
    if node >= nodes.len() || node >= schema.paths.len() {
        return Ok(Value::Null);
    }
    let mut words = String::new(alloc);
    push_type_of(&mut words, nodes, Some(node))?;
    let path = pointer(alloc, &schema.paths[node])?;
    json!(in alloc; {"node": node, "type": words, "path": path})
}

/// Returns a position as JSON; null where there is none.
fn position_value(position: Option<usize>) -> Value {
    match position {
        Some(position) => Value::from(position),
        None => Value::Null,
    }
}

/// Returns the position of a branch of the writer's union, or of a symbol of its enum; `None` for other parts.
fn part_position(part: Part) -> Option<usize> {
    match part {
        Part::Branch(position) | Part::Symbol(position) => Some(position),
        _ => None,
    }
}

/// Returns a text as JSON; null where there is none.
fn text_value(alloc: Global, text: Option<&str>) -> Result<Value, AllocError> {
    match text {
        Some(text) => Ok(Value::String(String::from_str(alloc, text)?)),
        None => Ok(Value::Null),
    }
}

/// Returns the default that a line's part takes, as JSON; null where it takes none.
fn default_value(
    alloc: Global,
    both: &Both,
    holder: Holder,
    line: &Line,
) -> Result<Value, AllocError> {
    if line.fate != Fate::Default {
        return Ok(Value::Null);
    }
    match line.part {
        Part::Field {
            reader: Some(position),
            ..
        } => match default_of(alloc, both.reader, holder.reader, position)? {
            Some(value) => Ok(value.clone()?),
            None => Ok(Value::Null),
        },
        _ => text_value(alloc, default_symbol(both, holder)),
    }
}

/// Returns a line as a JSON object.
fn line_value(
    alloc: Global,
    both: &Both,
    holder: Holder,
    line: &Line,
) -> Result<Value, AllocError> {
    let writer = node_value(alloc, both.writer, line.writer)?;
    let reader = node_value(alloc, both.reader, line.reader)?;
    let name = text_value(alloc, part_name(both, holder, line.part))?;
    let renamed = text_value(alloc, old_name(both, holder, line.part))?;
    let position = position_value(part_position(line.part));
    let branch = position_value(line.branch);
    let default = default_value(alloc, both, holder, line)?;
    let kind = match line.fate {
        Fate::Mismatch(kind) => text_value(alloc, Some(kind.name()))?,
        _ => Value::Null,
    };
    let depth = line.depth;
    let part = part_word(line.part);
    let fate = fate_word(line.fate);
    json!(in alloc; {"depth": depth, "part": part, "position": position, "name": name, "renamed_from": renamed, "fate": fate, "kind": kind, "branch": branch, "default": default, "writer": writer, "reader": reader})
}

/// Returns the lines as one JSON value, with a newline after it.
fn json_of(alloc: Global, both: &Both, lines: &[Line]) -> Result<String, AllocError> {
    let mut values = Vec::new(alloc);
    let mut holders = Holders {
        levels: Vec::new(alloc),
    };
    for line in lines {
        let value = line_value(alloc, both, holders.of(line.depth), line)?;
        values.push(value)?;
        holders.note(line)?;
    }
    let mut text = Value::Array(values).to_string(alloc)?;
    text.push_str("\n")?;
    Ok(text)
}

/// Returns what becomes of every part of a message that the schema in the first line writes and the one in the second
/// reads. Where a line is no schema the report says so, and the verdict is no.
pub fn explain_report(
    alloc: Global,
    form: Form,
    first: &[u8],
    second: &[u8],
) -> Result<Report, AllocError> {
    let writer = match read_schema(alloc, first, 1) {
        Ok(read) => read,
        Err(refusal) => return refused(alloc, refusal, first),
    };
    let reader = match read_schema(alloc, second, 2) {
        Ok(read) => read,
        Err(refusal) => return refused(alloc, refusal, second),
    };
    let lines = explain(alloc, writer.schema.nodes(), reader.schema.nodes())?;
    let both = Both {
        writer: &writer,
        reader: &reader,
    };
    let text = match form {
        Form::Tree => tree_of(alloc, &both, &lines)?,
        Form::Json => json_of(alloc, &both, &lines)?,
        Form::Pair { writer, reader } => return pair_of(alloc, &both, &lines, writer, reader),
    };
    Ok(Report {
        text,
        verdict: Verdict::Yes,
    })
}
