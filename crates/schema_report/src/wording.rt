//! The words of a line of an explanation: which part it is of, and what becomes of it.
//!
//! No clause says what they are: the tests of `schema_tests` do.

use crate::reading::PathedSchema;
use crate::types::push_type;
use avro_schema_paths::pointer;
use avro_types::{Field, Kind, Nodes, Symbols};
use schema_explain::{Fate, Line, MismatchKind, Part};
use serde_json::Value;
use std::alloc::{AllocError, Global};
use std::fmt::Write;

/// The two schemas of an explanation.
#[derive(Clone, Copy)]
pub(crate) struct Both<'s> {
    pub(crate) writer: &'s PathedSchema,
    pub(crate) reader: &'s PathedSchema,
}

/// Appends what a node is; nothing where there is no such node.
pub(crate) fn push_type_of(
    output: &mut String,
    nodes: &Nodes,
    node: Option<usize>,
) -> Result<(), AllocError> {
    match node {
        Some(node) if node < nodes.len() => push_type(output, nodes, node),
        _ => Ok(()),
    }
}

/// Returns the fields of a record; none where the node is no record.
fn fields_of(nodes: &Nodes, node: Option<usize>) -> &[Field] {
    match node {
        Some(node) if node < nodes.len() => match nodes.kind(node) {
            Kind::Record { fields, .. } => fields.as_slice(),
            _ => &[],
        },
        _ => &[],
    }
}

/// Returns the symbols of an enum, and the position of its default; `None` where the node is no enum.
fn enum_of(nodes: &Nodes, node: Option<usize>) -> Option<(&Symbols, Option<u32>)> {
    match node {
        Some(node) if node < nodes.len() => match nodes.kind(node) {
            Kind::Enum {
                symbols,
                default,
                ..
            } => Some((symbols, *default)),
            _ => None,
        },
        _ => None,
    }
}

/// Returns the name of the field at a position; the empty text where there is none.
fn name_at(fields: &[Field], position: Option<usize>) -> &str {
    match position {
        Some(position) if position < fields.len() => fields[position].name.as_str(),
        _ => "",
    }
}

/// The records, or the enum, that a line is a part of.
#[derive(Clone, Copy)]
pub(crate) struct Holder {
    pub(crate) writer: Option<usize>,
    pub(crate) reader: Option<usize>,
}

/// Returns the name of a line's part: a field's of the reader, and else of the writer; a symbol; `None` for other
/// parts.
pub(crate) fn part_name<'s>(both: &Both<'s>, holder: Holder, part: Part) -> Option<&'s str> {
    let (ws, rs) = (both.writer.schema.nodes(), both.reader.schema.nodes());
    match part {
        Part::Field {
            reader: Some(position),
            ..
        } => Some(name_at(fields_of(rs, holder.reader), Some(position))),
        Part::Field { writer, .. } => Some(name_at(fields_of(ws, holder.writer), writer)),
        Part::Symbol(position) => match enum_of(ws, holder.writer) {
            Some((symbols, _)) => symbols.get(position),
            None => None,
        },
        _ => None,
    }
}

/// Returns the name that the writer has for a field, where it is another one: an alias of the reader's field.
pub(crate) fn old_name<'s>(both: &Both<'s>, holder: Holder, part: Part) -> Option<&'s str> {
    let Part::Field {
        writer: Some(from),
        reader: Some(to),
    } = part
    else {
        return None;
    };
    let old = name_at(
        fields_of(both.writer.schema.nodes(), holder.writer),
        Some(from),
    );
    let new = name_at(
        fields_of(both.reader.schema.nodes(), holder.reader),
        Some(to),
    );
    if old == new {
        return None;
    }
    Some(old)
}

/// The most objects that may wrap a record's declaration, which is how deep JSON may nest here.
const MOST_WRAPPERS: usize = 128;

/// Returns the fields that a value lists, which declares a record or wraps one; `None` where it does not.
fn listed_fields(value: &Value) -> Option<&Value> {
    let mut value = value;
    for _wrapper in 0..MOST_WRAPPERS {
        if let Some(fields) = value.get("fields") {
            return Some(fields);
        }
        value = value.get("type")?;
    }
    None
}

/// Returns the JSON value of the default of the field at a position of a reader's record; `None` where there is none.
pub(crate) fn default_of<'s>(
    alloc: Global,
    reader: &'s PathedSchema,
    record: Option<usize>,
    position: usize,
) -> Result<Option<&'s Value>, AllocError> {
    let Some(node) = record else {
        return Ok(None);
    };
    if node >= reader.paths.len() {
        return Ok(None);
    }
    let text = pointer(alloc, &reader.paths[node])?;
    let Some(value) = reader.value.pointer(&text) else {
        return Ok(None);
    };
    let field = listed_fields(value).and_then(|fields| fields.get(position));
    Ok(field.and_then(|field| field.get("default")))
}

/// Returns the symbol that a reader's enum takes for those that it lacks; `None` where it takes none.
pub(crate) fn default_symbol<'s>(both: &Both<'s>, holder: Holder) -> Option<&'s str> {
    match enum_of(both.reader.schema.nodes(), holder.reader) {
        Some((symbols, Some(position))) => symbols.get(position as usize),
        _ => None,
    }
}

/// Appends which part a line is of.
fn push_part(
    output: &mut String,
    both: &Both,
    holder: Holder,
    line: &Line,
) -> Result<(), AllocError> {
    match line.part {
        Part::Root => output.push_str("message"),
        Part::Item => output.push_str("each item"),
        Part::Value => output.push_str("each value"),
        Part::Branch(position) => {
            write!(output, "branch {position}, ")?;
            push_type_of(output, both.writer.schema.nodes(), line.writer)
        }
        Part::Field { .. } | Part::Symbol(_) => {
            output.push_str(part_name(both, holder, line.part).unwrap_or(""))?;
            match old_name(both, holder, line.part) {
                Some(old) => write!(output, ", renamed from {old}"),
                None => Ok(()),
            }
        }
    }
}

/// Appends the types that a part has on both sides, once where they are one.
fn push_types(
    alloc: Global,
    output: &mut String,
    both: &Both,
    line: &Line,
) -> Result<(), AllocError> {
    let (ws, rs) = (both.writer.schema.nodes(), both.reader.schema.nodes());
    let mut old = String::new(alloc);
    push_type_of(&mut old, ws, line.writer)?;
    let mut new = String::new(alloc);
    push_type_of(&mut new, rs, line.reader)?;
    if old == new {
        return output.push_str(&new);
    }
    write!(output, "{old} to {new}")
}

/// Appends the default that a reader takes: the JSON of a field's, or a symbol.
fn push_default(
    alloc: Global,
    output: &mut String,
    both: &Both,
    holder: Holder,
    part: Part,
) -> Result<(), AllocError> {
    output.push_str("default ")?;
    match part {
        Part::Field {
            reader: Some(position),
            ..
        } => match default_of(alloc, both.reader, holder.reader, position)? {
            Some(value) => {
                let text = value.to_string(alloc)?;
                output.push_str(&text)
            }
            None => Ok(()),
        },
        _ => output.push_str(default_symbol(both, holder).unwrap_or("")),
    }
}

/// Appends a mismatch as `transcode` prints it: its kind, and the nodes.
fn push_mismatch(output: &mut String, kind: MismatchKind, line: &Line) -> Result<(), AllocError> {
    let kind = kind.name();
    let (w, r) = (line.writer.unwrap_or(0), line.reader.unwrap_or(0));
    write!(output, "mismatch {kind} {w} {r}")
}

/// Appends what becomes of a line's part.
fn push_fate(
    alloc: Global,
    output: &mut String,
    both: &Both,
    holder: Holder,
    line: &Line,
) -> Result<(), AllocError> {
    match line.fate {
        Fate::Copied => {
            output.push_str("copied")?;
            if matches!(line.part, Part::Symbol(_)) {
                return Ok(());
            }
            output.push_str(", ")?;
            push_types(alloc, output, both, line)
        }
        Fate::Promoted => {
            output.push_str("promoted, ")?;
            push_types(alloc, output, both, line)
        }
        Fate::PromotedIfText => {
            output.push_str("promoted, bytes to string, where they are UTF-8; else ")?;
            push_mismatch(output, MismatchKind::BytesNotText, line)
        }
        Fate::Parts => push_types(alloc, output, both, line),
        Fate::AsAbove => {
            push_types(alloc, output, both, line)?;
            output.push_str(", as above")
        }
        Fate::Default => push_default(alloc, output, both, holder, line.part),
        Fate::Dropped => {
            output.push_str("dropped, ")?;
            push_type_of(output, both.writer.schema.nodes(), line.writer)
        }
        Fate::Mismatch(kind) => push_mismatch(output, kind, line),
    }
}

/// Appends a line without its indentation: which part it is of, the branch that it goes into, and what becomes of it.
pub(crate) fn push_words(
    alloc: Global,
    output: &mut String,
    both: &Both,
    holder: Holder,
    line: &Line,
) -> Result<(), AllocError> {
    push_part(output, both, holder, line)?;
    output.push_str(": ")?;
    if let Some(branch) = line.branch {
        write!(output, "into branch {branch}, ")?;
    }
    push_fate(alloc, output, both, holder, line)?;
    output.push_str("\n")
}
