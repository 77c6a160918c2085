//! What texts declare, and each of their faults.

use crate::again::parsed;
use crate::repeated::push_text;
use crate::same::same;
use crate::schema_rows::{
    ALIAS_FAULTS, BAD_DEFAULTS, BOUNDS, COPIED, DEFAULTS, FAULTS, FURTHER_FAULTS, FURTHER_NAMES,
    KINDS, MARKS, TEXTS, WITH_DEFAULT, WITH_FURTHER,
};
use avro_schema::{Field, Kind, Name, Schema, SchemaError};
use std::alloc::{AllocError, Global};
use std::process::Abort;

/// What is asked of the schema of each row's text.
#[derive(Clone, Copy)]
enum Asked {
    /// The kinds of its nodes.
    Kinds,
    /// The kinds of its nodes and its compact text.
    Text,
    /// The kinds and the compact text of a copy that is left when the schema itself is dropped.
    Copy,
    /// How many nodes it has.
    Len,
    /// Which names of a further text are aliases of its nodes.
    Marks,
}

/// Returns the text of a row, in its place in a frame.
fn framed(alloc: Global, frame: &str, row: &str) -> Result<String, AllocError> {
    let (before, after) = frame.split_once('$').unwrap_or(("", frame));
    let mut text = String::from_str(alloc, before)?;
    push_text(&mut text, row)?;
    text.push_str(after)?;
    Ok(text)
}

/// Returns a copy of the schema of a text, which is left when the schema itself is dropped.
fn copied(alloc: Global, text: &str) -> Result<Schema, SchemaError> {
    let schema = parsed(alloc, text)?;
    Ok(schema.copy()?)
}

/// Appends a full name, with a slash between its namespace and its last part.
fn push_name(out: &mut String, name: &Name) -> Result<(), AllocError> {
    let namespace = name.namespace();
    let slash = if namespace.is_empty() { "" } else { "/" };
    write!(out, "{namespace}{slash}{}", name.last())
}

/// Appends the fields of a record: their names, nodes, aliases and defaults.
fn push_fields(out: &mut String, fields: &[Field]) -> Result<(), AllocError> {
    for field in fields {
        let (name, node, aliases, default) = (
            &field.name,
            field.node,
            &field.aliases,
            &field.default,
        );
        write!(out, "({name} {node} {aliases:?} {default:?})")?;
    }
    Ok(())
}

/// Appends what a node is: its kind and the nodes that it names, or its full name and its parts.
fn push_kind(out: &mut String, kind: &Kind) -> Result<(), AllocError> {
    match kind {
        Kind::Fixed { name, size, .. } => {
            push_name(out, name)?;
            write!(out, "({size})")
        }
        Kind::Enum {
            name,
            symbols,
            default,
            ..
        } => {
            push_name(out, name)?;
            write!(out, "({} {default:?})", symbols.len())
        }
        Kind::Record { name, fields, .. } => {
            push_name(out, name)?;
            push_fields(out, fields)
        }
        unnamed => write!(out, "{unnamed:?}"),
    }
}

/// Appends what the nodes of a schema are, with a space between them.
fn push_kinds(out: &mut String, schema: &Schema) -> Result<(), AllocError> {
    for node in 0..schema.len() {
        out.push_str(if node == 0 { "" } else { " " })?;
        push_kind(out, schema.kind(node))?;
    }
    Ok(())
}

/// Returns whether a full name is an alias of a kind.
fn is_alias(kind: &Kind, name: &Name) -> bool {
    match kind {
        Kind::Record { aliases, .. } | Kind::Enum { aliases, .. } | Kind::Fixed { aliases, .. } =>
            aliases.contains(name),
        _ => false,
    }
}

/// Appends for each fixed of a schema whether its name is an alias of a kind: `+`, or `-`.
fn push_marks(out: &mut String, kind: &Kind, names: &Schema) -> Result<(), AllocError> {
    for node in 0..names.len() {
        if let Kind::Fixed { name, .. } = names.kind(node) {
            out.push_str(if is_alias(kind, name) { "+" } else { "-" })?;
        }
    }
    Ok(())
}

/// Appends for each node of a schema which names of another's fixed types are its aliases, with a space between the
/// nodes.
fn push_all_marks(out: &mut String, schema: &Schema, names: &Schema) -> Result<(), AllocError> {
    for node in 0..schema.len() {
        out.push_str(if node == 0 { "" } else { " " })?;
        push_marks(out, schema.kind(node), names)?;
    }
    Ok(())
}

/// Appends for each node of a schema which names of a text's fixed types are its aliases, or the text's fault.
fn push_marks_of(
    alloc: Global,
    out: &mut String,
    schema: &Schema,
    names: &str,
) -> Result<(), AllocError> {
    match parsed(alloc, names) {
        Ok(names) => push_all_marks(out, schema, &names),
        Err(fault) => out.push_str(fault.name()),
    }
}

/// Appends what is asked of a schema.
fn push_told(
    alloc: Global,
    out: &mut String,
    asked: Asked,
    schema: &Schema,
    names: &str,
) -> Result<(), AllocError> {
    match asked {
        Asked::Kinds => push_kinds(out, schema),
        Asked::Text | Asked::Copy => {
            push_kinds(out, schema)?;
            write!(out, " = {}", schema.text())
        }
        Asked::Len => write!(out, "{}", schema.len()),
        Asked::Marks => push_marks_of(alloc, out, schema, names),
    }
}

/// Appends what is asked of a text's schema, or the first fault of the text.
fn push_answer(
    alloc: Global,
    out: &mut String,
    asked: Asked,
    text: &str,
) -> Result<(), AllocError> {
    let (text, names) = text.split_once('|').unwrap_or((text, ""));
    let schema = match asked {
        Asked::Copy => copied(alloc, text),
        _ => parsed(alloc, text),
    };
    match schema {
        Ok(schema) => push_told(alloc, out, asked, &schema, names),
        Err(fault) => out.push_str(fault.name()),
    }
}

/// Returns what is asked of the schema of a row's text, or the first fault of the text.
fn answer(alloc: Global, asked: Asked, frame: &str, row: &str) -> Result<String, AllocError> {
    let text = framed(alloc, frame, row)?;
    let mut out = String::new(alloc);
    push_answer(alloc, &mut out, asked, &text)?;
    Ok(out)
}

/// Asserts that each row is answered as it says, where its text is in a frame. Rows are lines, or, where there are
/// empty ones, separated by these.
fn assert_rows(
    rt: &(impl Abort + AllocGlobal),
    asked: Asked,
    frame: &str,
    rows: &str,
) -> Result<(), AllocError> {
    let parting = if rows.contains("\n\n") { "\n\n" } else { "\n" };
    for row in rows.split(parting) {
        let (question, want) = row.rsplit_once(" -> ").unwrap_or((row, ""));
        let found = answer(rt.alloc(), asked, frame, question)?;
        same(rt, question, &found, want);
    }
    Ok(())
}

#[test]
fn reads_texts(rt: HostRuntime) -> Result<(), AllocError> {
    assert_rows(&rt, Asked::Text, "$", TEXTS)?;
    assert_rows(&rt, Asked::Copy, "$", COPIED)
}

#[test]
fn tells_the_first_fault(rt: HostRuntime) -> Result<(), AllocError> {
    assert_rows(&rt, Asked::Kinds, "$", FAULTS)?;
    assert_rows(&rt, Asked::Kinds, "$", ALIAS_FAULTS)?;
    assert_rows(&rt, Asked::Kinds, WITH_DEFAULT, BAD_DEFAULTS)?;
    assert_rows(&rt, Asked::Kinds, WITH_FURTHER, FURTHER_FAULTS)
}

#[test]
fn numbers_nodes_and_reads_their_parts(rt: HostRuntime) -> Result<(), AllocError> {
    assert_rows(&rt, Asked::Kinds, "$", KINDS)?;
    assert_rows(&rt, Asked::Kinds, WITH_DEFAULT, DEFAULTS)?;
    assert_rows(&rt, Asked::Kinds, WITH_FURTHER, FURTHER_NAMES)
}

#[test]
fn aliases_stand_in_the_namespace_of_their_type(rt: HostRuntime) -> Result<(), AllocError> {
    assert_rows(&rt, Asked::Marks, "$", MARKS)
}

#[test]
fn bounds_what_a_schema_has(rt: HostRuntime) -> Result<(), AllocError> {
    assert_rows(&rt, Asked::Len, "$", BOUNDS)
}
