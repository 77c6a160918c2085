//! What becomes of the parts of messages, row by row.

mod rows;

use avro_schema::{Schema, SchemaError};
use rows::{ENUMS, LEAVES, NESTED, RECORDS, UNIONS};
use schema_explain::{Fate, Line, Part, explain};
use std::alloc::{AllocError, Global};
use std::process::Abort;

/// Appends a number, or a dash where there is none.
fn push_number(text: &mut String, number: Option<usize>) -> Result<(), AllocError> {
    match number {
        Some(n) => write!(text, "{n}"),
        None => text.push_str("-"),
    }
}

/// Appends two numbers, with the sign from one to the other.
fn push_both(
    text: &mut String,
    writer: Option<usize>,
    reader: Option<usize>,
) -> Result<(), AllocError> {
    push_number(text, writer)?;
    text.push_str(">")?;
    push_number(text, reader)
}

/// Appends what a part is.
fn push_part(text: &mut String, part: Part) -> Result<(), AllocError> {
    match part {
        Part::Root => text.push_str("root"),
        Part::Field { writer, reader } => {
            text.push_str("field ")?;
            push_both(text, writer, reader)
        }
        Part::Item => text.push_str("item"),
        Part::Value => text.push_str("value"),
        Part::Branch(position) => write!(text, "branch {position}"),
        Part::Symbol(position) => write!(text, "symbol {position}"),
    }
}

/// Appends what becomes of a part.
fn push_fate(text: &mut String, fate: Fate) -> Result<(), AllocError> {
    match fate {
        Fate::Copied => text.push_str("copied"),
        Fate::Promoted => text.push_str("promoted"),
        Fate::PromotedIfText => text.push_str("promoted if text"),
        Fate::Parts => text.push_str("parts"),
        Fate::AsAbove => text.push_str("as above"),
        Fate::Default => text.push_str("default"),
        Fate::Dropped => text.push_str("dropped"),
        Fate::Mismatch(kind) => {
            let name = kind.name();
            write!(text, "mismatch {name}")
        }
    }
}

/// Appends a line.
fn push_line(text: &mut String, line: &Line) -> Result<(), AllocError> {
    for _step in 0..line.depth {
        text.push_str("  ")?;
    }
    push_part(text, line.part)?;
    text.push_str(" ")?;
    push_both(text, line.writer, line.reader)?;
    if let Some(branch) = line.branch {
        write!(text, " into {branch}")?;
    }
    text.push_str(" ")?;
    push_fate(text, line.fate)
}

/// Returns the lines of two schemas, as text.
fn lines_of(alloc: Global, writer: &Schema, reader: &Schema) -> Result<String, AllocError> {
    let mut text = String::new(alloc);
    let lines = explain(alloc, writer.nodes(), reader.nodes())?;
    for line in &lines {
        if !text.is_empty() {
            text.push_str("\n")?;
        }
        push_line(&mut text, line)?;
    }
    Ok(text)
}

/// Returns a schema, parsed again where memory ran out the first time.
fn parsed(alloc: Global, text: &str) -> Result<Schema, SchemaError> {
    match Schema::parse(alloc, text) {
        Err(SchemaError::NoMemory) => Schema::parse(alloc, text),
        answer => answer,
    }
}

/// Returns the lines of a writer's and a reader's schema, made again where memory ran out the first time.
fn answer(alloc: Global, writer: &str, reader: &str) -> Result<String, AllocError> {
    match (&parsed(alloc, writer), &parsed(alloc, reader)) {
        (Ok(w), Ok(r)) => match lines_of(alloc, w, r) {
            Err(AllocError) => lines_of(alloc, w, r),
            text => text,
        },
        (Err(fault), _) | (_, Err(fault)) => String::from_str(alloc, fault.name()),
    }
}

/// Checks that each row, of which empty lines part the rows, is answered by its lines after the two schemas.
fn assert_rows(rt: &(impl Abort + AllocGlobal), rows: &str) -> Result<(), AllocError> {
    for row in rows.split("\n\n") {
        let (writer, rest) = row.split_once('\n').unwrap_or((row, ""));
        let (reader, want) = rest.split_once('\n').unwrap_or((rest, ""));
        let found = answer(rt.alloc(), writer, reader)?;
        assert_eq!(rt; found.as_str(), want, "{writer}");
    }
    Ok(())
}

#[test]
fn leaves_are_copied_or_promoted(rt: HostRuntime) -> Result<(), AllocError> {
    assert_rows(&rt, LEAVES)
}

#[test]
fn unions_are_explained_by_their_branches(rt: HostRuntime) -> Result<(), AllocError> {
    assert_rows(&rt, UNIONS)
}

#[test]
fn enums_are_explained_by_their_symbols(rt: HostRuntime) -> Result<(), AllocError> {
    assert_rows(&rt, ENUMS)
}

#[test]
fn records_are_explained_by_their_fields(rt: HostRuntime) -> Result<(), AllocError> {
    assert_rows(&rt, RECORDS)
}

#[test]
fn parts_recur_as_above(rt: HostRuntime) -> Result<(), AllocError> {
    assert_rows(&rt, NESTED)
}
