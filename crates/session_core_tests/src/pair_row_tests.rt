//! Rows of pairs that are filled, and those that are full.

use crate::again::{parsed, published, row_for};
use crate::same::same;
use crate::texts::{push_fields, push_rows};
use avro_schema::{Schema, SchemaError};
use session_core::{PairRow, PublishError};
use std::alloc::{AllocError, Global};
use std::test::Fail;

/// Returns how many instructions the program of a pair has.
fn len_of(row: &PairRow, writer: &Schema, reader: &Schema) -> Result<usize, PublishError> {
    Ok(published(row, writer, reader)?.program().len())
}

/// Returns the text that a part of a line names: one of `push_rows` or `push_fields`, or the part itself.
fn text_of(alloc: Global, part: &str) -> Result<String, AllocError> {
    let mut text = String::new(alloc);
    match part {
        "one row" => push_rows(&mut text, 1)?,
        "many rows" => push_rows(&mut text, 648)?,
        "many fields" => push_fields(&mut text, 200)?,
        _ => text.push_str(part)?,
    }
    Ok(text)
}

/// Returns the schema of a part of a line.
fn schema_of(alloc: Global, part: &str) -> Result<Schema, SchemaError> {
    let text = text_of(alloc, part)?;
    parsed(alloc, &text)
}

/// Returns what comes of the pair of two parts of a line.
fn answer_of(
    alloc: Global,
    row: &PairRow,
    writer: &str,
    reader: &str,
) -> Result<Result<usize, PublishError>, SchemaError> {
    let writer = schema_of(alloc, writer)?;
    let reader = schema_of(alloc, reader)?;
    Ok(len_of(row, &writer, &reader))
}

/// Appends a line: how many instructions a program has, or that these are many, or why there is none.
fn push_answer(text: &mut String, answer: Result<usize, PublishError>) -> Result<(), Fail> {
    match answer {
        Ok(len) if len < 10 => Ok(write!(text, "{len}\n")?),
        Ok(_) => Ok(text.push_str("many\n")?),
        Err(PublishError::NoMemory) => Err(PublishError::NoMemory.into()),
        Err(error) => Ok(write!(text, "{}\n", error.name())?),
    }
}

/// Appends a line with the answer for its pair.
fn push_answered(alloc: Global, text: &mut String, row: &PairRow, line: &str) -> Result<(), Fail> {
    let (writer, rest) = line.split_once('|').unwrap_or((line, ""));
    let (reader, _answer) = rest.split_once('|').unwrap_or((rest, ""));
    write!(text, "{writer}|{reader}|")?;
    push_answer(text, answer_of(alloc, row, writer, reader)?)
}

/// Returns lines with the answers for their pairs, in a row of this number of cells.
fn answered(alloc: Global, cells: usize, lines: &str) -> Result<String, Fail> {
    let row = row_for(alloc, cells)?;
    let mut text = String::new(alloc);
    for line in lines.lines() {
        push_answered(alloc, &mut text, &row, line)?;
    }
    Ok(text)
}

/// Pairs of a row of one cell.
const ONE_CELL: &str = r#""int"|"int"|2
{"type":"array","items":"int"}|{"type":"array","items":"int"}|Clash
"int"|{"type":"array","items":"int"}|Clash
"int"|"int"|2
 { "type" : "int" } | { "type" : "int" } |Clash
"#;

#[test]
fn one_cell_holds_one_pair(rt: HostRuntime) -> Result<(), Fail> {
    let found = answered(rt.alloc(), 1, ONE_CELL)?;
    same(&rt, found.as_str(), ONE_CELL);
    Ok(())
}

/// Pairs of a row of two cells.
const TWO_CELLS: &str = r#"{"type":"array","items":"int"}|{"type":"array","items":"int"}|5
"int"|"long"|2
{ "items" : "int" , "type" : "array" }|{ "items" : "int" , "type" : "array" }|5
"int"|"long"|2
"long"|"long"|Clash
"#;

/// A pair of a row without cells.
const NO_CELLS: &str = "\"int\"|\"int\"|Clash\n";

#[test]
fn each_pair_has_its_own_cell(rt: HostRuntime) -> Result<(), Fail> {
    let found = answered(rt.alloc(), 2, TWO_CELLS)?;
    same(&rt, found.as_str(), TWO_CELLS);
    let none = answered(rt.alloc(), 0, NO_CELLS)?;
    same(&rt, none.as_str(), NO_CELLS);
    Ok(())
}

/// Pairs of a row of one cell, of which the first has a program that is too large.
const TOO_LARGE: &str = "\
many rows|many fields|ProgramTooLarge
one row|many fields|many
many rows|many fields|Clash
";

#[test]
fn no_cell_is_filled_by_a_pair_without_program(rt: HostRuntime) -> Result<(), Fail> {
    let found = answered(rt.alloc(), 1, TOO_LARGE)?;
    same(&rt, found.as_str(), TOO_LARGE);
    Ok(())
}
