//! What is wrong with pairs of schemas, row by row.

mod rows;

ghost use Rattle.std.specs.Prelude.{◌<◌, length};

use avro_schema::{Nodes, Schema, SchemaError};
use rows::{BAD, SAFE};
use schema_check::{
    BadPair, Check, MismatchKind, NodePair, all_lacking, all_missing, check_pair, way_to,
};
use std::alloc::{AllocError, Global};
use std::process::Abort;

/// Appends the pairs of a way.
fn push_way(text: &mut String, way: &[NodePair]) -> Result<(), AllocError> {
    for pair in way {
        write!(text, " {}/{}", pair.writer_node, pair.reader_node)?;
    }
    Ok(())
}

/// Appends the positions of what a bad pair is bad for, where it is of fields or symbols.
fn push_details(
    alloc: Global,
    text: &mut String,
    writer: &Nodes,
    reader: &Nodes,
    bad: &BadPair,
) -> Result<(), AllocError>
    requires writer { bad.now.writer_node < length writer.now }
    requires reader { bad.now.reader_node < length reader.now }
{
    let (w, r) = (bad.writer_node, bad.reader_node);
    match bad.kind {
        MismatchKind::NoDefault => {
            let positions = all_lacking(alloc, writer, w, reader, r)?;
            write!(text, " fields {positions:?}")
        }
        MismatchKind::NoSymbol => {
            let positions = all_missing(alloc, writer, w, reader, r)?;
            write!(text, " symbols {positions:?}")
        }
        _ => Ok(()),
    }
}

/// Returns a line of the bad pairs of a writer's and a reader's nodes.
fn bad_line(alloc: Global, writer: &Nodes, reader: &Nodes) -> Result<String, AllocError> {
    let mut text = String::from_str(alloc, "->")?;
    let check = check_pair(alloc, writer, reader)?;
    for bad in &check.bad {
        let kind = bad.kind.name();
        write!(text, " {kind}")?;
        let way = way_to(alloc, &check, writer, reader, bad.place)?;
        push_way(&mut text, &way)?;
        push_details(alloc, &mut text, writer, reader, bad)?;
        text.push_str(";")?;
    }
    Ok(text)
}

/// Returns a schema, parsed again where memory ran out the first time.
fn parsed(alloc: Global, text: &str) -> Result<Schema, SchemaError> {
    match Schema::parse(alloc, text) {
        Err(SchemaError::NoMemory) => Schema::parse(alloc, text),
        answer => answer,
    }
}

/// Returns the line of a writer's and a reader's schema, made again where memory ran out the first time.
fn answer(alloc: Global, writer: &str, reader: &str) -> Result<String, AllocError> {
    match (&parsed(alloc, writer), &parsed(alloc, reader)) {
        (Ok(w), Ok(r)) => match bad_line(alloc, w.nodes(), r.nodes()) {
            Err(AllocError) => bad_line(alloc, w.nodes(), r.nodes()),
            line => line,
        },
        (Err(fault), _) | (_, Err(fault)) => String::from_str(alloc, fault.name()),
    }
}

/// Checks that each row, of which empty lines part the rows, is answered by its last line.
fn assert_rows(rt: &(impl Abort + AllocGlobal), rows: &str) -> Result<(), AllocError> {
    for row in rows.split("\n\n") {
        let (writer, rest) = row.split_once('\n').unwrap_or((row, ""));
        let (reader, want) = rest.split_once('\n').unwrap_or((rest, ""));
        let found = answer(rt.alloc(), writer, reader)?;
        assert_eq!(rt; found.as_str(), want, "{writer}");
    }
    Ok(())
}

#[test]
fn safe_pairs_have_no_bad_ones(rt: HostRuntime) -> Result<(), AllocError> {
    assert_rows(&rt, SAFE)
}

#[test]
fn bad_pairs_are_listed_in_order(rt: HostRuntime) -> Result<(), AllocError> {
    assert_rows(&rt, BAD)
}
