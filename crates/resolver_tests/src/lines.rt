//! Answers as lines, as the rows have them.

use crate::again::{outcome, read_again, written};
use avro_datum::PayloadError;
use avro_schema::{Datum, Kind, Nodes};
use resolver::{MOST_OUTPUT, Outcome, Route, partners, routes};
use std::alloc::{AllocError, Global};
use std::fmt::Debug;

/// Returns these words.
pub(crate) fn words_line(alloc: Global, words: &str) -> Result<String, AllocError> {
    String::from_str(alloc, words)
}

/// Returns a value as it is printed where something goes wrong.
pub(crate) fn debug_line<T: Debug + Drop>(alloc: Global, value: T) -> Result<String, AllocError> {
    format!(in alloc; "{value:?}")
}

/// Returns bytes in hexadecimal after a word, or `-` where there are none.
fn hex_line(alloc: Global, word: &str, bytes: &[u8]) -> Result<String, AllocError> {
    let digits = hex::encode(alloc, bytes)?;
    let none = if bytes.is_empty() { "-" } else { "" };
    format!(in alloc; "{word} {none}{digits}")
}

/// Returns the bytes of a row, which are in hexadecimal, or `-` for none.
pub(crate) fn bytes_of(alloc: Global, digits: &str) -> Result<Vec<u8>, AllocError> {
    match hex::decode(alloc, digits.trim_start_matches('-')) {
        Ok(bytes) => Ok(bytes),
        Err(_) => Err(AllocError),
    }
}

/// Returns what a datum is written as after a byte that was there.
fn written_line(alloc: Global, datum: &Datum) -> Result<String, AllocError> {
    let mut out = vec![in alloc; 9u8]?;
    let done = written(datum, &mut out);
    match (done, out.strip_prefix(&[9])) {
        (Ok(()), Some(bytes)) => hex_line(alloc, "written", bytes),
        (Err(error), Some([])) => format!(in alloc; "{error}"),
        _ => words_line(alloc, "written over"),
    }
}

/// Returns what is reported of a text that would be written too large.
pub(crate) fn longest_line(alloc: Global) -> Result<String, AllocError> {
    let piece = "0123456789abcdef0123456789abcdef0123456789abcdef0123456789abcdef";
    let longest = Datum::Text(piece.repeat(alloc, MOST_OUTPUT / 64)?);
    written_line(alloc, &longest)
}

/// Returns what a payload's datum is written as, or the first fault.
pub(crate) fn payload_line(
    alloc: Global,
    nodes: &Nodes,
    payload: &[u8],
) -> Result<String, AllocError> {
    match read_again(alloc, nodes, payload) {
        Ok(datum) => written_line(alloc, &datum),
        Err(error) => format!(in alloc; "{error}"),
    }
}

/// Returns the outcome of a payload.
pub(crate) fn outcome_line(
    alloc: Global,
    writer: &Nodes,
    reader: &Nodes,
    payload: &[u8],
) -> Result<String, AllocError> {
    match outcome(alloc, writer, reader, payload) {
        Ok(Outcome::Done(bytes)) => hex_line(alloc, "done", &bytes),
        Ok(Outcome::Mismatch(found)) => {
            let (writer, reader) = (found.writer_node, found.reader_node);
            format!(in alloc; "mismatch {} {writer} {reader}", found.kind.name())
        }
        Ok(Outcome::Malformed { kind, at }) => {
            format!(in alloc; "malformed {} at {at}", kind.name())
        }
        Ok(Outcome::OutputTooLarge) => words_line(alloc, "output too large"),
        Err(error) => format!(in alloc; "{error}"),
    }
}

/// Returns whether a payload that is read twice is one datum, which is written as it.
pub(crate) fn alike(alloc: Global, nodes: &Nodes, payload: &[u8]) -> Result<bool, PayloadError> {
    let datum = read_again(alloc, nodes, payload)?;
    let mut out = Vec::new(alloc);
    let done = written(&datum, &mut out);
    let again = read_again(alloc, nodes, payload);
    Ok(done == Ok(()) && out.as_slice() == payload && again == Ok(datum))
}

/// Returns whether all of a writer's fields go to the reader's at the same positions.
fn are_in_order(partners: &[Option<usize>], routes: &[Route]) -> bool {
    if partners.len() != routes.len() {
        return false;
    }
    for position in 0..routes.len() {
        if partners[position] != Some(position) || routes[position].partner.is_none() {
            return false;
        }
    }
    true
}

/// Returns whether two first nodes are records, and all of the writer's fields go to the reader's at the same
/// positions.
pub(crate) fn in_order(alloc: Global, writer: &Nodes, reader: &Nodes) -> Result<bool, AllocError> {
    writer.is_well_formed();
    reader.is_well_formed();
    let (Kind::Record { fields: ws, .. }, Kind::Record { fields: rs, .. }) = (
        writer.kind(0),
        reader.kind(0),
    ) else {
        return Ok(false);
    };
    let partners = partners(alloc, ws, rs)?;
    let routes = routes(alloc, ws, rs)?;
    Ok(are_in_order(&partners, &routes) && partners.len() == ws.len())
}
