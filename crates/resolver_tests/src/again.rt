//! Calls that are made again where memory ran out the first time.

use crate::lines::in_order;
use avro_datum::{PayloadError, WriteError, read_all, write};
use avro_schema::{Datum, Nodes, Schema, SchemaError};
use resolver::{Outcome, ResolveError, TranscodeError, can_read, resolve, transcode_tree};
use std::alloc::{AllocError, Global};

/// Returns a text's schema, parsed again where memory ran out the first time.
pub(crate) fn parsed(alloc: Global, text: &str) -> Result<Schema, SchemaError> {
    match Schema::parse(alloc, text) {
        Err(SchemaError::NoMemory) => Schema::parse(alloc, text),
        answer => answer,
    }
}

/// Returns a payload's datum, read again where memory ran out the first time.
pub(crate) fn read_again(
    alloc: Global,
    nodes: &Nodes,
    payload: &[u8],
) -> Result<Datum, PayloadError> {
    match read_all(alloc, nodes, payload) {
        Err(PayloadError::NoMemory) => read_all(alloc, nodes, payload),
        answer => answer,
    }
}

/// Appends a datum, again where memory ran out the first time.
pub(crate) fn written(datum: &Datum, out: &mut Vec<u8>) -> Result<(), WriteError> {
    match write(datum, out) {
        Err(WriteError::NoMemory) => write(datum, out),
        answer => answer,
    }
}

/// Returns whether a reader is safe with a writer, asked again where memory ran out the first time.
pub(crate) fn readable(alloc: Global, writer: &Nodes, reader: &Nodes) -> Result<bool, AllocError> {
    match can_read(alloc, writer, reader) {
        Err(AllocError) => can_read(alloc, writer, reader),
        answer => answer,
    }
}

/// Returns an outcome, asked again where memory ran out the first time.
pub(crate) fn outcome(
    alloc: Global,
    writer: &Nodes,
    reader: &Nodes,
    payload: &[u8],
) -> Result<Outcome, TranscodeError> {
    match transcode_tree(alloc, writer, reader, payload) {
        Err(TranscodeError::NoMemory) => transcode_tree(alloc, writer, reader, payload),
        answer => answer,
    }
}

/// Returns what a reader makes of a payload's datum, or of none where the payload is not read.
fn resolved_once(
    alloc: Global,
    w: &Nodes,
    r: &Nodes,
    payload: &[u8],
) -> Result<Datum, ResolveError> {
    match read_again(alloc, w, payload) {
        Ok(datum) => resolve(alloc, w, r, datum),
        Err(_) => resolve(alloc, w, r, Datum::Null),
    }
}

/// Returns what `resolved_once` returns, asked again where memory ran out the first time.
pub(crate) fn resolved(
    alloc: Global,
    writer: &Nodes,
    reader: &Nodes,
    payload: &[u8],
) -> Result<Datum, ResolveError> {
    match resolved_once(alloc, writer, reader, payload) {
        Err(ResolveError::NoMemory) => resolved_once(alloc, writer, reader, payload),
        answer => answer,
    }
}

/// Returns whether all of a writer's fields go to the reader's at the same positions, asked again where memory ran out
/// the first time.
pub(crate) fn ordered(alloc: Global, writer: &Nodes, reader: &Nodes) -> Result<bool, AllocError> {
    match in_order(alloc, writer, reader) {
        Err(AllocError) => in_order(alloc, writer, reader),
        answer => answer,
    }
}
