//! Calls that are made again where memory ran out the first time.

use avro_schema::{Schema, SchemaError};
use machine::PlannedProgram;
use session_core::{PairRow, Programs, PublishError};
use std::alloc::{AllocError, Global};
use std::test::Fail;

/// Returns a schema, parsed again where memory ran out the first time.
pub(crate) fn parsed(alloc: Global, text: &str) -> Result<Schema, SchemaError> {
    match Schema::parse(alloc, text) {
        Err(SchemaError::NoMemory) => Schema::parse(alloc, text),
        answer => answer,
    }
}

/// Returns a row for `pairs` pairs, made again where memory ran out the first time.
pub(crate) fn row_for(alloc: Global, pairs: usize) -> Result<PairRow, AllocError> {
    match PairRow::new(alloc, pairs) {
        Err(_) => PairRow::new(alloc, pairs),
        answer => answer,
    }
}

/// Returns the program of a pair, asked for again where memory ran out the first time.
pub(crate) fn published<'r>(
    row: &'r PairRow,
    writer: &Schema,
    reader: &Schema,
) -> Result<&'r PlannedProgram, PublishError> {
    match row.publish(writer, reader) {
        Err(PublishError::NoMemory) => row.publish(writer, reader),
        answer => answer,
    }
}

/// Returns the program of a pair of texts, as `parsed` and `published` return it.
pub(crate) fn published_of<'r>(
    alloc: Global,
    row: &'r PairRow,
    writer: &str,
    reader: &str,
) -> Result<&'r PlannedProgram, Fail> {
    let writer = parsed(alloc, writer)?;
    let reader = parsed(alloc, reader)?;
    Ok(published(row, &writer, &reader)?)
}
