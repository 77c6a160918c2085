//! Calls that are made again where memory ran out the first time.

use avro_schema::{Schema, SchemaError};
use isa::Program;
use machine::{Outcome, PairError, PlannedProgram, Run, TranscodeError, Transcoder, transcode};
use program_compiler::{CompileError, compile};
use std::alloc::{AllocError, Global};
use std::process::Abort;

/// Returns a schema, parsed again where memory ran out the first time.
pub(crate) fn parsed(alloc: Global, text: &str) -> Result<Schema, SchemaError> {
    match Schema::parse(alloc, text) {
        Err(SchemaError::NoMemory) => Schema::parse(alloc, text),
        answer => answer,
    }
}

/// A writer's and a reader's schema.
#[derive(Drop)]
pub(crate) struct Pair {
    pub(crate) writer: Schema,
    pub(crate) reader: Schema,
}

/// Returns the schemas of two texts.
pub(crate) fn pair_of(alloc: Global, writer: &str, reader: &str) -> Result<Pair, SchemaError> {
    let writer = parsed(alloc, writer)?;
    let reader = parsed(alloc, reader)?;
    Ok(Pair { writer, reader })
}

/// Returns the program of a pair, compiled again where memory ran out the first time.
pub(crate) fn compiled(alloc: Global, pair: &Pair) -> Result<Program, CompileError> {
    let (w, r) = (pair.writer.nodes(), pair.reader.nodes());
    match compile(alloc, w, r) {
        Err(CompileError::NoMemory) => compile(alloc, w, r),
        answer => answer,
    }
}

/// Returns the program of the schemas of two texts.
pub(crate) fn program_of(
    rt: &(impl Abort + AllocGlobal),
    writer: &str,
    reader: &str,
) -> PlannedProgram {
    let pair = pair_of(rt.alloc(), writer, reader).expect(rt, "schemas");
    let program = compiled(rt.alloc(), &pair).expect(rt, "a program");
    PlannedProgram::new(rt.alloc(), program)
}

/// Returns the transcoder of a pair, made again where memory ran out the first time.
pub(crate) fn transcoder(alloc: Global, pair: &Pair) -> Result<Transcoder<'_>, CompileError> {
    let (w, r) = (pair.writer.nodes(), pair.reader.nodes());
    match Transcoder::new(alloc, w, r) {
        Err(CompileError::NoMemory) => Transcoder::new(alloc, w, r),
        answer => answer,
    }
}

/// Returns the outcome of one payload of several, asked for again where memory ran out the first time.
pub(crate) fn outcome(
    transcoder: &mut Transcoder<'_>,
    payload: &[u8],
) -> Result<Outcome, TranscodeError> {
    match transcoder.transcode(payload) {
        Err(TranscodeError::NoMemory) => transcoder.transcode(payload),
        answer => answer,
    }
}

/// Returns the outcome of one payload, asked for again where memory ran out the first time.
pub(crate) fn transcoded(alloc: Global, pair: &Pair, payload: &[u8]) -> Result<Outcome, PairError> {
    let (w, r) = (pair.writer.nodes(), pair.reader.nodes());
    match transcode(alloc, w, r, payload) {
        Err(
            PairError::NoProgram(CompileError::NoMemory)
            | PairError::NoOutcome(TranscodeError::NoMemory),
        ) => transcode(alloc, w, r, payload),
        answer => answer,
    }
}

/// Appends bytes to a run that takes some, again where memory ran out the first time.
pub(crate) fn pushed(run: &mut Run<'_>, piece: &[u8]) -> Result<(), AllocError> {
    if run.is_closed() {
        return Ok(());
    }
    match run.push(piece) {
        Err(AllocError) => run.push(piece),
        Ok(()) => Ok(()),
    }
}
