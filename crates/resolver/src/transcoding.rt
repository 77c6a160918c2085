//! The outcome of a payload on trees of data.

ghost use Rattle.spec_avro.specs.Transcoding.{Transcodes};
ghost use Rattle.resolver.specs.Outcome.{WritesOutcome};
ghost use Rattle.avro_types.specs.Datum.{datum_of};

use crate::mismatch::ResolveError;
use crate::resolving::resolve;
use avro_bytes::{MOST_PAYLOAD, Outcome};
use avro_datum::{PayloadError, WriteError, read_all, write};
use avro_types::{Datum, Nodes};
pub use spec_avro::TranscodeError;
use std::alloc::Global;

/// Encodes a resolved datum and returns the outcome: done with the bytes, or `OutputTooLarge`.
fn write_resolved(alloc: Global, resolved: &Datum) -> Result<Outcome, TranscodeError>
    ensures { WritesOutcome result (datum_of resolved.now) }
{
    let mut out = Vec::new(alloc);
    match write(resolved, &mut out) {
        Ok(()) => Ok(Outcome::Done(out)),
        Err(WriteError::TooLarge) => Ok(Outcome::OutputTooLarge),
        Err(WriteError::NoMemory) => Err(TranscodeError::NoMemory),
    }
}

/// Returns the outcome of a payload: reads it by the writer's schema, resolves the datum, and writes it by the
/// reader's.
///
/// Returns `TooLarge`, and does not read the payload, where it is longer than `MOST_PAYLOAD`.
pub fn transcode_tree(
    alloc: Global,
    writer: &Nodes,
    reader: &Nodes,
    payload: &[u8],
) -> Result<Outcome, TranscodeError>
    ensures { Transcodes writer.now reader.now payload.now result }
{
    if payload.len() > MOST_PAYLOAD {
        return Err(TranscodeError::TooLarge);
    }
    let datum = match read_all(alloc, writer, payload) {
        Ok(datum) => datum,
        Err(PayloadError::Malformed { kind, at }) => return Ok(Outcome::Malformed { kind, at }),
        Err(PayloadError::NoMemory) => return Err(TranscodeError::NoMemory),
    };
    match resolve(alloc, writer, reader, datum) {
        Ok(resolved) => write_resolved(alloc, &resolved),
        Err(ResolveError::Mismatch(mismatch)) => Ok(Outcome::Mismatch(mismatch)),
        Err(ResolveError::NoMemory) => Err(TranscodeError::NoMemory),
    }
}
