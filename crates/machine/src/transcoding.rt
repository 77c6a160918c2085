//! The outcome of one payload between two schemas.

ghost use Rattle.std.specs.Prelude.{◌≡◌, List, Ok};
ghost use Rattle.spec_avro.specs.Node.{Node};
ghost use Rattle.machine.specs.Transcoding.{Makes, TranscodesPair};
ghost use Rattle.machine.specs.declared.transcoding.PairError.TheVariants.{NoOutcome, NoProgram};

use crate::transcoder::Transcoder;
use avro_bytes::Outcome;
use avro_types::Nodes;
use program_compiler::CompileError;
use resolver::TranscodeError;
use std::alloc::Global;
use thiserror::Error;

/// Why a pair of schemas and a payload have no outcome, the first reason.
#[derive(Clone, Copy, Debug, PartialEq, Eq, Error)]
pub enum PairError {
    /// The pair has no program.
    #[error("{0}")]
    NoProgram(CompileError),
    /// The payload has no outcome.
    #[error("{0}")]
    NoOutcome(TranscodeError),
}

impl From<CompileError> for PairError {
    ghost from_gives = { λ error e. e ≡ NoProgram error };

    fn from(error: CompileError) -> PairError {
        PairError::NoProgram(error)
    }
}

impl From<TranscodeError> for PairError {
    ghost from_gives = { λ error e. e ≡ NoOutcome error };

    fn from(error: TranscodeError) -> PairError {
        PairError::NoOutcome(error)
    }
}

/// Returns the outcome of the next payload, or why there is none.
fn next_outcome(transcoder: &mut Transcoder<'_>, payload: &[u8]) -> Result<Outcome, PairError>
    ensures { (W R : List Node) → Makes W R (Ok transcoder.old) → TranscodesPair W R payload.now result }
{
    Ok(transcoder.transcode(payload)?)
}

/// Returns the outcome of one payload, by the program of its pair of schemas.
///
/// `NoProgram` with `ProgramTooLarge` where the program would pass a limit; otherwise `NoOutcome` with `TooLarge` where
/// the payload is longer than `MOST_PAYLOAD`; either with `NoMemory` where memory runs out.
pub fn transcode(
    alloc: Global,
    writer: &Nodes,
    reader: &Nodes,
    payload: &[u8],
) -> Result<Outcome, PairError>
    ensures { TranscodesPair writer.now reader.now payload.now result }
{
    let mut transcoder = Transcoder::new(alloc, writer, reader)?;
    next_outcome(&mut transcoder, payload)
}
