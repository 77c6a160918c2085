//! Answers in words, as the rows have them.

use crate::again::{Pair, transcoded};
use machine::{EndView, Outcome, PairError, TranscodeError};
use program_compiler::CompileError;
use std::alloc::{AllocError, Global};

/// Returns an output in words.
fn done_words(alloc: Global, bytes: &[u8]) -> Result<String, AllocError> {
    let hex = hex::encode(alloc, bytes)?;
    format!(in alloc; "done {hex}")
}

/// Returns the outcome of a payload in words.
pub(crate) fn outcome_words(alloc: Global, outcome: &Outcome) -> Result<String, AllocError> {
    match outcome {
        Outcome::Done(bytes) => done_words(alloc, bytes.as_slice()),
        Outcome::Mismatch(found) => {
            let kind = found.kind.name();
            format!(in alloc;
                "mismatch {kind} {} {}",
                found.writer_node, found.reader_node
            )
        }
        Outcome::Malformed { kind, at } => {
            let kind = kind.name();
            format!(in alloc; "malformed {kind} at {at}")
        }
        Outcome::OutputTooLarge => String::from_str(alloc, "output too large"),
    }
}

/// Returns the end of a run in words, or that it is still running.
pub(crate) fn end_words(alloc: Global, end: Option<EndView<'_>>) -> Result<String, AllocError> {
    match end {
        Some(EndView::Done(bytes)) => done_words(alloc, bytes),
        Some(EndView::Mismatch(found)) => outcome_words(alloc, &Outcome::Mismatch(found)),
        Some(EndView::Malformed { kind, at }) => {
            outcome_words(alloc, &Outcome::Malformed { kind, at })
        }
        Some(EndView::OutputTooLarge) => outcome_words(alloc, &Outcome::OutputTooLarge),
        Some(EndView::Trap(_)) => String::from_str(alloc, "trap"),
        None => String::from_str(alloc, "running"),
    }
}

/// Returns the outcome of a payload by itself, or why there is none, in words.
pub(crate) fn pair_words(alloc: Global, pair: &Pair, payload: &[u8]) -> Result<String, AllocError> {
    match transcoded(alloc, pair, payload) {
        Ok(outcome) => outcome_words(alloc, &outcome),
        Err(PairError::NoProgram(CompileError::ProgramTooLarge)) => {
            String::from_str(alloc, "program too large")
        }
        Err(PairError::NoOutcome(TranscodeError::TooLarge)) => {
            String::from_str(alloc, "payload too large")
        }
        Err(
            PairError::NoProgram(CompileError::NoMemory)
            | PairError::NoOutcome(TranscodeError::NoMemory),
        ) => Err(AllocError),
    }
}
