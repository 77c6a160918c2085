//! The message by one transcoder, which keeps its room and that of its outcome.

use crate::error::BenchError;
use crate::figures::{Measured, Stopwatch};
use crate::message::{MESSAGE, OUTPUT, READER, WRITER};
use avro_bytes::Outcome;
use avro_schema::Schema;
use machine::Transcoder;
use std::alloc::Global;
use std::time::Clock;

/// Returns whether a transcoder makes the output of the message, which replaces another outcome.
fn is_answered(transcoder: &mut Transcoder<'_>, outcome: &mut Outcome) -> bool {
    if transcoder.transcode_over(MESSAGE, outcome).is_err() {
        return false;
    }
    match outcome {
        Outcome::Done(output) => output.as_slice() == OUTPUT,
        _ => false,
    }
}

/// Transcodes the message `sessions` times. Returns how many outputs were correct.
fn transcode_all(alloc: Global, transcoder: &mut Transcoder<'_>, sessions: u64) -> u64 {
    let mut outcome = Outcome::Done(Vec::new(alloc));
    let mut right = 0_u64;
    for _ in 0..sessions {
        if is_answered(transcoder, &mut outcome) {
            right = right.wrapping_add(1);
        }
    }
    right
}

/// Measures `sessions` messages by one transcoder.
pub(crate) fn measure<R: Clock>(
    rt: &R,
    alloc: Global,
    sessions: u64,
) -> Result<Measured, BenchError> {
    let (Ok(writer), Ok(reader)) = (Schema::parse(alloc, WRITER), Schema::parse(alloc, READER))
    else {
        return Err(BenchError::Refused);
    };
    let Ok(mut transcoder) = Transcoder::new(alloc, writer.nodes(), reader.nodes()) else {
        return Err(BenchError::Refused);
    };
    let watch = Stopwatch::start(rt);
    let right = transcode_all(alloc, &mut transcoder, sessions);
    watch.measured(rt, right)
}
