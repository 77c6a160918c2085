//! Transcodes messages in process. The first two lines of an input are the writer's schema and the reader's, and then
//! comes the container of the messages. All of them are transcoded a number of times by one transcoder, and it is
//! printed how many were answered by bytes, and how many bytes; or once, and the container of the answers is printed.

use crate::messages::{Messages, put_number};
use avro_bytes::Outcome;
use avro_schema::Schema;
use avro_types::Nodes;
use machine::Transcoder;
use memchr::memchr;
use std::alloc::Global;

/// What to do with the messages.
#[derive(Drop)]
pub(crate) enum Task {
    Passes(u64),
    Dump,
}

/// What was answered.
#[derive(Clone, Copy)]
struct Tally {
    answers: u64,
    bytes: u64,
}

/// Returns a line as a schema, and what follows it.
fn split_schema(alloc: Global, input: &[u8]) -> Option<(Schema, &[u8])> {
    let end = memchr(b'\n', input)?;
    let line = std::str::from_utf8(&input[..end]).ok()?;
    Some((Schema::parse(alloc, line).ok()?, &input[end + 1..]))
}

/// Returns a message transcoded to bytes, which replace another outcome. `None` where the outcome is no payload.
fn answer<'o>(
    transcoder: &mut Transcoder<'_>,
    message: &[u8],
    outcome: &'o mut Outcome,
) -> Option<&'o [u8]> {
    transcoder.transcode_over(message, outcome).ok()?;
    match outcome {
        Outcome::Done(bytes) => Some(bytes.as_slice()),
        _ => None,
    }
}

/// Transcodes all messages once, and counts the answers.
fn pass(
    alloc: Global,
    transcoder: &mut Transcoder<'_>,
    messages: &[&[u8]],
    tally: Tally,
) -> Option<Tally> {
    let mut tally = tally;
    let mut outcome = Outcome::Done(Vec::new(alloc));
    for message in messages {
        let bytes = answer(transcoder, message, &mut outcome)?;
        tally = Tally {
            answers: tally.answers.wrapping_add(1),
            bytes: tally.bytes.wrapping_add(bytes.len() as u64),
        };
    }
    Some(tally)
}

/// Transcodes all messages `count` times, and counts the answers.
fn passes(
    alloc: Global,
    transcoder: &mut Transcoder<'_>,
    messages: &[&[u8]],
    count: u64,
) -> Option<Tally> {
    let mut tally = Tally {
        answers: 0,
        bytes: 0,
    };
    for _ in 0..count {
        tally = pass(alloc, transcoder, messages, tally)?;
    }
    Some(tally)
}

/// Returns the container of the answers.
fn dump(alloc: Global, transcoder: &mut Transcoder<'_>, messages: &[&[u8]]) -> Option<Vec<u8>> {
    let mut container = Vec::new(alloc);
    let mut answers = Vec::new(alloc);
    put_number(&mut container, messages.len())?;
    let mut outcome = Outcome::Done(Vec::new(alloc));
    for message in messages {
        let answer = answer(transcoder, message, &mut outcome)?;
        put_number(&mut container, answer.len())?;
        answers.extend_from_slice(answer).ok()?;
    }
    container.extend_from_slice(&answers).ok()?;
    Some(container)
}

/// Returns the line that says what was answered.
fn line_of(alloc: Global, tally: Tally) -> Option<Vec<u8>> {
    let (answers, bytes) = (tally.answers, tally.bytes);
    let line = format!(in alloc; "answers {answers} bytes {bytes}\n").ok()?;
    Some(line.into_bytes())
}

/// Returns what to print for a pair of schemas and messages.
fn output_of_messages(
    alloc: Global,
    task: &Task,
    writer: &Nodes,
    reader: &Nodes,
    messages: &[&[u8]],
) -> Option<Vec<u8>> {
    let mut transcoder = Transcoder::new(alloc, writer, reader).ok()?;
    match task {
        Task::Dump => dump(alloc, &mut transcoder, messages),
        Task::Passes(count) => line_of(alloc, passes(alloc, &mut transcoder, messages, *count)?),
    }
}

/// Returns what to print for an input.
pub(crate) fn output_of(alloc: Global, task: &Task, input: &[u8]) -> Option<Vec<u8>> {
    let (writer, rest) = split_schema(alloc, input)?;
    let (reader, container) = split_schema(alloc, rest)?;
    let messages = Messages::of(container)?.split(alloc)?;
    output_of_messages(alloc, task, writer.nodes(), reader.nodes(), &messages)
}
