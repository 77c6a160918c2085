//! The line that answers a payload: the payload that a line spells in hexadecimal, and the line of its outcome.

ghost use Rattle.std.specs.Prelude.{◌++◌, ◌≡◌, IfOk, List, OnOk, option_map, string_bytes, ℕ};
ghost use Rattle.spec_lines.specs.Answer.{IsAnswer, IsPayloadAnswer};
ghost use Rattle.std.specs.List.{list_any};
ghost use Rattle.spec_lines.specs.Payload.{is_upper, payload_of};
ghost use Rattle.hex.specs.Hex.{encode_lower};
ghost use Rattle.spec_avro.specs.Outcome.{Done, outcome_of};
ghost use Rattle.spec_lines.specs.OutcomeLine.{hex_of, line_of};

use avro_bytes::Outcome;
use hex::FromHexError;
use machine::Transcoder;
use resolver::TranscodeError;
use std::alloc::{AllocError, Global};
use std::fmt::Write;

/// Appends the answer to a payload, without its LF.
fn push_payload_answer(
    alloc: Global,
    transcoder: &mut Transcoder,
    payload: &[u8],
    output: &mut String,
) -> Result<(), AllocError>
    ensures pushed { OnOk result
        ((answer : List ℕ) × IsPayloadAnswer transcoder.old.writer transcoder.old.reader answer payload.now
        × (string_bytes output.new ≡ string_bytes output.old ++ answer)) }
    ensures kept { transcoder.new ≡ transcoder.old }
{
    match transcoder.transcode(payload) {
        Ok(outcome) => push_outcome(alloc, output, &outcome),
        Err(TranscodeError::TooLarge) => output.push_str("too large"),
        Err(TranscodeError::NoMemory) => Err(AllocError),
    }
}

/// Appends the answer to a line, without its LF. It is not specified what an `Err` leaves of the text.
pub fn push_answer(
    alloc: Global,
    transcoder: &mut Transcoder,
    line: &[u8],
    output: &mut String,
) -> Result<(), AllocError>
    ensures pushed { OnOk result
        ((answer : List ℕ) × IsAnswer transcoder.old.writer transcoder.old.reader line.now answer
        × (string_bytes output.new ≡ string_bytes output.old ++ answer)) }
    ensures kept { transcoder.new ≡ transcoder.old }
{
    match payload_of(alloc, line)? {
        Some(payload) => push_payload_answer(alloc, transcoder, &payload, output),
        None => output.push_str("bad hex"),
    }
}

/// Returns the payload that a line spells; `None` where it spells none.
pub fn payload_of(alloc: Global, line: &[u8]) -> Result<Option<Vec<u8>>, AllocError>
    ensures { IfOk result (λ r. payload_of line.now ≡ option_map (λ payload. payload.items) r) }
{
    if has_upper(line) {
        return Ok(None);
    }
    match hex::decode(alloc, line) {
        Ok(payload) => Ok(Some(payload)),
        Err(FromHexError::OutOfMemory) => Err(AllocError),
        Err(_) => Ok(None),
    }
}

/// Returns whether a byte of the line is an upper-case letter.
fn has_upper(line: &[u8]) -> bool
    ensures { result ≡ list_any is_upper line.now }
{
    line.iter().any(|byte| byte.is_ascii_uppercase())
}

/// How many bytes are converted to hexadecimal at a time: their digits are held twice.
const PIECE: usize = 65_536;

/// Appends bytes in hexadecimal.
fn push_digits(alloc: Global, output: &mut String, bytes: &[u8]) -> Result<(), AllocError>
    ensures { OnOk result (string_bytes output.new ≡ string_bytes output.old ++ encode_lower bytes.now) }
{
    let mut rest = bytes;
    while !rest.is_empty() {
        let (piece, later) = rest.split_at(rest.len().min(PIECE));
        output.push_str(&hex::encode(alloc, piece)?)?;
        rest = later;
    }
    Ok(())
}

/// Appends bytes in hexadecimal, or `-` where there are none.
fn push_hex(alloc: Global, output: &mut String, bytes: &[u8]) -> Result<(), AllocError>
    ensures { OnOk result (string_bytes output.new ≡ string_bytes output.old ++ hex_of bytes.now) }
{
    if bytes.is_empty() {
        return output.push_str("-");
    }
    push_digits(alloc, output, bytes)
}

/// Appends the line of an output, without its LF.
pub(crate) fn push_done(alloc: Global, output: &mut String, bytes: &[u8]) -> Result<(), AllocError>
    ensures { OnOk result (string_bytes output.new ≡ string_bytes output.old ++ line_of (Done bytes.now)) }
{
    output.push_str("done ")?;
    push_hex(alloc, output, bytes)
}

/// Appends the line of an outcome, without its LF. It is not specified what an `Err` leaves of the text.
pub fn push_outcome(alloc: Global, output: &mut String, outcome: &Outcome) -> Result<(), AllocError>
    ensures { OnOk result (string_bytes output.new ≡ string_bytes output.old ++ line_of (outcome_of outcome.now)) }
{
    match outcome {
        Outcome::Done(bytes) => push_done(alloc, output, bytes),
        Outcome::Mismatch(found) => {
            let kind = found.kind.name();
            let (writer, reader) = (found.writer_node, found.reader_node);
            write!(output, "mismatch {kind} {writer} {reader}")
        }
        Outcome::Malformed { kind, at } => {
            let name = kind.name();
            write!(output, "malformed {name} at {at}")
        }
        Outcome::OutputTooLarge => output.push_str("output too large"),
    }
}
