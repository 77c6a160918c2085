//! Payloads of a pair, by itself and one after another, and the refusals of each call.

use crate::again::{Pair, compiled, outcome, pair_of, transcoder};
use crate::words::pair_words;
use avro_bytes::MOST_PAYLOAD;
use machine::{Outcome, TranscodeError, Transcoder};
use program_compiler::CompileError;
use std::alloc::{AllocError, Global};
use std::test::Fail;

/// Pairs of schemas, each with a payload and its outcome.
const ROWS: [(&str, &str, &[u8], &str); 4] = [
    (
        "\"int\"",
        "[\"null\",\"long\",\"int\"]",
        &[0x02],
        "done 0202",
    ),
    (
        "[\"null\",\"string\"]",
        "\"string\"",
        &[0x00],
        "mismatch NoMatch 1 0",
    ),
    (
        "\"string\"",
        "\"string\"",
        &[0x02, 0xff],
        "malformed BadText at 1",
    ),
    ("\"int\"", "\"int\"", &[0x80, 0x00], "done 00"),
];

/// Returns whether the outcome of a payload of a pair is that one.
fn is_told(alloc: Global, pair: &Pair, payload: &[u8], want: &str) -> Result<bool, AllocError> {
    let told = pair_words(alloc, pair, payload)?;
    Ok(told.as_str() == want)
}

/// Returns whether the outcome of a payload of the schemas of two texts is that one.
fn is_row(
    alloc: Global,
    writer: &str,
    reader: &str,
    payload: &[u8],
    want: &str,
) -> Result<bool, AllocError> {
    match pair_of(alloc, writer, reader) {
        Ok(pair) => is_told(alloc, &pair, payload, want),
        Err(_) => Err(AllocError),
    }
}

#[test]
fn payloads_by_themselves(rt: HostRuntime) -> Result<(), AllocError> {
    for (writer, reader, payload, want) in ROWS {
        let is_so = is_row(rt.alloc(), writer, reader, payload, want)?;
        assert!(rt; is_so, "{want}");
    }
    Ok(())
}

/// Returns a text, then another `many` times with the numbers from 1 on in place of `%`, and a last one.
fn wide(
    alloc: Global,
    first: &str,
    many: usize,
    each: &str,
    last: &str,
) -> Result<String, AllocError> {
    let mut text = String::from_str(alloc, first)?;
    for number in 1..=many {
        let digits = format!(in alloc; "{number}")?;
        let next = each.replace(alloc, '%', &digits)?;
        text.push_str(&next)?;
    }
    text.push_str(last)?;
    Ok(text)
}

/// Returns a union of 648 records R without fields, and a record R of 200 fields, all by default.
fn wide_pair(alloc: Global) -> Result<Pair, Fail> {
    let writer = wide(
        alloc,
        r#"[{"type":"record","name":"n.R","fields":[]}"#,
        647,
        r#",{"type":"record","name":"n%.R","fields":[]}"#,
        "]",
    )?;
    let reader = wide(
        alloc,
        r#"{"type":"record","name":"R","fields":[{"name":"f","type":"int","default":0}"#,
        199,
        r#",{"name":"f%","type":"int","default":0}"#,
        "]}",
    )?;
    Ok(pair_of(alloc, &writer, &reader)?)
}

/// Returns whether the program of a pair is too large.
fn has_no_program(alloc: Global, pair: &Pair) -> Result<bool, AllocError> {
    let is_refused = compiled(alloc, pair).err() == Some(CompileError::ProgramTooLarge);
    Ok(is_refused && is_told(alloc, pair, &[0], "program too large")?)
}

#[test]
fn programs_too_large(rt: HostRuntime) -> Result<(), Fail> {
    let pair = wide_pair(rt.alloc())?;
    assert!(rt; has_no_program(rt.alloc(), &pair)?);
    Ok(())
}

/// Returns whether a payload that is too large is refused, and the next one is taken.
fn refuses(transcoder: &mut Transcoder<'_>, long: &[u8]) -> bool {
    let refused = outcome(transcoder, long).err() == Some(TranscodeError::TooLarge);
    let next = outcome(transcoder, &[2]);
    refused && matches!(&next, Ok(Outcome::Done(bytes)) if bytes.as_slice() == [2].as_slice())
}

/// Returns whether a transcoder of a pair of ints refuses so, and a payload by itself is refused too.
fn is_refused(alloc: Global, pair: &Pair, long: &[u8]) -> Result<bool, AllocError> {
    let refuses = match transcoder(alloc, pair) {
        Ok(made) => {
            let mut transcoder = made;
            transcoder.program().len() == 2 && refuses(&mut transcoder, long)
        }
        Err(_) => false,
    };
    Ok(refuses && is_told(alloc, pair, long, "payload too large")?)
}

/// Returns whether the same is true of the pair of the texts of two ints.
fn is_refused_for_ints(alloc: Global, long: &[u8]) -> Result<bool, AllocError> {
    match pair_of(alloc, "\"int\"", "\"int\"") {
        Ok(pair) => is_refused(alloc, &pair, long),
        Err(_) => Err(AllocError),
    }
}

#[test]
fn payloads_too_large(rt: HostRuntime) -> Result<(), AllocError> {
    let long = vec![in rt.alloc(); 0u8; MOST_PAYLOAD + 1]?;
    let is_so = is_refused_for_ints(rt.alloc(), &long)?;
    assert!(rt; is_so);
    Ok(())
}
