//! Answers of a registry, and what is none.

use super::devices::{After, Interrupted, NEVER, Peer};
use crate::texts::{bytes_of, same};
use std::alloc::{AllocError, Global};
use upstream_answers::{
    AnswerFault, MOST_TRIES, ReceiveFault, UpstreamAnswer, parse_answer, receive,
};

/// What a peer does after its last byte, and the bytes that it sends, as `bytes_of` has them. After the arrow: what is
/// received, however many bytes come at a time, a status with a content or a fault; and whether the bytes by themselves
/// begin with an answer.
const ROWS: &str =
    r#"closes HTTP/1.1 200 OK|content-length: 13||{"schema":""} -> 200 ({"schema":""}), whole
waits HTTP/1.1 200 OK|content-length: 13||{"schema":""} -> 200 ({"schema":""}), whole
closes HTTP/1.1 200 OK|Transfer-Encoding: chunked||7;x=y|{"schem|6;x=y|a":""}|0|| -> 200 ({"schema":""}), whole
waits HTTP/1.1 200 OK|Transfer-Encoding: chunked||7;x=y|{"schem|6;x=y|a":""}|0|| -> 200 ({"schema":""}), whole
waits HTTP/1.1 200 OK|transfer-encoding: chunked||d|{"schema":""}|0|x: y|| -> 200 ({"schema":""}), whole
closes HTTP/1.0 200 OK|content-type: application/json||{"schema":""} -> 200 ({"schema":""}), whole
closes HTTP/1.1 200 OK|| -> 200 (), whole
waits HTTP/1.1 204 No Content|| -> 204 (), whole
waits HTTP/1.1 404 X|content-length: 2||{} -> 404 ({}), whole
waits HTTP/1.1 500 X|content-length: 0|| -> 500 (), whole
waits HTTP/1.1 301 X|location: /x|content-length: 0|| -> 301 (), whole
closes HTTP/1.1 200 OK|content-length: 1||ab -> 200 (a), whole
closes -> Closed, none
waits -> Failed, none
closes H -> Cut, none
waits H -> Failed, none
closes HTTP/1.1 200 OK|content-length: 3||ab -> Cut, none
closes HTTP/1.1 200 OK|transfer-encoding: chunked||3|ab -> Cut, none
closes HTTP/1.1 200 OK|transfer-encoding: chunked||2|ab| -> Cut, none
closes HTTP/1.1 200 OK|transfer-encoding: chunked||0| -> Cut, none
waits HTTP/1.0 200 OK|content-type: application/json||{"schema":""} -> Failed, whole
waits ~garbage|| -> NoAnswer, none
waits GET / HTTP/1.1| -> NoAnswer, none
waits HTTP/1.2 200 OK| -> NoAnswer, none
waits HTTP/1.1 20 OK| -> NoAnswer, none
waits HTTP/1.1 103 Early Hints|link: </x>|| -> NoAnswer, none
waits HTTP/1.1 200 OK^content-length: 0^^ -> NoAnswer, none
waits HTTP/1.1 200 OK|transfer-encoding: chunked|content-length: 5|| -> NoAnswer, none
waits HTTP/1.1 200 OK|content-length: 5|content-length: 6|| -> NoAnswer, none
waits HTTP/1.1 200 OK|content-length: five|| -> NoAnswer, none
waits HTTP/1.1 200 OK|transfer-encoding: chunked||xyz| -> NoAnswer, none
waits HTTP/1.1 200 OK|transfer-encoding: chunked||1|abc| -> NoAnswer, none
waits HTTP/1.1 200 OK|content-length: 8388609|| -> TooLarge, none
"#;

/// Returns an answer as the rows have it.
fn shown(alloc: Global, answer: &UpstreamAnswer) -> Result<String, AllocError> {
    let status = answer.status;
    match std::str::from_utf8(&answer.content) {
        Ok(content) => format!(in alloc; "{status} ({content})"),
        Err(_) => format!(in alloc; "{status} and no text"),
    }
}

/// Returns the answer that bytes begin with, as the rows have it.
fn parsed(alloc: Global, received: &[u8]) -> Result<String, AllocError> {
    match parse_answer(alloc, received) {
        Ok(answer) => shown(alloc, &answer),
        Err(fault) => format!(in alloc; "{fault:?} in what came"),
    }
}

/// Returns what is received of a peer that sends these bytes, at most `most` at a time.
fn received(alloc: Global, sent: &[u8], most: usize, after: After) -> Result<String, AllocError> {
    let mut peer = Peer::new(sent, most, after);
    match receive(alloc, &mut peer) {
        Ok(bytes) => parsed(alloc, &bytes),
        Err(fault) => format!(in alloc; "{fault:?}"),
    }
}

/// Returns what is received of a peer, which is said once where it is the same however many bytes come at a time.
fn received_at_any(alloc: Global, sent: &[u8], after: After) -> Result<String, AllocError> {
    let mut text = received(alloc, sent, NEVER, after)?;
    for most in [1, 2, 7] {
        let other = received(alloc, sent, most, after)?;
        if text.as_str() != other.as_str() {
            write!(text, ", but {other} where {most} come at a time")?;
        }
    }
    Ok(text)
}

/// Appends a row with what is found in place of what is wanted.
fn push_row(alloc: Global, text: &mut String, row: &str) -> Result<(), AllocError> {
    let (asked, _wanted) = row.split_once(" -> ").unwrap_or((row, ""));
    let (word, bytes) = asked.split_once(' ').unwrap_or((asked, ""));
    let after = if word == "waits" {
        After::Waits
    } else {
        After::Closes
    };
    let sent = bytes_of(alloc, bytes)?;
    let found = received_at_any(alloc, &sent, after)?;
    let whole = if parse_answer(alloc, &sent).is_ok() {
        "whole"
    } else {
        "none"
    };
    write!(text, "{asked} -> {found}, {whole}\n")
}

/// Returns the rows with what is found in place of what is wanted.
fn rows_found(alloc: Global) -> Result<String, AllocError> {
    let mut text = String::new(alloc);
    for row in ROWS.lines() {
        push_row(alloc, &mut text, row)?;
    }
    Ok(text)
}

#[test]
fn answers_are_received_and_others_refused(rt: HostRuntime) -> Result<(), AllocError> {
    same(&rt, &rows_found(rt.alloc())?, ROWS);
    Ok(())
}

/// An answer whose end its length says, and ones in chunks.
const BY_LENGTH: &str = "HTTP/1.1 200 OK\r\ncontent-length: 13\r\n\r\n{\"schema\":\"\"}";

const BY_CHUNKS: &str =
    "HTTP/1.1 200 OK\r\nTransfer-Encoding: chunked\r\n\r\n7;x=y\r\n{\"schem\r\n6;x=y\r\na\":\"\"}\r\n0\r\n\r\n";

const BY_CHUNKS_WITH_TRAILER: &str =
    "HTTP/1.1 200 OK\r\ntransfer-encoding: chunked\r\n\r\nd\r\n{\"schema\":\"\"}\r\n0\r\nx: y\r\n\r\n";

/// Returns whether bytes begin with no answer.
fn is_none(alloc: Global, bytes: &[u8]) -> bool {
    matches!(parse_answer(alloc, bytes), Err(AnswerFault::NoAnswer))
}

/// Returns whether an answer is none as long as bytes of it are missing, and then is one.
fn is_one_when_whole(alloc: Global, answer: &str) -> bool {
    let bytes = answer.as_bytes();
    let mut right = parse_answer(alloc, bytes).is_ok();
    for len in 0..bytes.len() {
        right &= is_none(alloc, &bytes[..len]);
    }
    right
}

#[test]
fn cut_answers_are_none(rt: HostRuntime) {
    let mut right = is_one_when_whole(rt.alloc(), BY_LENGTH);
    right &= is_one_when_whole(rt.alloc(), BY_CHUNKS);
    right &= is_one_when_whole(rt.alloc(), BY_CHUNKS_WITH_TRAILER);
    assert!(rt; right);
}

/// What comes of an answer whose connection fails at a call.
#[derive(Clone, Copy)]
enum Outcome {
    Whole,
    Failed,
    Other,
}

/// Returns what comes of an answer, of which one byte comes at a time, where a call fails.
fn outcome_of(alloc: Global, answer: &[u8], fails_at: usize) -> Outcome {
    let mut peer = Peer::new(answer, 1, After::Waits);
    peer.fails_at = fails_at;
    match receive(alloc, &mut peer) {
        Ok(received) => {
            if received.as_slice() == answer {
                Outcome::Whole
            } else {
                Outcome::Other
            }
        }
        Err(ReceiveFault::Failed) => Outcome::Failed,
        Err(_) => Outcome::Other,
    }
}

/// Returns the number of calls after which an answer is received; 0 where a failure before is not found.
fn calls_needed(alloc: Global, answer: &str) -> usize {
    for fails_at in 0..1_000 {
        match outcome_of(alloc, answer.as_bytes(), fails_at) {
            Outcome::Whole => return fails_at,
            Outcome::Failed => {}
            Outcome::Other => return 0,
        }
    }
    0
}

#[test]
fn failures_are_found_at_each_call(rt: HostRuntime) {
    let by_length = calls_needed(rt.alloc(), BY_LENGTH);
    let by_chunks = calls_needed(rt.alloc(), BY_CHUNKS);
    assert!(rt; by_length > BY_LENGTH.len() && by_chunks > BY_CHUNKS.len());
}

/// Returns the number of calls after which a connection that a signal interrupts at each is reported as failed; 0 where
/// it is not.
fn calls_until_failed(alloc: Global) -> usize {
    let mut peer = Interrupted { calls: 0 };
    match receive(alloc, &mut peer) {
        Err(ReceiveFault::Failed) => peer.calls,
        _ => 0,
    }
}

#[test]
fn interrupted_reads_are_tried_again_for_a_while(rt: HostRuntime) {
    assert_eq!(rt; calls_until_failed(rt.alloc()), MOST_TRIES as usize);
}
