//! Answers at the limits.

use super::devices::{After, NEVER, Peer};
use std::alloc::{AllocError, Global};
use upstream_answers::{AnswerFault, MOST_CONTENT, MOST_HEAD, ReceiveFault, parse_answer, receive};

/// How the length of a body is known.
#[derive(Clone, Copy, Debug, PartialEq, Eq)]
enum Ending {
    Length,
    Chunks,
    Close,
}

const ENDINGS: [Ending; 3] = [Ending::Length, Ending::Chunks, Ending::Close];

/// The number of bytes of a chunk; the last one may have fewer.
const CHUNK: usize = 1_000;

/// Returns the head of an answer with a content of `len` bytes.
fn head_of(alloc: Global, len: usize, ending: Ending) -> Result<String, AllocError> {
    match ending {
        Ending::Length => format!(in alloc; "HTTP/1.1 200 OK\r\ncontent-length: {len}\r\n\r\n"),
        Ending::Chunks => {
            String::from_str(
                alloc,
                "HTTP/1.1 200 OK\r\ntransfer-encoding: chunked\r\n\r\n",
            )
        }
        Ending::Close => String::from_str(alloc, "HTTP/1.1 200 OK\r\n\r\n"),
    }
}

/// Appends a letter, `count` times.
fn push_letters(bytes: &mut Vec<u8>, count: usize) -> Result<(), AllocError> {
    bytes.resize(bytes.len().saturating_add(count), b'p')
}

/// Appends a chunk of `size` letters.
fn push_chunk(alloc: Global, bytes: &mut Vec<u8>, size: usize) -> Result<(), AllocError> {
    let line = format!(in alloc; "{size:x}\r\n")?;
    bytes.extend_from_slice(line.as_bytes())?;
    push_letters(bytes, size)?;
    bytes.extend_from_slice(b"\r\n")
}

/// Appends `len` letters in chunks, and the end of the chunks.
fn push_chunks(alloc: Global, bytes: &mut Vec<u8>, len: usize) -> Result<(), AllocError> {
    for index in 0..len.div_ceil(CHUNK) {
        let left = len.saturating_sub(index.saturating_mul(CHUNK));
        push_chunk(alloc, bytes, left.min(CHUNK))?;
    }
    bytes.extend_from_slice(b"0\r\n\r\n")
}

/// Returns an answer with a content of `len` bytes.
fn answer_of(alloc: Global, len: usize, ending: Ending) -> Result<Vec<u8>, AllocError> {
    let head = head_of(alloc, len, ending)?;
    let mut answer = Vec::from_slice(alloc, head.as_bytes())?;
    match ending {
        Ending::Chunks => push_chunks(alloc, &mut answer, len)?,
        Ending::Length | Ending::Close => push_letters(&mut answer, len)?,
    }
    Ok(answer)
}

/// Returns the length of the content of the answer that bytes begin with. None where they begin with none.
fn content_len(alloc: Global, received: &[u8]) -> Option<usize> {
    match parse_answer(alloc, received) {
        Ok(answer) => Some(answer.content.len()),
        Err(_) => None,
    }
}

/// Returns the length of the content that is received of a peer. None where none is.
fn received_content_len(alloc: Global, peer: &mut Peer<'_>) -> Option<usize> {
    match receive(alloc, peer) {
        Ok(received) => content_len(alloc, &received),
        Err(_) => None,
    }
}

/// Returns whether a content of `len` bytes is received, of which at most `most` come at a time.
fn is_received(alloc: Global, len: usize, ending: Ending, most: usize) -> Result<bool, AllocError> {
    let sent = answer_of(alloc, len, ending)?;
    let after = match ending {
        Ending::Close => After::Closes,
        Ending::Length | Ending::Chunks => After::Waits,
    };
    let mut peer = Peer::new(&sent, most, after);
    Ok(received_content_len(alloc, &mut peer) == Some(len))
}

/// Returns whether contents of a length are received, however their length is known.
fn all_are_received(alloc: Global, len: usize, most: usize) -> Result<bool, AllocError> {
    let mut right = true;
    for ending in ENDINGS {
        right &= is_received(alloc, len, ending, most)?;
    }
    Ok(right)
}

#[test]
fn large_answers_are_received(rt: HostRuntime) -> Result<(), AllocError> {
    let mut right = all_are_received(rt.alloc(), 4_000_000, NEVER)?;
    right &= all_are_received(rt.alloc(), 100_000, 1)?;
    right &= all_are_received(rt.alloc(), MOST_CONTENT, NEVER)?;
    assert!(rt; right);
    Ok(())
}

/// Returns whether bytes are none of an answer, and are refused as too large where they are received.
fn is_refused(alloc: Global, sent: &[u8]) -> bool {
    let mut peer = Peer::new(sent, NEVER, After::Closes);
    let is_large = matches!(receive(alloc, &mut peer), Err(ReceiveFault::TooLarge));
    is_large && matches!(parse_answer(alloc, sent), Err(AnswerFault::NoAnswer))
}

/// Returns whether contents of a byte more than may be are refused, however their length is known.
fn too_large_are_refused(alloc: Global) -> Result<bool, AllocError> {
    let mut right = true;
    for ending in ENDINGS {
        let sent = answer_of(alloc, MOST_CONTENT + 1, ending)?;
        right &= is_refused(alloc, &sent);
    }
    Ok(right)
}

#[test]
fn too_large_answers_are_refused(rt: HostRuntime) -> Result<(), AllocError> {
    assert!(rt; too_large_are_refused(rt.alloc())?);
    Ok(())
}

/// Returns the head of an answer with a field of 100,000 letters.
fn long_head(alloc: Global) -> Result<Vec<u8>, AllocError> {
    let mut sent = Vec::from_slice(alloc, b"HTTP/1.1 200 OK\r\nx-long: ")?;
    push_letters(&mut sent, 100_000)?;
    sent.extend_from_slice(b"\r\ncontent-length: 0\r\n\r\n")?;
    Ok(sent)
}

/// Returns the number of bytes after which it is known that no answer follows, where at most `most` come at a time.
/// None where that is not found.
fn refused_after(alloc: Global, sent: &[u8], most: usize) -> Option<usize> {
    let mut peer = Peer::new(sent, most, After::Waits);
    match receive(alloc, &mut peer) {
        Err(ReceiveFault::NoAnswer) => Some(sent.len().wrapping_sub(peer.left.len())),
        _ => None,
    }
}

/// Returns whether a long head is refused at the limit, by the byte and at once.
fn long_head_is_refused(alloc: Global) -> Result<bool, AllocError> {
    let sent = long_head(alloc)?;
    let by_bytes = refused_after(alloc, &sent, 1);
    let at_once = refused_after(alloc, &sent, NEVER);
    Ok(by_bytes == Some(MOST_HEAD) && at_once == Some(MOST_HEAD))
}

#[test]
fn long_heads_are_refused_at_the_limit(rt: HostRuntime) -> Result<(), AllocError> {
    assert!(rt; long_head_is_refused(rt.alloc())?);
    Ok(())
}

/// Appends a short field, `count` times.
fn push_fields(sent: &mut Vec<u8>, count: usize) -> Result<(), AllocError> {
    for _ in 0..count {
        sent.extend_from_slice(b"x: y\r\n")?;
    }
    Ok(())
}

/// Returns an answer without a content whose head has `count` more fields than that of the length.
fn with_fields(alloc: Global, count: usize) -> Result<Vec<u8>, AllocError> {
    let mut sent = Vec::from_slice(alloc, b"HTTP/1.1 200 OK\r\ncontent-length: 0\r\n")?;
    push_fields(&mut sent, count)?;
    sent.extend_from_slice(b"\r\n")?;
    Ok(sent)
}

/// Returns whether an answer with `count` more fields is one, both by itself and where it is received: None where only
/// one of them holds.
fn is_answer_with(alloc: Global, count: usize) -> Result<Option<bool>, AllocError> {
    let sent = with_fields(alloc, count)?;
    let is_answer = parse_answer(alloc, &sent).is_ok();
    let mut peer = Peer::new(&sent, NEVER, After::Waits);
    if receive(alloc, &mut peer).is_ok() != is_answer {
        return Ok(None);
    }
    Ok(Some(is_answer))
}

#[test]
fn fields_are_counted(rt: HostRuntime) -> Result<(), AllocError> {
    let at_most = is_answer_with(rt.alloc(), 63)?;
    let above = is_answer_with(rt.alloc(), 64)?;
    assert!(rt; at_most == Some(true) && above == Some(false));
    Ok(())
}

/// Returns a long head, of which these are the last lines.
fn long_head_with(alloc: Global, last: &str) -> Result<Vec<u8>, AllocError> {
    let mut sent = Vec::from_slice(alloc, b"HTTP/1.1 200 OK\r\n")?;
    push_fields(&mut sent, 60)?;
    sent.extend_from_slice(b"x: ")?;
    push_letters(&mut sent, 1_000)?;
    sent.extend_from_slice(b"\r\n")?;
    sent.extend_from_slice(last.as_bytes())?;
    Ok(sent)
}

/// Returns the number of bytes that are received of a peer that sends these, at most `most` at a time, or why none are.
fn received_len(alloc: Global, sent: &[u8], most: usize) -> Result<usize, ReceiveFault> {
    let mut peer = Peer::new(sent, most, After::Waits);
    match receive(alloc, &mut peer) {
        Ok(received) => Ok(received.len()),
        Err(fault) => Err(fault),
    }
}

/// Returns whether a long head with these last lines is received whole, or comes to a fault where there is one: by the
/// byte and at once.
fn comes_to(alloc: Global, last: &str, fault: Option<ReceiveFault>) -> Result<bool, AllocError> {
    let sent = long_head_with(alloc, last)?;
    let wanted = match fault {
        Some(fault) => Err(fault),
        None => Ok(sent.len()),
    };
    let by_bytes = received_len(alloc, &sent, 1);
    let at_once = received_len(alloc, &sent, NEVER);
    Ok(by_bytes == wanted && at_once == wanted)
}

#[test]
fn bad_lines_in_long_heads_are_found_at_their_end(rt: HostRuntime) -> Result<(), AllocError> {
    let mut right = comes_to(rt.alloc(), "content-length: 0\r\n\r\n", None)?;
    right &= comes_to(rt.alloc(), "no field\r\n", Some(ReceiveFault::NoAnswer))?;
    assert!(rt; right);
    Ok(())
}
