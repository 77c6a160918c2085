//! The content of an answer, from the bytes after its head.

ghost use Rattle.std.specs.Prelude.{◌≡◌, ◌≢◌, ◌≤◌, [], IfErr, IfOk, ℕ, List, length, option_map, vec_len};
ghost use Rattle.upstream_answers.specs.Parts.{Finds, HasContent};

use crate::fault::AnswerFault;
use crate::limits::{MOST_CONTENT, MOST_FIELDS};
use http1::decode::{Decoded, Decoder};
use httparse::spans::{EMPTY_HEADER_SPAN, HeaderSpan};
use std::alloc::Global;

/// Reads one piece of the body into `content`, and returns the bytes after it.
///
/// `None` where the body ends, and `content` is whole. `NoAnswer` where there is no body within the limits.
fn next_piece<'a>(
    decoder: &mut Decoder,
    unread: &'a [u8],
    content: &mut Vec<u8>,
    trailers: &mut [HeaderSpan],
) -> Result<Option<&'a [u8]>, AnswerFault>
    requires size { vec_len content.old ≤ MOST_CONTENT }
    requires room { length trailers.old ≡ MOST_FIELDS }
    ensures ok { IfOk result (λ rest. Finds decoder.old unread.now content.old.items decoder.new
        (option_map (λ r. r.now) rest) content.new.items) }
    ensures err { IfErr result (λ e. e ≢ AnswerFault.NoMemory →
        (whole : List ℕ) → ¬ (HasContent decoder.old unread.now content.old.items whole)) }
    ensures trailers { length trailers.new ≡ length trailers.old }
{
    match decoder.decode(unread, trailers) {
        Ok(Decoded::Data(span)) => {
            let piece = &unread[span.start..span.end];
            if piece.len() > MOST_CONTENT - content.len() {
                return Err(AnswerFault::NoAnswer);
            }
            content.extend_from_slice(piece)?;
            Ok(Some(&unread[span.end..]))
        }
        Ok(Decoded::End { .. }) => Ok(None),
        Ok(Decoded::NeedMore(_)) => {
            if !matches!(decoder, Decoder::UntilClose) {
                return Err(AnswerFault::NoAnswer);
            }
            Ok(None)
        }
        Err(_) => Err(AnswerFault::NoAnswer),
    }
}

/// Returns the content of the body that `first` waits for, at the front of the bytes. `NoAnswer` where they begin with
/// no such body within the limits: it is cut, say.
pub(crate) fn content_of(
    alloc: Global,
    first: Decoder,
    received: &[u8],
) -> Result<Vec<u8>, AnswerFault>
    ensures ok { IfOk result (λ content. HasContent first received.now [] content.items) }
    ensures err { IfErr result (λ e. e ≢ AnswerFault.NoMemory →
        (whole : List ℕ) → ¬ (HasContent first received.now [] whole)) }
{
    let mut decoder = first;
    let mut unread = received;
    let mut content = Vec::new(alloc);
    let mut trailers: [HeaderSpan; MOST_FIELDS] = [EMPTY_HEADER_SPAN; MOST_FIELDS];
    'pieces: while let Some(rest) = next_piece(&mut decoder, unread, &mut content, &mut trailers)? {
        unread = rest;
    }
    Ok(content)
}
