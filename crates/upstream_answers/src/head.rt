//! The head of an answer.

ghost use Rattle.std.specs.Prelude.{◌≡◌, IfNone, IfSome, length};
ghost use Rattle.httparse.specs.Spans.{IsResponseOf, IsResponseWithin};
ghost use Rattle.upstream_answers.specs.Parts.{IsFrontOf, IsHeadOf, NeverHasHead};

use crate::limits::{MOST_FIELDS, MOST_HEAD};
use crate::lines::ends_lines_in_crlf;
use http1::fields::KnownFields;
use http1::framing::{Framing, MethodKind, response_framing};
use httparse::Status;
use httparse::spans::{HeaderSpan, ResponseSpans, parse_response};

/// A head: its status, the number of its bytes, and how the body after it ends.
#[derive(Clone, Copy, Debug, PartialEq, Eq)]
pub(crate) struct AnswerHead {
    pub(crate) status: u16,
    pub(crate) len: usize,
    pub(crate) framing: Framing,
}

/// What bytes begin with.
#[derive(Clone, Copy, Debug, PartialEq, Eq)]
pub(crate) enum Front {
    Head(AnswerHead),
    /// Less than a whole head.
    Part,
    /// No head of an answer, whatever follows.
    NoHead,
}

/// Returns the head whose parts are at `spans`. `None` where it is longer than the limits, is an interim one (1xx),
/// ends a line in a bare LF, or frames its body in no one way (RFC 9112, section 6.3).
fn accepted(received: &[u8], headers: &[HeaderSpan], spans: ResponseSpans) -> Option<AnswerHead>
    requires fields { length headers.now ≡ MOST_FIELDS }
    requires within { IsResponseWithin received.now headers.now spans }
    requires head { IsResponseOf received.now headers.now spans }
    ensures some { IfSome result (IsHeadOf received.now) }
    ensures none { IfNone result (NeverHasHead received.now) }
{
    if spans.len > MOST_HEAD || spans.code < 200 || !ends_lines_in_crlf(&received[..spans.len]) {
        return None;
    }
    let fields = KnownFields::from_spans(received, &headers[..spans.headers]);
    let Ok(framing) = response_framing(MethodKind::Other, spans.code, spans.version, &fields) else {
        return None;
    };
    Some(AnswerHead {
        status: spans.code,
        len: spans.len,
        framing,
    })
}

/// Finds the head of an answer at the front of the bytes (RFC 9112, sections 4 and 5). `headers` receives where its
/// fields are.
pub(crate) fn front_of(received: &[u8], headers: &mut [HeaderSpan]) -> Front
    requires { length headers.old ≡ MOST_FIELDS }
    ensures front { IsFrontOf received.now result }
    ensures room { length headers.new ≡ length headers.old }
{
    match parse_response(received, headers) {
        Ok(Status::Complete(spans)) => match accepted(received, headers, spans) {
            Some(head) => Front::Head(head),
            None => Front::NoHead,
        },
        Ok(Status::Partial) if received.len() < MOST_HEAD => Front::Part,
        _ => Front::NoHead,
    }
}
