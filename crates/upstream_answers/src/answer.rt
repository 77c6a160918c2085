//! The answer that bytes begin with.

ghost use Rattle.std.specs.Prelude.{◌≢◌, IfErr, IfOk, List, ℕ};
ghost use Rattle.spec_service.specs.UpstreamAnswer.{IsAnswer};

use crate::body::content_of;
use crate::fault::AnswerFault;
use crate::head::{Front, front_of};
use crate::limits::{MOST_FIELDS, limits};
use http1::decode::Decoder;
use httparse::spans::{EMPTY_HEADER_SPAN, HeaderSpan};
use std::alloc::Global;

/// An answer of a registry: its status, and the bytes of its content with no chunk lines between them.
#[derive(Debug, Drop)]
pub struct UpstreamAnswer {
    pub status: u16,
    pub content: Vec<u8>,
}

/// Returns the answer to a GET that the bytes begin with. `NoAnswer` where they begin with none within the limits: the
/// head is none of RFC 9112 or an interim one (1xx), the body is cut, or one of them is too large.
pub fn parse_answer(alloc: Global, received: &[u8]) -> Result<UpstreamAnswer, AnswerFault>
    ensures ok { IfOk result (λ a. IsAnswer received.now a.status a.content.items) }
    ensures err { IfErr result (λ e. e ≢ AnswerFault.NoMemory →
        (status : ℕ) (content : List ℕ) → ¬ (IsAnswer received.now status content)) }
{
    let mut headers: [HeaderSpan; MOST_FIELDS] = [EMPTY_HEADER_SPAN; MOST_FIELDS];
    let Front::Head(head) = front_of(received, &mut headers) else {
        return Err(AnswerFault::NoAnswer);
    };
    let decoder = Decoder::new(head.framing, &limits());
    let content = content_of(alloc, decoder, &received[head.len..])?;
    Ok(UpstreamAnswer {
        status: head.status,
        content,
    })
}
