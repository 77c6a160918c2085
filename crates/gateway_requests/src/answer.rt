//! What a request is answered: its status, and its bytes.

ghost use Rattle.std.specs.Prelude.{◌≡◌, ◌+◌, ◌++◌, ◌<◌, ◌^◌, IfOk, length, string_bytes, vec_len};
ghost use Rattle.gateway_requests.specs.Answer.{answer_of};
ghost use Rattle.spec_service.specs.Answer.{answer_text, content_type_of, status_of_answer};
ghost use Rattle.spec_service.specs.Head.{head_named, head_of, status_line_of};

use crate::fault::Fault;
use crate::replies::fault_text;
use spec_service::{AnswerBytes, ContentType, Status};
use std::alloc::{AllocError, Global};
use wire_frames::put_envelope;

/// How many bytes of a body are copied after the head at most, so that a short answer is one piece.
const MOST_COPIED: usize = 16_384;

/// What a request is answered.
#[derive(Debug, Drop)]
pub enum Answer {
    /// The JSON text of a reply.
    Reply(String),
    /// A message in the wire format: the id of the schema that writes it, and its payload.
    Message { id: u32, payload: Vec<u8> },
    Fault(Fault),
}

impl Answer {
    /// Returns its status.
    pub fn status(&self) -> Status
        ensures { result ≡ status_of_answer (answer_of self.now) }
    {
        match self {
            Answer::Reply(_) | Answer::Message { .. } => Status::Ok,
            Answer::Fault(fault) => fault.status(),
        }
    }

    /// Returns the type of its content.
    fn content_type(&self) -> ContentType
        ensures { result ≡ content_type_of (answer_of self.now) }
    {
        match self {
            Answer::Reply(_) | Answer::Fault(_) => ContentType::Json,
            Answer::Message { .. } => ContentType::OctetStream,
        }
    }

    /// Returns all its bytes, the head and the body (RFC 9112, sections 4 to 6), in two pieces.
    pub fn into_bytes(self, alloc: Global) -> Result<AnswerBytes, AllocError>
        ensures { IfOk result (λ bytes. bytes.front.items ++ bytes.rest.items ≡ answer_text (answer_of self)) }
    {
        let (status, content_type) = (self.status(), self.content_type());
        match self {
            Answer::Reply(text) => framed(alloc, status, content_type, &[], text.into_bytes()),
            Answer::Message { id, payload } => {
                let mut prefix = Vec::new(alloc);
                put_envelope(id, &mut prefix)?;
                framed(alloc, status, content_type, &prefix, payload)
            }
            Answer::Fault(fault) => {
                let text = fault_text(alloc, fault)?;
                framed(alloc, status, content_type, &[], text.into_bytes())
            }
        }
    }
}

/// Returns the head of a body, and the body after it, which is a prefix and the rest.
///
/// A rest of more than `MOST_COPIED` bytes is the second piece as it is; else all is the first piece.
fn framed(
    alloc: Global,
    status: Status,
    content_type: ContentType,
    prefix: &[u8],
    rest: Vec<u8>,
) -> Result<AnswerBytes, AllocError>
    requires { length prefix.now < 2 ^ 10 }
    ensures { IfOk result (λ bytes. bytes.front.items ++ bytes.rest.items
        ≡ head_of status content_type (length prefix.now + vec_len rest) ++ (prefix.now ++ rest.items)) }
{
    let text = head(
        alloc,
        status,
        content_type.name(),
        prefix.len() + rest.len(),
    )?;
    let mut front = text.into_bytes();
    let head = front.len();
    front.extend_from_slice(prefix)?;
    if rest.len() > MOST_COPIED {
        return Ok(AnswerBytes {
            front,
            rest,
            head,
            status,
            content_type,
        });
    }
    front.extend_from_slice(&rest)?;
    Ok(AnswerBytes {
        front,
        rest: Vec::new(alloc),
        head,
        status,
        content_type,
    })
}

/// Returns the number and the reason of a status line.
fn status_line(alloc: Global, status: Status) -> Result<String, AllocError>
    ensures { IfOk result (λ text. string_bytes text ≡ status_line_of status) }
{
    let (number, reason) = (status.number(), status.reason());
    Ok(format!(in alloc; "{number} {reason}")?)
}

/// Returns the head before a body of `length` bytes.
fn head(
    alloc: Global,
    status: Status,
    content_type: &str,
    length: usize,
) -> Result<String, AllocError>
    ensures { IfOk result (λ text. string_bytes text ≡ head_named status content_type.now length) }
{
    let line = status_line(alloc, status)?;
    let line = line.as_str();
    Ok(format!(in alloc;
        "HTTP/1.1 {line}\r\ncontent-type: {content_type}\r\ncontent-length: {length}\r\nconnection: close\r\n\r\n"
    )?)
}
