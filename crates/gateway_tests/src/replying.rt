//! Requests that were received elsewhere, and get the answers of those that are read.

ghost use Rattle.std.specs.Prelude.{◌≡◌, ◌≤◌, IfOk, IfSome, length, vec_len};
ghost use Rattle.gateway_requests.specs.Request.{request_of};
ghost use Rattle.gateway_requests.specs.Sizes.{IsWithin};
ghost use Rattle.spec_service.specs.declared.limits.TheConstants.{MOST_BODY};
ghost use Rattle.session_pool.specs.Seats.{Rests};

use crate::asking::{Exchange, is_answered};
use crate::schemas::are_both_registered;
use crate::trials::{Question, Trial, succeeds};
use gateway::{AnswerBytes, App, Gate, Helping, reply_to};
use gateway_requests::{Fault, Request, transcoding_of};
use session_pool::ClientSeat;
use std::alloc::{AllocError, Global};
use std::sync::Wait;
use wire_frames::Message;

/// The first bytes of a request with the long message, for the reader of T's record with its fields the other way
/// round.
const LONG_REQUEST: &[u8] = b"POST /transcode/2 HTTP/1.1\r\ncontent-length: 70009\r\n\r\n\
\x00\x00\x00\x00\x01\x36\xe0\xc5\x08";

/// The first bytes of the long message: T's record of 27 and a text of 70,000 letters.
const LONG_BEGINNING: &[u8] = b"\x00\x00\x00\x00\x01\x36\xe0\xc5\x08";

/// The first bytes of the answer to it.
const LONG_ANSWER: &[u8] = b"HTTP/1.1 200 OK\r\ncontent-type: application/octet-stream\r\n\
content-length: 70009\r\nconnection: close\r\n\r\n\x00\x00\x00\x00\x02\xe0\xc5\x08";

/// A request whose body is cut short.
const CUT: &[u8] =
    b"POST /transcode/2 HTTP/1.1\r\ncontent-length: 70009\r\n\r\n\x00\x00\x00\x00\x01\x36";

/// The answer to it.
const BAD_REQUEST: &[u8] = b"HTTP/1.1 400 Bad Request\r\n\
content-type: application/vnd.schemaregistry.v1+json\r\ncontent-length: 42\r\nconnection: close\r\n\r\n\
{\"error_code\":400,\"message\":\"bad request\"}";

/// A request of no route.
const NOWHERE: &[u8] = b"GET /nowhere HTTP/1.1\r\n\r\n";

/// The answer to it.
const NO_ROUTE: &[u8] = b"HTTP/1.1 404 Not Found\r\n\
content-type: application/vnd.schemaregistry.v1+json\r\ncontent-length: 44\r\nconnection: close\r\n\r\n\
{\"error_code\":404,\"message\":\"no such route\"}";

/// The request that is cut short, and its answer.
const CUT_REFUSED: Exchange<'static> = Exchange {
    request: CUT,
    answer: BAD_REQUEST,
};

/// The request of no route, and its answer.
const NOWHERE_REFUSED: Exchange<'static> = Exchange {
    request: NOWHERE,
    answer: NO_ROUTE,
};

/// Returns some bytes, and 70,000 letters after them.
fn with_letters(alloc: Global, beginning: &[u8]) -> Result<Vec<u8>, AllocError>
    requires { length beginning.now ≤ 1000 }
    ensures { IfOk result (λ bytes. vec_len bytes ≤ MOST_BODY) }
{
    let mut bytes = beginning.to_vec(alloc)?;
    bytes.resize(beginning.len() + 70_000, b'x')?;
    Ok(bytes)
}

/// Returns the answer to the request with the long message.
fn answer_to_long(alloc: Global) -> Result<Vec<u8>, AllocError> {
    let mut answer = with_letters(alloc, LONG_ANSWER)?;
    answer.push(0x36)?;
    Ok(answer)
}

/// Returns what asks for the message in a body, which is `None` where it was cut short.
fn transcoding(alloc: Global, body: Option<&[u8]>) -> Result<Request, Fault>
    requires { IfSome body (λ bytes. length bytes.now ≤ MOST_BODY) }
    ensures { IfOk result (λ r. IsWithin MOST_BODY (request_of r)) }
{
    let path = "/transcode/2".as_bytes();
    match body {
        Some(bytes) => transcoding_of(path, Some(Message::of(alloc, bytes)?)),
        None => transcoding_of(path, None),
    }
}

/// Returns the bytes of an answer in one piece.
fn joined(bytes: AnswerBytes) -> Result<Vec<u8>, AllocError> {
    let mut all = bytes.front;
    all.extend_from_slice(&bytes.rest)?;
    Ok(all)
}

/// Returns the bytes of the reply to a request, in one piece.
fn replied<'p, R: Wait, G: Gate>(
    rt: &R,
    app: &App<'_, 'p>,
    seat: &mut ClientSeat<'p>,
    gate: &mut G,
    request: Result<Request, Fault>,
) -> Result<Vec<u8>, AllocError>
    requires seat { Rests app.now.pool.now seat.old }
    requires size { IfOk request (λ r. IsWithin MOST_BODY (request_of r)) }
    ensures { Rests app.now.pool.now seat.new }
{
    let bytes = reply_to(rt, app, seat, gate, request)?.bytes;
    joined(bytes)
}

/// Returns whether the reply to a request is the answer that is wanted.
fn is_replied<'p, R: Wait, G: Gate>(
    rt: &R,
    app: &App<'_, 'p>,
    seat: &mut ClientSeat<'p>,
    gate: &mut G,
    request: Result<Request, Fault>,
    answer: &[u8],
) -> bool
    requires seat { Rests app.now.pool.now seat.old }
    requires size { IfOk request (λ r. IsWithin MOST_BODY (request_of r)) }
    ensures { Rests app.now.pool.now seat.new }
{
    match replied(rt, app, seat, gate, request) {
        Ok(found) => found.as_slice() == answer,
        Err(AllocError) => false,
    }
}

/// Returns whether a request with the long message gets its answer. The error is that there was no memory for these.
fn is_long_served<'p, R: Wait, G: Gate>(
    rt: &R,
    alloc: Global,
    app: &App<'_, 'p>,
    seat: &mut ClientSeat<'p>,
    gate: &mut G,
) -> Result<bool, AllocError>
    requires { Rests app.now.pool.now seat.old }
    ensures { Rests app.now.pool.now seat.new }
{
    let request = with_letters(alloc, LONG_REQUEST)?;
    let answer = answer_to_long(alloc)?;
    let exchange = Exchange {
        request: &request,
        answer: &answer,
    };
    Ok(is_answered(rt, alloc, app, seat, gate, exchange))
}

/// Returns whether the long message gets its answer where it was received elsewhere. The error is that there was no
/// memory for these.
fn is_long_replied<'p, R: Wait, G: Gate>(
    rt: &R,
    alloc: Global,
    app: &App<'_, 'p>,
    seat: &mut ClientSeat<'p>,
    gate: &mut G,
) -> Result<bool, AllocError>
    requires { Rests app.now.pool.now seat.old }
    ensures { Rests app.now.pool.now seat.new }
{
    let message = with_letters(alloc, LONG_BEGINNING)?;
    let answer = answer_to_long(alloc)?;
    let request = transcoding(alloc, Some(&message));
    Ok(is_replied(rt, app, seat, gate, request, &answer))
}

/// Returns whether a message whose body is cut short and a request of no route get their answers, in the same two ways.
fn are_faults_answered<'p, R: Wait, G: Gate>(
    rt: &R,
    alloc: Global,
    app: &App<'_, 'p>,
    seat: &mut ClientSeat<'p>,
    gate: &mut G,
) -> bool
    requires { Rests app.now.pool.now seat.old }
{
    let mut right = is_answered(rt, alloc, app, seat, gate, CUT_REFUSED);
    let cut = transcoding(alloc, None);
    right &= is_replied(rt, app, seat, gate, cut, BAD_REQUEST);
    right &= is_answered(rt, alloc, app, seat, gate, NOWHERE_REFUSED);
    right &= is_replied(rt, app, seat, gate, Err(Fault::NoRoute), NO_ROUTE);
    right
}

/// Asks for the long message and for two faults, as requests that are read and as such that were received. Returns
/// whether each gets its answer.
pub(crate) fn are_replies_as_served<'p, R: Wait + AllocGlobal>(
    rt: &R,
    app: &App<'_, 'p>,
    seat: &mut ClientSeat<'p>,
    gate: &mut Helping<'_, 'p>,
) -> bool
    requires { Rests app.now.pool.now seat.old }
{
    let alloc = rt.alloc();
    let mut right = are_both_registered(rt, alloc, app.registry);
    right &= is_long_served(rt, alloc, app, seat, gate).unwrap_or(false);
    right &= is_long_replied(rt, alloc, app, seat, gate).unwrap_or(false);
    right &= are_faults_answered(rt, alloc, app, seat, gate);
    right
}

#[test]
fn replies_are_the_answers_that_are_served(rt: HostRuntime) -> Result<(), AllocError> {
    assert!(rt; succeeds(&rt, 1, 1, Trial::Asked(Question::Replies))?);
    Ok(())
}
