//! A request that is answered in memory.

ghost use Rattle.session_pool.specs.Seats.{Rests};

use gateway::{App, Gate, ServeError, serve_one};
use session_pool::ClientSeat;
use std::alloc::Global;
use std::sync::Wait;

/// A request, and the bytes of the answer that is wanted.
#[derive(Clone, Copy)]
pub(crate) struct Exchange<'a> {
    pub(crate) request: &'a [u8],
    pub(crate) answer: &'a [u8],
}

/// The message of T's record of 27 and `foo` for its reader, as a request.
pub(crate) const MESSAGE: &[u8] =
    b"POST /transcode/2 HTTP/1.1\r\ncontent-length: 10\r\n\r\n\x00\x00\x00\x00\x01\x36\x06foo";

/// The answer to it.
pub(crate) const REWRITTEN: &[u8] = b"HTTP/1.1 200 OK\r\ncontent-type: application/octet-stream\r\n\
content-length: 10\r\nconnection: close\r\n\r\n\x00\x00\x00\x00\x02\x06foo\x36";

/// The message, and its answer.
pub(crate) const MESSAGE_REWRITTEN: Exchange<'static> = Exchange {
    request: MESSAGE,
    answer: REWRITTEN,
};

/// The answer where all slots are taken.
pub(crate) const FULL: &[u8] = b"HTTP/1.1 503 Service Unavailable\r\n\
content-type: application/vnd.schemaregistry.v1+json\r\ncontent-length: 37\r\nconnection: close\r\n\r\n\
{\"error_code\":50302,\"message\":\"full\"}";

/// The answer where a gate said no.
pub(crate) const NOT_FINISHED: &[u8] = b"HTTP/1.1 503 Service Unavailable\r\n\
content-type: application/vnd.schemaregistry.v1+json\r\ncontent-length: 45\r\nconnection: close\r\n\r\n\
{\"error_code\":50303,\"message\":\"not finished\"}";

/// Returns the bytes of the answer to a request.
pub(crate) fn ask<'p, R: Wait, G: Gate>(
    rt: &R,
    alloc: Global,
    app: &App<'_, 'p>,
    seat: &mut ClientSeat<'p>,
    gate: &mut G,
    request: &[u8],
) -> Result<Vec<u8>, ServeError>
    requires { Rests app.now.pool.now seat.old }
    ensures { Rests app.now.pool.now seat.new }
{
    let mut reader = request;
    let mut answer = Vec::new(alloc);
    serve_one(rt, app, seat, &mut reader, &mut answer, gate)?;
    Ok(answer)
}

/// Returns whether a request gets the answer that is wanted.
pub(crate) fn is_answered<'p, R: Wait, G: Gate>(
    rt: &R,
    alloc: Global,
    app: &App<'_, 'p>,
    seat: &mut ClientSeat<'p>,
    gate: &mut G,
    exchange: Exchange<'_>,
) -> bool
    requires { Rests app.now.pool.now seat.old }
    ensures { Rests app.now.pool.now seat.new }
{
    match ask(rt, alloc, app, seat, gate, exchange.request) {
        Ok(answer) => answer.as_slice() == exchange.answer,
        Err(_) => false,
    }
}
