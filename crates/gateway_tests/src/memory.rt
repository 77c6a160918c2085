//! Requests that are asked again where memory was refused.

ghost use Rattle.session_pool.specs.Seats.{Rests};

use crate::asking::{Exchange, MESSAGE_REWRITTEN, ask};
use crate::trials::{Question, Trial, succeeds};
use gateway::{App, Gate, Helping, ServeError};
use session_pool::ClientSeat;
use std::alloc::{AllocError, Global};
use std::sync::Wait;

/// Registers a record of a long and a string.
const REGISTER: &[u8] = b"POST /subjects/s/versions HTTP/1.1\r\ncontent-length: 134\r\n\r\n\
{\"schema\":\"{\\\"type\\\":\\\"record\\\",\\\"name\\\":\\\"T\\\",\\\"fields\\\":[{\\\"name\\\":\\\"a\\\",\\\"type\\\":\\\"long\\\"},{\\\"name\\\":\\\"b\\\",\\\"type\\\":\\\"string\\\"}]}\"}";

/// Registers that record with its fields the other way round.
const REGISTER_SWAPPED: &[u8] = b"POST /subjects/t/versions HTTP/1.1\r\ncontent-length: 134\r\n\r\n\
{\"schema\":\"{\\\"type\\\":\\\"record\\\",\\\"name\\\":\\\"T\\\",\\\"fields\\\":[{\\\"name\\\":\\\"b\\\",\\\"type\\\":\\\"string\\\"},{\\\"name\\\":\\\"a\\\",\\\"type\\\":\\\"long\\\"}]}\"}";

/// The answer to the first.
const FIRST: &[u8] = b"HTTP/1.1 200 OK\r\n\
content-type: application/vnd.schemaregistry.v1+json\r\ncontent-length: 8\r\nconnection: close\r\n\r\n\
{\"id\":1}";

/// The answer to the second.
const SECOND: &[u8] = b"HTTP/1.1 200 OK\r\n\
content-type: application/vnd.schemaregistry.v1+json\r\ncontent-length: 8\r\nconnection: close\r\n\r\n\
{\"id\":2}";

/// The first, and its answer.
const REGISTERED: Exchange<'static> = Exchange {
    request: REGISTER,
    answer: FIRST,
};

/// The second, and its answer.
const SWAPPED_REGISTERED: Exchange<'static> = Exchange {
    request: REGISTER_SWAPPED,
    answer: SECOND,
};

/// The answer where memory ran out.
const NO_MEMORY: &[u8] = b"HTTP/1.1 503 Service Unavailable\r\n\
content-type: application/vnd.schemaregistry.v1+json\r\ncontent-length: 42\r\nconnection: close\r\n\r\n\
{\"error_code\":50301,\"message\":\"no memory\"}";

/// Returns the answer to a request, which is asked once more where the answer says that memory ran out or finds none
/// for itself.
fn asked_again<'p, R: Wait, G: Gate>(
    rt: &R,
    alloc: Global,
    app: &App<'_, 'p>,
    seat: &mut ClientSeat<'p>,
    gate: &mut G,
    request: &[u8],
) -> Result<Vec<u8>, ServeError>
    requires seat { Rests app.now.pool.now seat.old }
    ensures { Rests app.now.pool.now seat.new }
{
    match ask(rt, alloc, app, seat, gate, request) {
        Ok(answer) if answer.as_slice() != NO_MEMORY => Ok(answer),
        _ => ask(rt, alloc, app, seat, gate, request),
    }
}

/// Returns whether a request gets the answer that is wanted, asked once more where memory was refused.
fn is_answered_again<'p, R: Wait, G: Gate>(
    rt: &R,
    alloc: Global,
    app: &App<'_, 'p>,
    seat: &mut ClientSeat<'p>,
    gate: &mut G,
    exchange: Exchange<'_>,
) -> bool
    requires seat { Rests app.now.pool.now seat.old }
    ensures { Rests app.now.pool.now seat.new }
{
    match asked_again(rt, alloc, app, seat, gate, exchange.request) {
        Ok(answer) => answer.as_slice() == exchange.answer,
        Err(_) => false,
    }
}

/// Asks three requests, one after another, each once more where memory was refused. Returns whether each gets its
/// answer.
pub(crate) fn are_answered_again<'p, R: Wait + AllocGlobal>(
    rt: &R,
    app: &App<'_, 'p>,
    seat: &mut ClientSeat<'p>,
    gate: &mut Helping<'_, 'p>,
) -> bool
    requires seat { Rests app.now.pool.now seat.old }
{
    let alloc = rt.alloc();
    let mut right = is_answered_again(rt, alloc, app, seat, gate, REGISTERED);
    right &= is_answered_again(rt, alloc, app, seat, gate, SWAPPED_REGISTERED);
    right &= is_answered_again(rt, alloc, app, seat, gate, MESSAGE_REWRITTEN);
    right
}

#[test]
fn answers_are_the_same_after_a_refused_growth(rt: HostRuntime) -> Result<(), AllocError> {
    assert!(rt; succeeds(&rt, 1, 1, Trial::Asked(Question::Again))?);
    Ok(())
}
