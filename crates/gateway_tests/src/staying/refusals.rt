//! Requests that are refused by their head, contents that are too long, and bytes that are no request.

use crate::staying::devices::{Seen, Sender, go_on};
use gateway_requests::{Fault, Routes};
use http_server::Config;
use persistent_exchange::{Course, PersistentExchange, Refusal, RequestStream, Sighting};
use std::alloc::{AllocError, Global};
use std::hash::RandomState;
use std::test::Fail;

/// The number of bytes of a content at most.
const MOST: usize = 8;

/// How often a connection reads, or looks, at most.
const MOST_CALLS: u32 = 100;

/// Contents of the longest length, longer ones, one that is cut, and a head with two hosts.
const CONTENTS: [&str; 7] = [
    "POST /a HTTP/1.1\r\nhost: h\r\ncontent-length: 8\r\n\r\n12345678",
    "POST /a HTTP/1.1\r\nhost: h\r\ncontent-length: 9\r\n\r\n",
    "POST /a HTTP/1.1\r\nhost: h\r\ntransfer-encoding: chunked\r\n\r\n8\r\n12345678\r\n0\r\n\r\n",
    "POST /a HTTP/1.1\r\nhost: h\r\ntransfer-encoding: chunked\r\n\r\n9\r\n123456789",
    "POST /a HTTP/1.1\r\nhost: h\r\ntransfer-encoding: chunked\r\n\r\n8\r\n12345678\r\n1\r\n9",
    "POST /a HTTP/1.1\r\nhost: h\r\ncontent-length: 8\r\n\r\n1234567",
    "GET /a HTTP/1.1\r\nhost: a\r\nhost: b\r\n\r\n",
];

/// What ends the looks at each.
const CONTENT_ENDS: &str = "\
Ok(End)
Err(TooLarge)
Ok(End)
Err(TooLarge)
Err(TooLarge)
Ok(Nothing)
Err(Unreadable(Host))
";

/// Receives all of some bytes. Returns whether there was memory for them.
fn takes(exchange: &mut PersistentExchange, bytes: &[u8]) -> bool {
    let mut left = bytes;
    for _ in 0..MOST_CALLS {
        if left.is_empty() {
            break;
        }
        if exchange.receive(&mut left).is_err() {
            return false;
        }
    }
    true
}

/// Looks at what has come until that is neither a head nor a piece. Returns what it is.
fn end_of_looks(exchange: &mut PersistentExchange) -> Result<Sighting, Refusal> {
    for _ in 0..MOST_CALLS {
        match exchange.look() {
            Ok(Sighting::Head | Sighting::Piece) => {}
            end => return end,
        }
    }
    Ok(Sighting::Nothing)
}

/// Returns what ends the looks at some bytes.
fn end_of(alloc: Global, keys: RandomState, bytes: &[u8]) -> Result<Sighting, Refusal> {
    let config = Config {
        max_body_len: MOST,
        ..Config::default()
    };
    let mut exchange = PersistentExchange::new(alloc, keys, config);
    if takes(&mut exchange, bytes) {
        end_of_looks(&mut exchange)
    } else {
        Err(Refusal::NoMemory)
    }
}

/// Returns a line for each of the contents: what ends the looks at it. The error is that there was no memory for the
/// lines.
fn ends_of_contents(alloc: Global, keys: RandomState) -> Result<String, AllocError> {
    let mut lines = String::new(alloc);
    for text in CONTENTS {
        let end = end_of(alloc, keys, text.as_bytes());
        write!(lines, "{end:?}\n")?;
    }
    Ok(lines)
}

#[test]
fn contents_that_are_too_long(rt: HostRuntime) -> Result<(), Fail> {
    let keys = RandomState::new(&rt)?;
    let found = ends_of_contents(rt.alloc(), keys)?;
    assert_eq!(rt; found.as_str(), CONTENT_ENDS);
    Ok(())
}

/// What came of the requests of a connection.
#[derive(Clone, Copy)]
struct End {
    /// How far they came.
    course: Course,
    /// The fault for which the connection was closed.
    fault: Option<Fault>,
}

/// Handles the bytes of a connection, after which the peer ends. Returns what came of its requests.
fn end_after(
    alloc: Global,
    routes: &Routes,
    keys: RandomState,
    bytes: &[u8],
    seen: &mut Seen,
) -> End {
    let mut stream = RequestStream::new(alloc, keys);
    let mut sender = Sender {
        left: bytes,
        has_ended: true,
    };
    let course = go_on(alloc, routes, &mut stream, &mut sender, seen);
    End {
        course,
        fault: stream.fault(),
    }
}

/// What comes over a connection: nothing, a request without fault, and then requests that are refused.
const REQUESTS: [&str; 12] = [
    "",
    "GET /subjects HTTP/1.1\r\nhost: h\r\n\r\n",
    "POST /transcode/1 HTTP/1.1\r\nhost: h\r\ncontent-length: 16777222\r\n\r\n",
    "POST /nowhere HTTP/1.1\r\nhost: h\r\ncontent-length: 16777222\r\n\r\n",
    "POST /transcode/1 HTTP/1.1\r\nhost: h\r\ntransfer-encoding: gzip, chunked\r\n\r\n",
    "POST /transcode/1 HTTP/1.1\r\nhost: h\r\ntransfer-encoding: chunked\r\n\r\n+1\r\n",
    "POST /transcode/1 HTTP/1.1\r\nhost: h\r\ncontent-length: 1\r\ntransfer-encoding: chunked\r\n\r\n",
    "POST /transcode/1 HTTP/1.1\r\nhost: h\r\ncontent-length: 9\r\n\r\n12345678",
    "DELETE /config HTTP/1.1\r\nhost: h\r\n\r\n",
    "GET /subjects HTTP/1.1\r\n\r\n",
    "GET /subjects HTTP/1.1\nhost: h\n\n",
    "GET /subj",
];

/// What came of each.
const REQUEST_ENDS: &str = "\
Over None
Over None
Over Some(TooLarge)
Over Some(NoRoute)
Over Some(UnknownCoding)
Over Some(BadRequest)
Over Some(BadRequest)
Over Some(BadRequest)
Over Some(NotAllowed)
Over Some(BadRequest)
Over Some(BadRequest)
Over Some(BadRequest)
";

/// Handles the bytes of a connection, after which the peer ends. Returns what came of its requests, and not what was
/// written.
fn end_alone(alloc: Global, routes: &Routes, keys: RandomState, bytes: &[u8]) -> End {
    let mut seen = Seen::nothing(alloc, 4_096);
    end_after(alloc, routes, keys, bytes, &mut seen)
}

/// Returns a line for each of the requests: how far it came, and for which fault its connection was closed. The error
/// is that there was no memory for the lines, or for the routes.
fn ends_of_requests(alloc: Global, keys: RandomState) -> Result<String, AllocError> {
    let routes = Routes::new(alloc)?;
    let mut lines = String::new(alloc);
    for text in REQUESTS {
        let end = end_alone(alloc, &routes, keys, text.as_bytes());
        write!(lines, "{:?} {:?}\n", end.course, end.fault)?;
    }
    Ok(lines)
}

#[test]
fn requests_that_are_refused(rt: HostRuntime) -> Result<(), Fail> {
    let keys = RandomState::new(&rt)?;
    let found = ends_of_requests(rt.alloc(), keys)?;
    assert_eq!(rt; found.as_str(), REQUEST_ENDS);
    Ok(())
}

/// A request without fault, one that is refused by its head, and one that is not read any more.
const REFUSED_SECOND: &str =
    "GET /subjects HTTP/1.1\r\nhost: h\r\n\r\nHEAD /config HTTP/1.1\r\nhost: h\r\n\r\nGET /config";

/// What is asked of them.
const ASKED_BEFORE: &str = "GET /subjects []\n";

/// What is written in answer.
const WRITTEN: &str = "HTTP/1.1 200 OK\r\ncontent-type: application/vnd.schemaregistry.v1+json\r\n\
content-length: 1\r\n\r\n1HTTP/1.1 405 Method Not Allowed\r\ncontent-type: application/vnd.schemaregistry.v1+json\r\n\
content-length: 49\r\nconnection: close\r\n\r\n";

/// Returns whether the second of three requests is refused for its method, after the answer to the first. The error is
/// that there was no memory for the routes.
fn is_refused_second(alloc: Global, keys: RandomState) -> Result<bool, AllocError> {
    let routes = Routes::new(alloc)?;
    let mut seen = Seen::nothing(alloc, 4_096);
    let end = end_after(alloc, &routes, keys, REFUSED_SECOND.as_bytes(), &mut seen);
    let mut right = end.fault == Some(Fault::NotAllowed);
    right &= seen.is_exactly(ASKED_BEFORE, WRITTEN);
    Ok(right)
}

#[test]
fn a_refusal_follows_the_answers_before_it(rt: HostRuntime) -> Result<(), Fail> {
    let keys = RandomState::new(&rt)?;
    assert!(rt; is_refused_second(rt.alloc(), keys)?);
    Ok(())
}
