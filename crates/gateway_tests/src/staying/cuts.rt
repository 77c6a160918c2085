//! Five requests, cut at each byte, and a byte at a time: each is seen once, and answered in its turn.

use crate::staying::devices::{Seen, Sender, go_on};
use gateway_requests::Routes;
use persistent_exchange::{Course, RequestStream};
use std::alloc::{AllocError, Global};
use std::hash::RandomState;
use std::test::Fail;

/// Five requests without a pause between them: without content, with a length, in chunks, one whose client waits for
/// `100 Continue`, and the last of the connection.
const REQUESTS: &[u8] = b"GET /subjects HTTP/1.1\r\nhost: h\r\n\r\n\
POST /transcode/5?q HTTP/1.1\r\nHost: h\r\nContent-Length: 5\r\n\r\nGET /\
POST /transcode/6 HTTP/1.1\r\nhost: h\r\ntransfer-encoding: chunked\r\n\r\n4\r\nab\r\n\r\n5;x=y\r\ncdefg\r\n0\r\nt: u\r\n\r\n\
PUT /config HTTP/1.1\r\nhost: h\r\nexpect: 100-continue\r\ncontent-length: 2\r\n\r\n\r\n\
GET /config HTTP/1.1\r\nhost: h\r\nconnection: close\r\n\r\n";

/// What they ask, one line each: the method, the target, and the content in brackets.
const ASKED: &str =
    "GET /subjects []\nPOST /transcode/5?q [GET /]\nPOST /transcode/6 [ab\r\ncdefg]\n\
PUT /config [\r\n]\nGET /config []\n";

/// What is written in answer: to the first request its number, and so on.
const ANSWERS: &str =
    "HTTP/1.1 200 OK\r\ncontent-type: application/vnd.schemaregistry.v1+json\r\ncontent-length: 1\r\n\r\n1\
HTTP/1.1 200 OK\r\ncontent-type: application/vnd.schemaregistry.v1+json\r\ncontent-length: 1\r\n\r\n2\
HTTP/1.1 200 OK\r\ncontent-type: application/vnd.schemaregistry.v1+json\r\ncontent-length: 1\r\n\r\n3\
HTTP/1.1 100 Continue\r\n\r\n\
HTTP/1.1 200 OK\r\ncontent-type: application/vnd.schemaregistry.v1+json\r\ncontent-length: 1\r\n\r\n4\
HTTP/1.1 200 OK\r\ncontent-type: application/vnd.schemaregistry.v1+json\r\ncontent-length: 1\r\nconnection: close\r\n\r\n5";

/// In which parts the requests come, and how many bytes of the answers are taken at once.
#[derive(Clone, Copy)]
struct Parts {
    /// The number of bytes of the first part.
    first: usize,
    /// The number of bytes of each later part.
    later: usize,
    /// The number of bytes that the peer takes at once at most.
    most: usize,
}

/// Handles the requests in parts. Returns how far they have come.
fn come_in(
    alloc: Global,
    routes: &Routes,
    stream: &mut RequestStream,
    seen: &mut Seen,
    parts: Parts,
) -> Course {
    let mut course = Course::Blocked;
    let (mut part, mut left) = REQUESTS.split_at(parts.first.min(REQUESTS.len()));
    for _ in 0..=REQUESTS.len() {
        let mut sender = Sender {
            left: part,
            has_ended: false,
        };
        course = go_on(alloc, routes, stream, &mut sender, seen);
        if left.is_empty() {
            break;
        }
        (part, left) = left.split_at(parts.later.min(left.len()));
    }
    course
}

/// Returns whether all five requests are seen where they come in such parts, and answered in order, and the connection
/// is closed then.
fn are_answered(alloc: Global, routes: &Routes, keys: RandomState, parts: Parts) -> bool {
    let mut stream = RequestStream::new(alloc, keys);
    let mut seen = Seen::nothing(alloc, parts.most);
    let mut right = come_in(alloc, routes, &mut stream, &mut seen, parts) == Course::Over;
    right &= seen.is_exactly(ASKED, ANSWERS);
    right
}

/// Returns whether the requests are answered wherever they are cut in two. The error is that there was no memory for
/// the routes.
fn are_answered_at_each_cut(alloc: Global, keys: RandomState) -> Result<bool, AllocError> {
    let routes = Routes::new(alloc)?;
    let mut right = true;
    for first in 0..REQUESTS.len() {
        let parts = Parts {
            first,
            later: REQUESTS.len(),
            most: 4_096,
        };
        right &= are_answered(alloc, &routes, keys, parts);
    }
    Ok(right)
}

/// Returns whether the requests are answered where they come a byte at a time, to peers that take one byte at once, 7,
/// or all. The error is that there was no memory for the routes.
fn are_answered_by_bytes(alloc: Global, keys: RandomState) -> Result<bool, AllocError> {
    let routes = Routes::new(alloc)?;
    let mut right = true;
    for most in [1, 7, 4_096] {
        let parts = Parts {
            first: 0,
            later: 1,
            most,
        };
        right &= are_answered(alloc, &routes, keys, parts);
    }
    Ok(right)
}

#[test]
fn five_requests_cut_at_each_byte(rt: HostRuntime) -> Result<(), Fail> {
    let keys = RandomState::new(&rt)?;
    assert!(rt; are_answered_at_each_cut(rt.alloc(), keys)?);
    Ok(())
}

#[test]
fn five_requests_a_byte_at_a_time(rt: HostRuntime) -> Result<(), Fail> {
    let keys = RandomState::new(&rt)?;
    assert!(rt; are_answered_by_bytes(rt.alloc(), keys)?);
    Ok(())
}
