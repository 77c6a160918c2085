//! How long connections may take, and how many there may be.

use std::hash::RandomState;
use std::time::Duration;

/// How connections stay for more than one request (RFC 9112, section 9.3).
#[derive(Clone, Copy)]
pub struct Persistence {
    /// Secret keys for the maps of the fields of requests, whose names the peers choose.
    pub keys: RandomState,
    /// The time from the last byte of an answer to the first byte of the next request.
    pub idle: Duration,
}

/// How long a connection may take for each of its parts, and what the connections of a thread may hold.
#[derive(Clone, Copy)]
pub struct Bounds {
    /// The time from the connection to the end of the head; on a connection that stays, from the first byte of the
    /// request.
    pub head: Duration,
    /// The time from the same moment to the end of the request.
    pub request: Duration,
    /// The time from the first byte of the answer to the last.
    pub answer: Duration,
    /// The time from the last byte of the answer to the end of what the client still sends.
    pub rest: Duration,
    /// The number of connections of a thread that may be open at once.
    pub open: usize,
    /// The number of bytes of requests and answers that the connections of a thread may hold, beside the request that
    /// is served.
    pub bytes: usize,
    /// The number of connections that a thread accepts, or 0 for no end.
    pub each: u32,
    /// How connections stay. `None` where each is closed after its first answer.
    pub persistence: Option<Persistence>,
}
