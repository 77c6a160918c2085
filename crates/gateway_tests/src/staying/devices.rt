//! A peer that sends what comes in parts, and takes what is written a few bytes at a time.

use gateway_requests::{Answer, AnswerBytes, Progress, Routes};
use persistent_exchange::{Course, RequestStream, WholeRequest};
use std::alloc::{AllocError, Global};
use std::io;
use std::io::{ErrorKind, Read, Write};

/// How often a connection is asked at most.
const MOST_CALLS: u32 = 100_000;

/// The bytes that have come of a peer and were not read.
#[derive(Drop)]
pub(super) struct Sender<'a> {
    pub(super) left: &'a [u8],
    /// Whether the peer sends nothing after them.
    pub(super) has_ended: bool,
}

impl<'a> Read for Sender<'a> {
    fn read(&mut self, buffer: &mut [u8]) -> io::Result<usize> {
        if self.left.is_empty() && !self.has_ended {
            return Err(io::Error::from(ErrorKind::WouldBlock));
        }
        let count = self.left.len().min(buffer.len());
        buffer[..count].copy_from_slice(&self.left[..count]);
        self.left = &self.left[count..];
        Ok(count)
    }
}

/// What a peer has received. It takes at most `most` bytes at once, and none at each second call.
#[derive(Drop)]
pub(super) struct Receiver {
    taken: Vec<u8>,
    most: usize,
    is_full: bool,
}

impl Write for Receiver {
    fn write(&mut self, bytes: &[u8]) -> io::Result<usize> {
        self.is_full = !self.is_full;
        if !self.is_full {
            return Err(io::Error::from(ErrorKind::WouldBlock));
        }
        let count = self.most.min(bytes.len());
        self.taken.extend_from_slice(&bytes[..count])?;
        Ok(count)
    }

    fn flush(&mut self) -> io::Result<()> {
        Ok(())
    }
}

/// What came of a connection.
#[derive(Drop)]
pub(super) struct Seen {
    /// What was asked, a line a request: its method, its target, and its content in brackets.
    asked: Vec<u8>,
    receiver: Receiver,
    /// The number of requests.
    count: u8,
}

impl Seen {
    /// Returns nothing yet, of a peer that takes at most `most` bytes at once.
    pub(super) fn nothing(alloc: Global, most: usize) -> Seen {
        Seen {
            asked: Vec::new(alloc),
            receiver: Receiver {
                taken: Vec::new(alloc),
                most,
                is_full: false,
            },
            count: 0,
        }
    }

    /// Returns whether this was asked, a line a request, and this written, and nothing else.
    pub(super) fn is_exactly(&self, asked: &str, written: &str) -> bool {
        let mut right = self.asked.as_slice() == asked.as_bytes();
        right &= self.receiver.taken.as_slice() == written.as_bytes();
        right
    }
}

/// Writes all there is to write.
fn write(stream: &mut RequestStream, receiver: &mut Receiver) {
    for _ in 0..MOST_CALLS {
        match stream.send(receiver) {
            Progress::Blocked | Progress::Ready => {}
            _ => return,
        }
    }
}

/// Appends the line of a request. The error is that memory ran out.
fn put_line(request: &WholeRequest, asked: &mut Vec<u8>) -> Result<(), AllocError> {
    for part in [
        request.method(),
        " ".as_bytes(),
        request.target().as_bytes(),
        " [".as_bytes(),
        request.content(),
        "]\n".as_bytes(),
    ] {
        asked.extend_from_slice(part)?;
    }
    Ok(())
}

/// Returns the answer that is a number. The error is that memory ran out.
fn answer_of(alloc: Global, number: u8) -> Result<AnswerBytes, AllocError> {
    let text = format!(in alloc; "{number}")?;
    Answer::Reply(text).into_bytes(alloc)
}

/// Notes what a request asks. Returns its answer, which is its number. The error is that memory ran out.
fn noted(
    alloc: Global,
    request: &WholeRequest,
    seen: &mut Seen,
) -> Result<AnswerBytes, AllocError> {
    put_line(request, &mut seen.asked)?;
    seen.count = seen.count.wrapping_add(1);
    answer_of(alloc, seen.count)
}

/// Answers the request that has come whole, where it has no fault, and goes on to the next. The error is that memory
/// ran out.
fn answer(
    alloc: Global,
    routes: &Routes,
    stream: &mut RequestStream,
    seen: &mut Seen,
) -> Result<(), AllocError> {
    if let Some(Ok(request)) = stream.take_request(routes) {
        stream.answer(noted(alloc, &request, seen)?, None)?;
        write(stream, &mut seen.receiver);
        stream.turn();
    }
    Ok(())
}

/// Handles all that a sender has. Returns how far the requests have come then: `Failed` where memory ran out.
pub(super) fn go_on(
    alloc: Global,
    routes: &Routes,
    stream: &mut RequestStream,
    sender: &mut Sender<'_>,
    seen: &mut Seen,
) -> Course {
    for _ in 0..MOST_CALLS {
        match stream.receive(routes, sender, None) {
            Course::Asked => {
                if answer(alloc, routes, stream, seen).is_err() {
                    return Course::Failed;
                }
            }
            Course::Pending => write(stream, &mut seen.receiver),
            Course::Ready => {}
            end => return end,
        }
    }
    Course::Ready
}
