//! A line for each answer on standard error, which never waits for a reader of it.

use gateway_requests::{MOST_FIELDS, path_of};
use httparse::Status;
use httparse::spans::{EMPTY_HEADER_SPAN, HeaderSpan, parse_request};
use libc::net::{EPOLL_CTL_ADD, EPOLLOUT};
use mio::Poll;
use os::EpollEvent;
use std::alloc::{AllocError, Global};
use std::net::Net;
use std::os::fd::AsRawFd;
use std::sync::Arc;
use std::sync::atomic::{AtomicBool, Ordering};
use std::time::Duration;
use std::{io, str};

/// The descriptor of standard error.
const STANDARD_ERROR: i32 = 2;

/// The greatest number of bytes of lines that a thread holds back.
const MOST_PENDING: usize = 65_536;

/// The number of bytes that a pipe takes at once where it takes any (POSIX, `PIPE_BUF`, on Linux).
const MOST_WRITTEN: usize = 4_096;

/// The number of writes after which the lock is released.
const MOST_WRITES: u32 = 16;

/// The greatest number of bytes of a path that a line shows.
const MOST_PATH: usize = 256;

/// What the threads of a service share to write lines one at a time.
#[derive(Drop)]
pub struct LogLock {
    is_taken: Arc<AtomicBool, Global>,
}

impl LogLock {
    /// Returns a lock that no thread has. The error is that memory ran out.
    pub fn new(alloc: Global) -> Result<LogLock, AllocError> {
        Ok(LogLock {
            is_taken: Arc::new(alloc, AtomicBool::new(false))?,
        })
    }

    /// Returns another handle of the lock. The error is that there are too many.
    fn share(&self) -> Result<LogLock, AllocError> {
        Ok(LogLock {
            is_taken: Arc::try_clone(&self.is_taken)?,
        })
    }

    /// Takes the lock, where no thread has it. Returns whether it did.
    fn take(&self) -> bool {
        !self.is_taken.swap(true, Ordering::Acquire)
    }

    /// Releases the lock.
    fn give_back(&self) {
        self.is_taken.store(false, Ordering::Release);
    }
}

/// What a line says of an answer.
#[derive(Clone, Copy)]
pub(crate) struct Entry {
    pub(crate) status: u16,
    /// The number of bytes that were received.
    pub(crate) received: usize,
    /// The number of bytes of the answer.
    pub(crate) sent: usize,
    /// The time from the connection to the last byte of the answer.
    pub(crate) time: Duration,
}

/// A question to an upstream registry.
#[derive(Clone, Copy, Debug, PartialEq, Eq)]
pub struct Fetch {
    /// The id whose schema was asked for.
    pub id: u32,
    /// The code of the fault that it came to; 200 where the schema is held.
    pub code: u32,
    /// The time that it took.
    pub time: Duration,
}

/// The lines of a thread that standard error has not taken yet.
#[derive(Drop)]
pub(crate) struct Log {
    alloc: Global,
    lock: LogLock,
    poll: Poll,
    /// Whether the system reports when standard error takes bytes. It does not for a file, which takes them always.
    is_reported: bool,
    pending: Vec<u8>,
    /// The number of lines that were dropped since the last one that was kept.
    dropped: u64,
}

impl Log {
    /// Returns a log without lines. The errors are the system's, and that memory ran out.
    pub(crate) fn new(net: &impl Net, alloc: Global, lock: &LogLock) -> io::Result<Log> {
        let poll = Poll::new(net)?;
        let set = poll.as_raw_fd();
        let is_reported = os::epoll_ctl(set, EPOLL_CTL_ADD, STANDARD_ERROR, EPOLLOUT, 0) >= 0;
        Ok(Log {
            alloc,
            lock: lock.share()?,
            poll,
            is_reported,
            pending: Vec::new(alloc),
            dropped: 0,
        })
    }

    /// Returns whether lines wait to be written.
    pub(crate) fn is_pending(&self) -> bool {
        !self.pending.is_empty()
    }

    /// Writes the line of an answer, or holds it back; where too much is held back, or memory runs out, it is dropped
    /// and counted.
    pub(crate) fn note(&mut self, line: &str, entry: Entry) {
        let (status, received, sent) = (entry.status, entry.received, entry.sent);
        let micros = entry.time.as_micros();
        let text = format!(in self.alloc; "{line} {status} {received} {sent} {micros}\n");
        self.keep(text);
    }

    /// Writes the line of a question to an upstream registry, or holds it back or drops it, as one of an answer.
    pub(crate) fn note_fetch(&mut self, fetch: Fetch) {
        let (id, code) = (fetch.id, fetch.code);
        let micros = fetch.time.as_micros();
        let text = format!(in self.alloc; "fetch {id} {code} {micros}\n");
        self.keep(text);
    }

    /// Writes a line or holds it back. Where there is no line because memory ran out, it counts as dropped.
    fn keep(&mut self, line: Result<String, AllocError>) {
        let is_kept = match line {
            Ok(line) => self.append(line.as_str()).is_ok(),
            Err(_) => false,
        };
        if !is_kept {
            self.dropped = self.dropped.saturating_add(1);
        }
        self.flush();
    }

    /// Appends a line to those that are held back, after one that says how many were dropped before it. The error is
    /// that there is no room.
    fn append(&mut self, line: &str) -> Result<(), AllocError> {
        let dropped = self.dropped;
        let text = if dropped > 0 {
            format!(in self.alloc; "dropped {dropped}\n{line}")?
        } else {
            String::from_str(self.alloc, line)?
        };
        if self.pending.len().saturating_add(text.len()) > MOST_PENDING {
            return Err(AllocError);
        }
        self.pending.extend_from_slice(text.as_bytes())?;
        self.dropped = 0;
        Ok(())
    }

    /// Writes what is held back, as far as standard error takes it at once.
    pub(crate) fn flush(&mut self) {
        if self.pending.is_empty() || !self.lock.take() {
            return;
        }
        for _ in 0..MOST_WRITES {
            if self.pending.is_empty() || !self.takes_bytes() {
                break;
            }
            let end = self.pending.len().min(MOST_WRITTEN);
            let count = libc::write(STANDARD_ERROR, &self.pending[..end]);
            if count <= 0 {
                break;
            }
            let written = (count as usize).min(end);
            let left = self.pending.len() - written;
            self.pending.copy_within(written.., 0);
            self.pending.truncate(left);
        }
        self.lock.give_back();
    }

    /// Returns whether standard error takes bytes at once.
    fn takes_bytes(&self) -> bool {
        if !self.is_reported {
            return true;
        }
        let mut events = [EpollEvent { events: 0, data: 0 }; 1];
        os::epoll_wait(self.poll.as_raw_fd(), &mut events, 0) > 0
    }
}

/// Returns the method and the path of a request by the bytes of its head, as a line shows them: the path without its
/// query, and cut. `- -` where the bytes begin with no head. The error is that memory ran out.
pub(crate) fn request_line(alloc: Global, head: &[u8]) -> Result<String, AllocError> {
    let mut headers: [HeaderSpan; MOST_FIELDS] = [EMPTY_HEADER_SPAN; MOST_FIELDS];
    let Ok(Status::Complete(spans)) = parse_request(head, &mut headers) else {
        return String::from_str(alloc, "- -");
    };
    let Ok(method) = str::from_utf8(spans.method.of(head)) else {
        return String::from_str(alloc, "- -");
    };
    shown_line(alloc, method, path_of(spans.path.of(head)))
}

/// Returns a method and a path as a line shows them: the path cut. The error is that memory ran out.
fn shown_line(alloc: Global, method: &str, path: &str) -> Result<String, AllocError> {
    let shown = path.get(..MOST_PATH).unwrap_or(path);
    format!(in alloc; "{method} {shown}")
}

/// Returns the method and the path of a request by its method and its target, as `request_line` does by the bytes of
/// its head.
pub(crate) fn target_line(
    alloc: Global,
    method: &[u8],
    target: &[u8],
) -> Result<String, AllocError> {
    match (str::from_utf8(method), str::from_utf8(target)) {
        (Ok(method), Ok(target)) => shown_line(alloc, method, path_of(target.as_bytes())),
        _ => String::from_str(alloc, "- -"),
    }
}
