//! A peer that sends bytes, few or many at a time.

use std::io::{self, ErrorKind, Read};

/// The index of a call that is never reached.
pub(crate) const NEVER: usize = usize::MAX;

/// What a peer does after its last byte.
#[derive(Clone, Copy, Debug, PartialEq, Eq)]
pub(crate) enum After {
    Closes,
    /// It keeps the connection open and sends nothing, until a deadline passes.
    Waits,
}

/// A connection to a peer: it returns at most `most` bytes at a time, is interrupted at each third call, and fails at
/// call `fails_at`.
#[derive(Drop)]
pub(crate) struct Peer<'a> {
    pub(crate) left: &'a [u8],
    pub(crate) most: usize,
    pub(crate) after: After,
    pub(crate) calls: usize,
    pub(crate) fails_at: usize,
}

impl<'a> Peer<'a> {
    pub(crate) fn new(left: &'a [u8], most: usize, after: After) -> Peer<'a> {
        Peer {
            left,
            most,
            after,
            calls: 0,
            fails_at: NEVER,
        }
    }
}

impl Read for Peer<'_> {
    fn read(&mut self, buf: &mut [u8]) -> io::Result<usize> {
        let call = self.calls;
        self.calls = call.wrapping_add(1);
        if call == self.fails_at {
            return Err(io::Error::from(ErrorKind::ConnectionReset));
        }
        if call % 3 == 1 {
            return Err(io::Error::from(ErrorKind::Interrupted));
        }
        if self.left.is_empty() && self.after == After::Waits {
            return Err(io::Error::from(ErrorKind::TimedOut));
        }
        let count = buf.len().min(self.left.len()).min(self.most);
        buf[..count].copy_from_slice(&self.left[..count]);
        self.left = &self.left[count..];
        Ok(count)
    }
}

/// A connection that a signal interrupts at each call.
#[derive(Drop)]
pub(crate) struct Interrupted {
    pub(crate) calls: usize,
}

impl Read for Interrupted {
    fn read(&mut self, _buf: &mut [u8]) -> io::Result<usize> {
        self.calls = self.calls.wrapping_add(1);
        Err(io::Error::from(ErrorKind::Interrupted))
    }
}
