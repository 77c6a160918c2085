//! A reader of a request and a writer of its answer, in memory, that behave as is wanted.

use crate::calls::{Behaviour, Calls};
use std::alloc::Global;
use std::io;
use std::io::{ErrorKind, Read, Write};

/// A reader that sends the bytes of a request.
#[derive(Drop)]
pub(crate) struct Sender<'a> {
    pub(crate) calls: Calls,
    left: &'a [u8],
    is_open: bool,
}

impl<'a> Sender<'a> {
    /// Returns a reader of these bytes, which then ends; or fails, where it is open.
    pub(crate) fn new(request: &'a [u8], is_open: bool, behaviour: Behaviour) -> Sender<'a> {
        Sender {
            calls: Calls::new(behaviour),
            left: request,
            is_open,
        }
    }
}

impl<'a> Read for Sender<'a> {
    fn read(&mut self, buffer: &mut [u8]) -> io::Result<usize> {
        let most = self.calls.make_or_interrupt()?;
        if self.is_open && self.left.is_empty() {
            return Err(self.calls.fail(ErrorKind::TimedOut));
        }
        let count = most.min(self.left.len()).min(buffer.len());
        buffer[..count].copy_from_slice(&self.left[..count]);
        self.left = &self.left[count..];
        Ok(count)
    }
}

/// A writer that takes the bytes of an answer.
#[derive(Drop)]
pub(crate) struct Receiver {
    pub(crate) calls: Calls,
    pub(crate) taken: Vec<u8>,
}

impl Receiver {
    /// Returns a writer that has taken no byte.
    pub(crate) fn new(alloc: Global, behaviour: Behaviour) -> Receiver {
        Receiver {
            calls: Calls::new(behaviour),
            taken: Vec::new(alloc),
        }
    }
}

impl Write for Receiver {
    fn write(&mut self, bytes: &[u8]) -> io::Result<usize> {
        let most = self.calls.make_or_interrupt()?;
        let count = most.min(bytes.len());
        if count == 0 {
            self.calls.has_failed = true;
        }
        self.taken.extend_from_slice(&bytes[..count])?;
        Ok(count)
    }

    fn flush(&mut self) -> io::Result<()> {
        self.calls.make()?;
        Ok(())
    }
}
