//! Devices that return and take little, and fail.

use std::alloc::{AllocError, Global};
use std::io::{self, ErrorKind, Read, Write};

/// The index of a call that is never reached.
pub(crate) const NEVER: usize = usize::MAX;

/// Counts a call of a device, which fails where it is the one that is to fail.
fn count_call(calls: &mut usize, fails_at: usize) -> io::Result<usize> {
    let call = *calls;
    *calls = call.wrapping_add(1);
    if call == fails_at {
        return Err(io::Error::from(ErrorKind::Other));
    }
    Ok(call)
}

/// Counts a call that reads or writes, which is interrupted at each third one.
fn begin_call(calls: &mut usize, fails_at: usize) -> io::Result<()> {
    if count_call(calls, fails_at)? % 3 == 1 {
        return Err(io::Error::from(ErrorKind::Interrupted));
    }
    Ok(())
}

/// A reader of memory that returns a byte at a time, fails at one call, and is interrupted at each third one.
#[derive(Drop)]
pub(crate) struct Trickle<'a> {
    pub(crate) left: &'a [u8],
    pub(crate) calls: usize,
    pub(crate) fails_at: usize,
}

impl<'a> Trickle<'a> {
    pub(crate) fn new(left: &'a [u8], fails_at: usize) -> Trickle<'a> {
        Trickle {
            left,
            calls: 0,
            fails_at,
        }
    }
}

impl Read for Trickle<'_> {
    fn read(&mut self, buf: &mut [u8]) -> io::Result<usize> {
        begin_call(&mut self.calls, self.fails_at)?;
        let Some((first, others)) = self.left.split_first() else {
            return Ok(0);
        };
        let Some(place) = buf.first_mut() else {
            return Ok(0);
        };
        *place = *first;
        self.left = others;
        Ok(1)
    }
}

/// A writer to memory that takes a byte at a time, fails at one call, a flush too, and is interrupted at each third
/// one.
#[derive(Drop)]
pub(crate) struct Drip {
    pub(crate) taken: Vec<u8>,
    /// How many of them a flush has passed on.
    pub(crate) passed_on: usize,
    pub(crate) calls: usize,
    pub(crate) fails_at: usize,
}

impl Drip {
    pub(crate) fn new(alloc: Global, fails_at: usize) -> Drip {
        Drip {
            taken: Vec::new(alloc),
            passed_on: 0,
            calls: 0,
            fails_at,
        }
    }
}

impl Write for Drip {
    fn write(&mut self, buf: &[u8]) -> io::Result<usize> {
        begin_call(&mut self.calls, self.fails_at)?;
        let Some(first) = buf.first() else {
            return Ok(0);
        };
        self.taken.push(*first).map_err(AllocError::from)?;
        Ok(1)
    }

    fn flush(&mut self) -> io::Result<()> {
        count_call(&mut self.calls, self.fails_at)?;
        self.passed_on = self.taken.len();
        Ok(())
    }
}
