//! A connection whose connecting, reads and writes end at one deadline.

use crate::dial::{Dial, MOST_ADDRESSES};
use std::io;
use std::io::{ErrorKind, Read, Write};
use std::net::{Ipv4Addr, SocketAddr, TcpStream};
use std::time::{Clock, Duration, Instant};

/// Returns the time until a deadline. The error is `TimedOut` where it has passed.
fn time_left(clock: &impl Clock, deadline: Instant) -> io::Result<Duration> {
    let left = deadline.saturating_duration_since(Instant::now(clock)?);
    if left.is_zero() {
        return Err(io::Error::from(ErrorKind::TimedOut));
    }
    Ok(left)
}

/// Returns the error of a read or a write that has failed.
///
/// It is `Interrupted` where the system ended a wait, which it may do a little before the deadline: one that tries
/// again learns whether the deadline has passed.
fn error_of(error: io::Error) -> io::Error {
    if error.kind() == ErrorKind::WouldBlock {
        return io::Error::from(ErrorKind::Interrupted);
    }
    error
}

/// A connection whose reads and writes end at the deadline at which connecting ended too.
#[derive(Drop)]
pub(crate) struct Timed<'a, C: Clock> {
    clock: &'a C,
    stream: TcpStream,
    deadline: Instant,
    /// Whether a byte has come.
    has_received: bool,
}

impl<'a, C: Clock> Timed<'a, C> {
    /// Looks a name up, and returns a connection to the first of its addresses to which one is made, in their order.
    /// The error is that of the last address: `TimedOut` where the deadline has passed, and `NotFound` where the name
    /// has no address.
    pub(crate) fn connect<D: Dial>(
        clock: &'a C,
        dial: &D,
        host: &str,
        port: u16,
        deadline: Instant,
    ) -> io::Result<Timed<'a, C>> {
        let mut found = [SocketAddr::from((Ipv4Addr::UNSPECIFIED, port)); MOST_ADDRESSES];
        let count = dial.look_up(host, port, &mut found)?;
        let mut last = io::Error::from(ErrorKind::NotFound);
        for address in found.iter().take(count) {
            match dial.dial(*address, time_left(clock, deadline)?) {
                Ok(stream) => {
                    return Ok(Timed {
                        clock,
                        stream,
                        deadline,
                        has_received: false,
                    });
                }
                Err(error) => last = error,
            }
        }
        Err(last)
    }
}

impl<'a, C: Clock> Read for Timed<'a, C> {
    /// Reads once, until the deadline at most. Returns the number of bytes that came: 0 where the connection is closed,
    /// and also where it is reset before any byte has come.
    fn read(&mut self, buffer: &mut [u8]) -> io::Result<usize> {
        let left = time_left(self.clock, self.deadline)?;
        self.stream.set_read_timeout(Some(left))?;
        match self.stream.read(buffer) {
            Ok(count) => {
                self.has_received = true;
                Ok(count)
            }
            Err(error) if error.kind() == ErrorKind::ConnectionReset && !self.has_received => Ok(0),
            Err(error) => Err(error_of(error)),
        }
    }
}

impl<'a, C: Clock> Write for Timed<'a, C> {
    /// Writes once, until the deadline at most. Returns the number of bytes that were taken.
    fn write(&mut self, bytes: &[u8]) -> io::Result<usize> {
        let left = time_left(self.clock, self.deadline)?;
        self.stream.set_write_timeout(Some(left))?;
        match self.stream.write(bytes) {
            Ok(count) => Ok(count),
            Err(error) => Err(error_of(error)),
        }
    }

    fn flush(&mut self) -> io::Result<()> {
        Ok(())
    }
}
