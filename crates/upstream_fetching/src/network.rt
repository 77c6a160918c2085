//! The upstream registry, asked over the network.

use crate::dial::Dial;
use crate::timed::Timed;
use schema_registry::KeepFault;
use std::alloc::Global;
use std::io::{ErrorKind, Write};
use std::time::{Clock, Duration, Instant};
use upstream_answers::{ReceiveFault, receive};
use upstream_schemas::{ExchangeFault, Upstream};

/// The upstream registry, asked over the network: each question on a connection of its own, for which its name is
/// looked up anew.
#[derive(Drop)]
pub struct Network<'a, D: Dial, C: Clock> {
    pub alloc: Global,
    pub dial: &'a D,
    pub clock: &'a C,
    /// The name or the address to connect to.
    pub host: &'a str,
    pub port: u16,
    /// The time that an exchange may take, from the look-up of the name to the last byte of the answer.
    pub time: Duration,
}

/// Returns whether a deadline has passed.
fn is_late(clock: &impl Clock, deadline: Instant) -> bool {
    match Instant::now(clock) {
        Ok(now) => deadline <= now,
        Err(_) => false,
    }
}

/// Returns why no connection was made.
fn connect_fault(kind: ErrorKind, is_late: bool) -> ExchangeFault {
    if is_late || kind == ErrorKind::TimedOut {
        return ExchangeFault::Late;
    }
    ExchangeFault::Unreached
}

/// Returns why the question was not taken whole. Nothing was read yet, so a connection that is reset was closed before
/// any byte came.
fn send_fault(kind: ErrorKind, is_late: bool) -> ExchangeFault {
    if is_late || kind == ErrorKind::TimedOut {
        return ExchangeFault::Late;
    }
    match kind {
        ErrorKind::ConnectionReset | ErrorKind::BrokenPipe => ExchangeFault::Closed,
        _ => ExchangeFault::BadAnswer,
    }
}

/// Returns why no whole answer came.
fn receive_fault(fault: ReceiveFault, is_late: bool) -> ExchangeFault {
    match fault {
        ReceiveFault::NoMemory => ExchangeFault::NoMemory,
        _ if is_late => ExchangeFault::Late,
        ReceiveFault::Closed => ExchangeFault::Closed,
        ReceiveFault::Failed
        | ReceiveFault::Cut
        | ReceiveFault::NoAnswer
        | ReceiveFault::TooLarge => ExchangeFault::BadAnswer,
    }
}

/// Returns when a time from now on has passed. `None` where the clock cannot be read, or has no such moment.
fn deadline_after(clock: &impl Clock, time: Duration) -> Option<Instant> {
    Instant::now(clock).ok()?.checked_add(time)
}

impl<'a, D: Dial, C: Clock> Upstream for Network<'a, D, C> {
    ghost use Rattle.std.specs.Prelude.{⊤};

    // What the network brings has no model here: all that is proved of an upstream is proved for every `Upstream`.
    ghost heard = { λ question received. ⊤ };

    // Nothing is kept beyond the process.
    ghost kept = { λ id text. ⊤ };

    fn exchange(&self, question: &str) -> Result<Vec<u8>, ExchangeFault> {
        let Some(deadline) = deadline_after(self.clock, self.time) else {
            return Err(ExchangeFault::Unreached);
        };
        let mut timed = match Timed::connect(
            self.clock, self.dial, self.host, self.port, deadline,
        ) {
            Ok(timed) => timed,
            Err(error) => {
                return Err(connect_fault(error.kind(), is_late(self.clock, deadline)));
            }
        };
        if let Err(error) = timed.write_all(question.as_bytes()) {
            return Err(send_fault(error.kind(), is_late(self.clock, deadline)));
        }
        match receive(self.alloc, &mut timed) {
            Ok(received) => Ok(received),
            Err(fault) => Err(receive_fault(fault, is_late(self.clock, deadline))),
        }
    }

    fn keep(&self, _id: u32, _text: &str) -> Result<(), KeepFault> {
        Ok(())
    }
}
