//! Times, and how they are printed.

use crate::error::BenchError;
use std::time::{Clock, Instant};

/// When the sessions began, where the clock could be read.
#[derive(Clone, Copy)]
pub(crate) struct Stopwatch {
    start: Option<Instant>,
}

/// How many sessions were answered correctly, and how long all of them took.
#[derive(Clone, Copy)]
pub(crate) struct Measured {
    right: u64,
    nanos: u64,
}

impl Stopwatch {
    /// Returns a stopwatch that begins now.
    pub(crate) fn start(clock: &impl Clock) -> Stopwatch {
        Stopwatch {
            start: Instant::now(clock).ok(),
        }
    }

    /// Returns the nanoseconds since it began, where the clock can be read.
    fn nanos(&self, clock: &impl Clock) -> Option<u64> {
        let start = self.start?;
        u64::try_from(start.elapsed(clock).ok()?.as_nanos()).ok()
    }

    /// Returns what was measured up to now.
    pub(crate) fn measured(&self, clock: &impl Clock, right: u64) -> Result<Measured, BenchError> {
        match self.nanos(clock) {
            Some(nanos) => Ok(Measured { right, nanos }),
            None => Err(BenchError::NoClock),
        }
    }
}

/// Returns the hundredths of a microsecond that one session took, where `sessions` took `nanos` nanoseconds.
fn hundredths(sessions: u64, nanos: u64) -> u64 {
    let half = sessions.saturating_mul(5);
    nanos.saturating_add(half) / sessions.saturating_mul(10).max(1)
}

/// Returns how many sessions there were in a second, where `sessions` took `nanos` nanoseconds.
fn per_second(sessions: u64, nanos: u64) -> u128 {
    u128::from(sessions) * 1_000_000_000 / u128::from(nanos.max(1))
}

/// Prints how long a session took, and how many that are in a second. `WrongAnswers` where an answer is not correct.
pub(crate) fn tell(
    rt: &impl Eprint,
    way: &str,
    sessions: u64,
    measured: Measured,
) -> Result<(), BenchError> {
    let Measured { right, nanos } = measured;
    if right != sessions {
        let _told = eprintln!(rt; "{way}: {right} of {sessions} answers are right");
        return Err(BenchError::WrongAnswers);
    }
    let hundredths = hundredths(sessions, nanos);
    let (whole, rest) = (hundredths / 100, hundredths % 100);
    let rate = per_second(sessions, nanos);
    match eprintln!(rt;
        "{way}: {whole}.{rest:02} microseconds a session, {rate} sessions a second"
    ) {
        Ok(()) => Ok(()),
        Err(_) => Err(BenchError::NotTold),
    }
}

/// Prints how much longer a session in a pool took, on one thread, than a transcoder takes for its message.
pub(crate) fn tell_share(
    rt: &impl Eprint,
    sessions: u64,
    alone: Measured,
    transcoder: Measured,
) -> Result<(), BenchError> {
    let hundredths = hundredths(sessions, alone.nanos.saturating_sub(transcoder.nanos));
    let (whole, rest) = (hundredths / 100, hundredths % 100);
    match eprintln!(rt;
        "beside the machine, one thread: {whole}.{rest:02} microseconds a session"
    ) {
        Ok(()) => Ok(()),
        Err(_) => Err(BenchError::NotTold),
    }
}
