//! How far the start of a registry has come, for those who wait for it.

use schema_registry::Progress;
use std::rt::Clock;
use std::time::Instant;

/// The number of seconds in which no line is printed, from the start and from each line on.
const QUIET: u64 = 1;

/// Prints how far a start has come, by a line `reading the store: N of M` on standard error once a second; nothing
/// where the start takes less than a second.
#[derive(Drop)]
pub struct TimedProgress<'a, R: Clock + Eprint> {
    rt: &'a R,
    /// When the start began, or a line was printed. `None` where there is no clock: then no line is printed.
    told: Option<Instant>,
}

impl<'a, R: Clock + Eprint> TimedProgress<'a, R> {
    /// Returns a progress for a start that begins now.
    pub fn new(rt: &'a R) -> TimedProgress<'a, R> {
        TimedProgress {
            rt,
            told: Instant::now(rt).ok(),
        }
    }

    /// Returns whether it is time for a line.
    fn is_due(&self) -> bool {
        match self.told {
            Some(told) => told
                .elapsed(self.rt)
                .is_ok_and(|passed| passed.as_secs() >= QUIET),
            None => false,
        }
    }
}

impl<'a, R: Clock + Eprint> Progress for TimedProgress<'a, R> {
    fn done(&mut self, number: usize, all: usize) {
        if self.is_due() {
            let _ = eprintln!(self.rt; "reading the store: {number} of {all}");
            self.told = Instant::now(self.rt).ok();
        }
    }
}
