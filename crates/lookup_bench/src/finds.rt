//! Finds, and how long they take.

use crate::error::BenchError;
use crate::steady_upstream::SteadyUpstream;
use std::time::{Clock, Duration, Instant};
use upstream_schemas::UpstreamSchemas;

/// Returns the id of a find: the ids of a reader and of a writer come in turn.
fn id_of(number: u64) -> u32 {
    if number.is_multiple_of(2) {
        100_001
    } else {
        100_002
    }
}

/// Returns the time from a moment until now.
fn time_since(clock: &impl Clock, begun: Instant) -> Result<Duration, BenchError> {
    match begun.elapsed(clock) {
        Ok(time) => Ok(time),
        Err(_) => Err(BenchError::NoClock),
    }
}

/// Returns this moment.
fn moment(clock: &impl Clock) -> Result<Instant, BenchError> {
    match Instant::now(clock) {
        Ok(now) => Ok(now),
        Err(_) => Err(BenchError::NoClock),
    }
}

/// Returns how long a number of finds take of ids that are held.
pub(crate) fn time_of(
    clock: &impl Clock,
    schemas: &UpstreamSchemas<'_, SteadyUpstream>,
    finds: u64,
) -> Result<Duration, BenchError> {
    let begun = moment(clock)?;
    for number in 0..finds {
        if schemas.find(id_of(number)).is_none() {
            return Err(BenchError::NotFound);
        }
    }
    time_since(clock, begun)
}

/// Prints the time of one find among schemas of a length, in tenths of a nanosecond.
pub(crate) fn print(
    rt: &impl Eprint,
    length: usize,
    finds: u64,
    time: Duration,
) -> Result<(), BenchError> {
    let tenths = time.as_nanos().saturating_mul(10) / u128::from(finds.max(1));
    let (whole, rest) = (tenths / 10, tenths % 10);
    match eprintln!(rt; "texts of {length} bytes: {whole}.{rest} nanoseconds a find") {
        Ok(()) => Ok(()),
        Err(_) => Err(BenchError::NotPrinted),
    }
}
