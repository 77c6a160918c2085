//! The threads that ask an upstream registry for the schemas of ids.

ghost use Rattle.std.specs.Prelude.{IfSome};
ghost use Rattle.upstream_schemas.specs.Asking.{IsWhyUnheld};

use crate::queue::FetchQueue;
use gateway_requests::Fault;
use std::sync::Wait;
use std::time::{Clock, Duration, Instant};
use upstream_schemas::{Upstream, UpstreamSchemas};

/// What takes note of each fetch that has ended.
pub trait Watcher {
    /// Takes note that the fetch of an id has ended: its schema is held, or the fault says why not. `time` is how long
    /// the fetch took.
    fn fetched(&self, id: u32, fault: Option<Fault>, time: Duration);
}

/// Returns the moment now, or an earlier one where the clock cannot be read.
fn moment_after(clock: &impl Clock, earlier: Instant) -> Instant {
    Instant::now(clock).unwrap_or(earlier)
}

/// Asks for the schema of an id, and holds it. Returns the reason where it is then not held.
fn fetch<R: Wait, U: Upstream>(
    rt: &R,
    schemas: &UpstreamSchemas<'_, U>,
    upstream: &U,
    id: u32,
) -> Option<Fault>
    ensures { IfSome result (IsWhyUnheld U.heard U.kept id) }
{
    match schemas.ask(rt, upstream, id) {
        Ok(_found) => None,
        Err(fault) => Some(fault),
    }
}

/// Fetches the ids of the queue, one at a time, until it has ended: asks for each, and reports to the queue and then
/// to the watcher how that ended.
///
/// It fetches none where the clock cannot be read.
pub fn run_fetcher<R: Wait + Clock, U: Upstream, W: Watcher>(
    rt: &R,
    schemas: &UpstreamSchemas<'_, U>,
    upstream: &U,
    queue: &FetchQueue<U>,
    watcher: &W,
) {
    let Ok(mut moment) = Instant::now(rt) else {
        return;
    };
    for _ in rt.forever() {
        let Some(id) = queue.next(rt) else {
            return;
        };
        let begun = moment_after(rt, moment);
        let fault = fetch(rt, schemas, upstream, id);
        moment = moment_after(rt, begun);
        queue.tell(rt, id, fault, moment);
        watcher.fetched(id, fault, moment.saturating_duration_since(begun));
    }
}
