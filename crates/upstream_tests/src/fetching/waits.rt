//! Threads that wait for an id.

use crate::listed_upstream::ListedUpstream;
use std::alloc::Global;
use std::sync::Wait;
use std::test::Fail;
use std::thread;
use std::thread::Threads;
use std::time::{Clock, Duration, Instant};
use upstream_fetching::{Asked, FetchQueue};

/// The milliseconds in which a thread begins to wait.
const PAUSE: u64 = 50;

/// Returns what a thread that waits gets while another ends the queue.
fn next_at_the_end<R: Threads + Wait + Clock + Sync>(
    rt: &R,
    queue: &FetchQueue<ListedUpstream>,
) -> Option<u32> {
    let (next, _end) = thread::join(
        rt,
        || queue.next(rt),
        || {
            thread::sleep(rt, Duration::from_millis(PAUSE));
            queue.end(rt);
        },
    );
    next
}

/// Returns what a thread that waits gets while another asks for an id, and what that one is answered.
fn next_when_asked<R: Threads + Wait + Clock + Sync>(
    rt: &R,
    queue: &FetchQueue<ListedUpstream>,
    id: u32,
    now: Instant,
) -> (Option<u32>, Asked) {
    thread::join(
        rt,
        || queue.next(rt),
        || {
            thread::sleep(rt, Duration::from_millis(PAUSE));
            queue.ask(rt, id, now, None)
        },
    )
}

/// Returns whether a thread that waits is woken by an id that is asked for, and by the end of the queue.
fn is_woken<R: Threads + Wait + Clock + Sync>(rt: &R, alloc: Global, now: Instant) -> bool {
    let queue = FetchQueue::new(alloc);
    let (next, asked) = next_when_asked(rt, &queue, 7, now);
    next == Some(7) && asked == Asked::Waits && next_at_the_end(rt, &queue).is_none()
}

#[test]
fn a_thread_that_waits_is_woken(rt: HostRuntime) -> Result<(), Fail> {
    assert!(rt; is_woken(&rt, rt.alloc(), Instant::now(&rt)?));
    Ok(())
}
