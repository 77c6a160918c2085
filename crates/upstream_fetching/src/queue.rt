//! The queue of the ids that are to be asked for.

ghost use Rattle.std.specs.Prelude.{IfSome};
ghost use Rattle.upstream_schemas.specs.Asking.{IsWhyUnheld};
ghost use Rattle.upstream_fetching.specs.Asked.{IfFailed};

use crate::fetch_list::{Asked, FetchList};
use gateway_requests::Fault;
use std::alloc::Global;
use std::sync::{Condvar, Mutex, Wait};
use std::time::{Clock, Instant};
use upstream_schemas::Upstream;

/// The queue of the ids whose schemas an upstream registry is to be asked for. Threads share it: one of them asks for
/// an id at a time, however many want its schema.
#[derive(Drop)]
pub struct FetchQueue<U: Upstream> {
    list: Mutex<FetchList<U>>,
    /// Notified where an id waits, and where the queue has ended.
    changed: Condvar,
}

impl<U: Upstream> FetchQueue<U> {
    /// Returns a queue with no ids.
    pub fn new(alloc: Global) -> FetchQueue<U> {
        FetchQueue {
            list: Mutex::new(FetchList::new(alloc)),
            changed: Condvar::new(),
        }
    }

    /// Queues an id to be asked for, unless it is asked for already, or it was found out less than a second before
    /// `now` that its schema is not held. Returns which of these holds.
    ///
    /// The caller waits until a moment, or without end: an id for which nobody waits any more is dropped.
    pub fn ask<R: Wait>(&self, rt: &R, id: u32, now: Instant, until: Option<Instant>) -> Asked
        ensures { IfFailed result (IsWhyUnheld U.heard U.kept id) }
    {
        let mut list = self.list.lock(rt);
        let asked = list.ask(id, now);
        if matches!(asked, Asked::Waits) {
            if let Some(until) = until {
                list.want(id, until);
            }
            self.changed.notify_one();
        }
        asked
    }

    /// Waits for an id that is to be asked for, and returns the oldest for which somebody waits, which is then under
    /// way. `None` once the queue has ended.
    pub fn next<R: Wait + Clock>(&self, rt: &R) -> Option<u32> {
        let mut list = self.list.lock(rt);
        for _ in rt.forever() {
            if list.is_ended() {
                return None;
            }
            if let Some(id) = list.take() {
                match Instant::now(rt) {
                    Ok(now) if !list.is_wanted(id, now) => list.tell(id, None, now),
                    _ => return Some(id),
                }
            } else {
                list = self.changed.wait(rt, list);
            }
        }
        None
    }

    /// Ends the asking for an id: its schema is held, or the fault, found out at `now`, says why not.
    pub fn tell<R: Wait>(&self, rt: &R, id: u32, fault: Option<Fault>, now: Instant)
        requires { IfSome fault (IsWhyUnheld U.heard U.kept id) }
    {
        self.list.lock(rt).tell(id, fault, now);
    }

    /// Ends the queue: the threads that wait for an id get none, and no more are asked for.
    pub fn end<R: Wait>(&self, rt: &R) {
        self.list.lock(rt).end();
        self.changed.notify_all();
    }
}
