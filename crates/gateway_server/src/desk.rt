//! The requests of a client's thread that wait for schemas of an upstream registry.

ghost use Rattle.std.specs.Prelude.{◌≡◌, IfSome};

use crate::beside::Beside;
use crate::{Fetch, PendingRequest};
use gateway_requests::{Fault, Request, UpstreamFault};
use gateway_upstream::{Looked, needed_by};
use std::alloc::Global;
use std::collections::VecDeque;
use std::marker::Model;
use std::sync::Wait;
use std::time::{Clock, Duration, Instant};
use upstream_fetching::Asked as Answer;
use upstream_schemas::Upstream;

/// The greatest number of requests of a thread that wait for the upstream registry.
pub const MOST_WAITING: usize = 256;

/// The greatest number of bytes of messages of a thread that wait for the upstream registry.
pub const MOST_WAITING_BYTES: usize = 67_108_864;

/// A request whose schemas were looked up.
#[derive(Drop)]
pub(crate) struct Ready<'a, 'r, U: Upstream> {
    pub(crate) pending: PendingRequest,
    pub(crate) looked: Looked<'a, 'r, U>,
}

/// A request that waits, and until when.
#[derive(Drop)]
struct Waiting {
    pending: PendingRequest,
    deadline: Instant,
}

/// When a request is looked at, and until when it may wait.
#[derive(Clone, Copy)]
struct Times {
    now: Instant,
    deadline: Instant,
}

/// The requests of a client's thread that wait for schemas of an upstream registry. Callers see it as the names of the
/// cells of the schemas.
#[derive(Drop)]
pub(crate) struct Desk<'a, 'r, U: Upstream> {
    beside: &'a Beside<'a, 'r, U>,
    /// In the order in which they began to wait.
    waiting: VecDeque<Waiting>,
    /// The number of those that are still to be looked up again since the thread was woken.
    round: usize,
}

/// Returns the number of bytes of the message in a request.
fn message_size(request: &Result<Request, Fault>) -> usize {
    match request {
        Ok(Request::Transcoding { message, .. }) => message.len(),
        _ => 0,
    }
}

impl<'a, 'r, U: Upstream> Model for Desk<'a, 'r, U> {
    ghost use Rattle.std.specs.Prelude.{◌≡◌};
    ghost use Rattle.spec_service.specs.UpstreamNaming.{Names};

    ghost Value = { Names };

    ghost view = { λ d. d.beside.now.schemas.now };
}

impl<'a, 'r, U: Upstream> Desk<'a, 'r, U> {
    /// Returns a desk at which no request waits.
    pub(crate) fn new(alloc: Global, beside: &'a Beside<'a, 'r, U>) -> Desk<'a, 'r, U>
        ensures { result ≡ beside.now.schemas.now }
    {
        Desk {
            beside,
            waiting: VecDeque::new(alloc),
            round: 0,
        }
    }

    /// Returns when the first of the requests that wait is late; `None` where none waits.
    pub(crate) fn moment(&self) -> Option<Instant> {
        let mut moment: Option<Instant> = None;
        for waiting in &self.waiting {
            moment = match moment {
                Some(first) => Some(first.min(waiting.deadline)),
                None => Some(waiting.deadline),
            };
        }
        moment
    }

    /// Looks a schema up, and asks for it where it is not held, until a deadline. Adds the result to `looked`, or
    /// returns `true` where the schema is waited for.
    fn look_up<R: Wait>(
        &mut self,
        rt: &R,
        id: u32,
        times: Times,
        looked: &mut Looked<'a, 'r, U>,
    ) -> bool
        requires { looked.old.names ≡ self.old }
        ensures desk { self.new ≡ self.old }
        ensures looked { looked.new.names ≡ looked.old.names }
    {
        if let Some(found) = self.beside.schemas.find(id) {
            looked.add(id, Ok(found));
            return false;
        }
        let fault = match self
            .beside
            .questions
            .queue
            .ask(rt, id, times.now, Some(times.deadline))
        {
            Answer::Failed(fault) => fault,
            Answer::Busy => Fault::Upstream(UpstreamFault::Busy),
            Answer::Waits if times.deadline <= times.now => Fault::Upstream(UpstreamFault::Late),
            Answer::Waits => return true,
        };
        looked.add(id, Err(fault));
        false
    }

    /// Looks up the schemas that a request needs, each of which is asked for where it is not held. Returns them;
    /// `None` where one is waited for, which none is from the deadline on.
    fn look_at<R: Wait>(
        &mut self,
        rt: &R,
        request: &Result<Request, Fault>,
        times: Times,
    ) -> Option<Looked<'a, 'r, U>>
        ensures desk { self.new ≡ self.old }
        ensures looked { IfSome result (λ looked. looked.names ≡ self.old) }
    {
        let needed = needed_by(request);
        let mut looked = Looked::new(self.beside.schemas);
        let mut waits = false;
        if let Some(id) = needed.reader
            && self.look_up(rt, id, times, &mut looked)
        {
            waits = true;
        }
        if let Some(id) = needed.writer
            && self.look_up(rt, id, times, &mut looked)
        {
            waits = true;
        }
        if waits { None } else { Some(looked) }
    }

    /// Returns the number of bytes of the messages that wait.
    fn waiting_bytes(&self) -> usize {
        let mut bytes: usize = 0;
        for waiting in &self.waiting {
            bytes = bytes.saturating_add(message_size(waiting.pending.request()));
        }
        bytes
    }

    /// Puts a request aside until a deadline. Returns it where as many wait as may, or memory runs out.
    fn put_aside(&mut self, pending: PendingRequest, deadline: Instant) -> Option<PendingRequest>
        ensures { self.new ≡ self.old }
    {
        let bytes = self
            .waiting_bytes()
            .saturating_add(message_size(pending.request()));
        if self.waiting.len() >= MOST_WAITING || bytes > MOST_WAITING_BYTES {
            return Some(pending);
        }
        match self.waiting.push_back(Waiting { pending, deadline }) {
            Ok(()) => None,
            Err(refused) => Some(refused.value.pending),
        }
    }

    /// Takes a request in. Returns it where it is to be answered now: its schemas are held, or one of them was
    /// refused, or no more requests may wait.
    pub(crate) fn take_in<R: Wait + Clock>(
        &mut self,
        rt: &R,
        pending: PendingRequest,
    ) -> Option<Ready<'a, 'r, U>>
        ensures desk { self.new ≡ self.old }
        ensures looked { IfSome result (λ ready. ready.looked.names ≡ self.old) }
    {
        let now = Instant::now(rt).ok()?;
        let deadline = now.checked_add(self.beside.options.patience)?;
        let times = Times { now, deadline };
        if let Some(looked) = self.look_at(rt, pending.request(), times) {
            return Some(Ready { pending, looked });
        }
        let pending = self.put_aside(pending, deadline)?;
        let looked = Looked::new(self.beside.schemas);
        Some(Ready { pending, looked })
    }

    /// Takes out the questions that are to be logged.
    pub(crate) fn take_notes<R: Wait>(&self, rt: &R) -> Vec<Fetch> {
        self.beside.questions.notes.take(rt)
    }

    /// Begins to look up again the schemas of all requests that wait.
    pub(crate) fn begin_round(&mut self)
        ensures { self.new ≡ self.old }
    {
        self.round = self.waiting.len();
    }

    /// Returns the next of the requests that wait which is to be answered now. `None` where all that wait were looked
    /// up again since the round began.
    pub(crate) fn next_ready<R: Wait + Clock>(&mut self, rt: &R) -> Option<Ready<'a, 'r, U>>
        ensures desk { self.new ≡ self.old }
        ensures looked { IfSome result (λ ready. ready.looked.names ≡ self.old) }
    {
        let now = Instant::now(rt).ok()?;
        for _ in 0..self.round {
            let Some(Waiting { pending, deadline }) = self.waiting.pop_front() else {
                break;
            };
            self.round = self.round.saturating_sub(1);
            let times = Times { now, deadline };
            if let Some(looked) = self.look_at(rt, pending.request(), times) {
                return Some(Ready { pending, looked });
            }
            let _ = self.waiting.push_back(Waiting { pending, deadline });
        }
        None
    }
}
