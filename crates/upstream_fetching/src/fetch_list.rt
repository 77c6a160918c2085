//! The ids that are asked for, and the failures that are remembered.

ghost use Rattle.std.specs.Prelude.{◌≡◌, ◌∷◌, ◌++◌, ◌+◌, ◌<◌, ◌≤◌, [], true, IfSome, MatchOption, OnErr, OnOk, vec_len, vec_capacity};
ghost use Rattle.upstream_schemas.specs.Asking.{IsWhyUnheld};
ghost use Rattle.upstream_fetching.specs.Asked.{IfFailed, IfWaits, is_asked};
ghost use Rattle.upstream_fetching.specs.declared.limits.TheConstants.{MOST_ASKED, MOST_FAILURES};

use crate::failure::Failure;
use crate::limits::{MOST_ASKED, MOST_FAILURES};
use gateway_requests::Fault;
use std::alloc::{AllocError, Global};
use std::time::Instant;
use upstream_schemas::Upstream;

/// What becomes of an id whose schema is wanted.
#[derive(Clone, Copy, Debug, PartialEq, Eq)]
pub enum Asked {
    /// It was found out less than a second ago that its schema is not held, and why.
    Failed(Fault),
    /// It is asked for; the one who asks is woken once that is over.
    Waits,
    /// As many ids are asked for as may be, or memory ran out, or the queue has ended.
    Busy,
}

/// Until when somebody waits for the schema of an id.
#[derive(Clone, Copy, Debug)]
struct Wanted {
    id: u32,
    until: Instant,
}

/// The ids that are asked for, each once, and the failures that are remembered, at most one of an id.
#[derive(Drop)]
pub(crate) struct FetchList<U: Upstream> {
    /// The ids that wait for a thread, the oldest first.
    waiting: Vec<u32>,
    /// The ids that a thread asks for.
    under_way: Vec<u32>,
    /// Until when somebody waits for an id, for those of which that is known.
    wanted: Vec<Wanted>,
    /// The failures that are remembered, the oldest first.
    failures: Vec<Failure<U>>,
    is_ended: bool,
    ghost few_asked: { vec_len waiting + vec_len under_way ≤ MOST_ASKED },
    ghost room: { vec_len waiting + vec_len under_way ≤ vec_capacity under_way },
    ghost few_failures: { vec_len failures ≤ MOST_FAILURES },
}

impl<U: Upstream> FetchList<U> {
    /// Returns a list with nothing asked for and nothing remembered.
    pub(crate) fn new(alloc: Global) -> FetchList<U> {
        FetchList {
            waiting: Vec::new(alloc),
            under_way: Vec::new(alloc),
            wanted: Vec::new(alloc),
            failures: Vec::new(alloc),
            is_ended: false,
        }
    }

    /// Returns why the schema of an id is not held. `None` where no failure of it is remembered.
    fn fault_of(&self, id: u32, now: Instant) -> Option<Fault>
        ensures { IfSome result (IsWhyUnheld U.heard U.kept id) }
    {
        for failure in &self.failures {
            if let Some(fault) = failure.fault_of(id, now) {
                return Some(fault);
            }
        }
        None
    }

    /// Returns whether an id is asked for.
    fn is_asked(&self, id: u32) -> bool
        ensures { result ≡ is_asked id self.now.waiting.items self.now.under_way.items }
    {
        self.waiting.contains(&id) || self.under_way.contains(&id)
    }

    /// Adds an id to those that wait. The error is that memory ran out: for the id, or for its failure later.
    fn add(&mut self, id: u32) -> Result<(), AllocError>
        requires { vec_len self.old.waiting + vec_len self.old.under_way < MOST_ASKED }
        ensures waiting { OnOk result (self.new.waiting.items ≡ self.old.waiting.items ++ id ∷ []) }
        ensures err { OnErr result (self.new.waiting.items ≡ self.old.waiting.items) }
        ensures under_way { self.new.under_way.items ≡ self.old.under_way.items }
    {
        self.waiting.reserve(1)?;
        self.under_way.reserve(self.waiting.len() + 1)?;
        self.failures.reserve(MOST_FAILURES - self.failures.len())?;
        self.waiting.push_reserved(id);
        Ok(())
    }

    /// Queues an id to be asked for, unless it is asked for already, or a failure of it is remembered. Returns which
    /// of these holds.
    pub(crate) fn ask(&mut self, id: u32, now: Instant) -> Asked
        ensures failed { IfFailed result (IsWhyUnheld U.heard U.kept id) }
        ensures asked { IfWaits result (is_asked id self.new.waiting.items self.new.under_way.items ≡ true) }
    {
        if let Some(fault) = self.fault_of(id, now) {
            return Asked::Failed(fault);
        }
        if self.is_ended {
            return Asked::Busy;
        }
        if self.is_asked(id) {
            return Asked::Waits;
        }
        if self.waiting.len() + self.under_way.len() >= MOST_ASKED || self.add(id).is_err() {
            return Asked::Busy;
        }
        Asked::Waits
    }

    /// Returns the oldest id that waits, which is then under way. `None` where none waits.
    pub(crate) fn take(&mut self) -> Option<u32>
        ensures waiting { MatchOption result (self.old.waiting.items ≡ [])
            (λ id. self.old.waiting.items ≡ id ∷ self.new.waiting.items) }
        ensures under_way { IfSome result (λ id. self.new.under_way.items ≡ self.old.under_way.items ++ id ∷ []) }
    {
        if self.waiting.is_empty() {
            return None;
        }
        let id = self.waiting.remove(0);
        self.under_way.push_reserved(id);
        Some(id)
    }

    /// Notes that somebody waits for an id until a moment, or later than that where that was noted before. Where
    /// memory runs out nothing is noted.
    pub(crate) fn want(&mut self, id: u32, until: Instant)
        ensures waiting { self.new.waiting.items ≡ self.old.waiting.items }
        ensures under_way { self.new.under_way.items ≡ self.old.under_way.items }
    {
        for wanted in self.wanted.iter_mut() {
            if wanted.id == id {
                wanted.until = wanted.until.max(until);
                return;
            }
        }
        let _is_noted = self.wanted.push(Wanted { id, until });
    }

    /// Returns whether somebody waits for an id at a moment, as far as is known.
    pub(crate) fn is_wanted(&self, id: u32, now: Instant) -> bool {
        !self
            .wanted
            .iter()
            .any(|wanted| wanted.id == id && wanted.until <= now)
    }

    /// Forgets until when somebody waits for an id.
    fn let_go(&mut self, id: u32) {
        if let Some(index) = self.wanted.iter().position(|wanted| wanted.id == id) {
            self.wanted.remove(index);
        }
    }

    /// Forgets the failure of an id, where one is remembered.
    fn forget(&mut self, id: u32) {
        for index in 0..self.failures.len() {
            let failure = &self.failures[index];
            if failure.is_of(id) {
                self.failures.remove(index);
                return;
            }
        }
    }

    /// Remembers a failure, and forgets the oldest where there are as many as may be.
    fn remember(&mut self, failure: Failure<U>) {
        if self.failures.len() >= MOST_FAILURES {
            self.failures.remove(0);
        }
        let _is_kept = self.failures.push(failure);
    }

    /// Ends the asking for an id: its schema is held where there is no fault, else the fault is remembered.
    pub(crate) fn tell(&mut self, id: u32, fault: Option<Fault>, now: Instant)
        requires { IfSome fault (IsWhyUnheld U.heard U.kept id) }
    {
        if let Some(index) = self.under_way.iter().position(|other| *other == id) {
            self.under_way.remove(index);
        }
        self.let_go(id);
        self.forget(id);
        if let Some(fault) = fault {
            self.remember(Failure::new(id, fault, now));
        }
    }

    /// Ends the asking for all ids.
    pub(crate) fn end(&mut self) {
        self.is_ended = true;
    }

    /// Returns whether the asking has ended.
    pub(crate) fn is_ended(&self) -> bool {
        self.is_ended
    }
}
