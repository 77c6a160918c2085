//! What the threads of a service share that uses an upstream registry.

ghost use Rattle.std.specs.Prelude.{◌≡◌};
ghost use Rattle.gateway_server.specs.Options.{IsWithin};

use crate::Fetch;
use crate::options::ServeOptions;
use gateway_requests::Fault;
use mio::Waker;
use schema_registry::{KeepFault, SharedRegistry};
use std::alloc::Global;
use std::mem;
use std::sync::{Mutex, Wait};
use std::time::Duration;
use upstream_fetching::{FetchQueue, Watcher};
use upstream_schemas::{ExchangeFault, Upstream, UpstreamSchemas};

/// The greatest number of questions that wait to be logged.
const MOST_NOTES: usize = 1_024;

/// The code of a question that came to a schema which is held.
const HELD: u32 = 200;

/// The upstream registry of a service: the schemas that are held of it, and what sends it questions.
#[derive(Drop)]
pub struct Source<'a, 'r, U: Upstream> {
    pub schemas: &'a UpstreamSchemas<'r, U>,
    pub upstream: &'a U,
}

/// The questions to an upstream registry: those that are to be asked, and those that are to be logged.
#[derive(Drop)]
pub(crate) struct Questions<U: Upstream> {
    pub(crate) queue: FetchQueue<U>,
    pub(crate) notes: FetchNotes,
}

/// What the threads of a service share that uses an upstream registry: the schemas that are held of it, the questions
/// to it, the options of the service, and this process's registry.
#[derive(Drop)]
pub(crate) struct Beside<'a, 'r, U: Upstream> {
    pub(crate) schemas: &'a UpstreamSchemas<'r, U>,
    pub(crate) questions: &'a Questions<U>,
    pub(crate) options: &'a ServeOptions,
    pub(crate) registry: &'r SharedRegistry,
    ghost within: { IsWithin options.now },
    ghost cells: { schemas.now.registry ≡ registry.now },
}

/// The questions that are to be logged.
#[derive(Drop)]
pub(crate) struct FetchNotes {
    alloc: Global,
    notes: Mutex<Vec<Fetch>>,
}

impl FetchNotes {
    /// Returns no questions.
    pub(crate) fn new(alloc: Global) -> FetchNotes {
        FetchNotes {
            alloc,
            notes: Mutex::new(Vec::new(alloc)),
        }
    }

    /// Adds a question. Where `MOST_NOTES` wait, or memory runs out, it is dropped.
    fn add<R: Wait>(&self, rt: &R, fetch: Fetch) {
        let mut notes = self.notes.lock(rt);
        if notes.len() < MOST_NOTES {
            let _ = notes.push(fetch);
        }
    }

    /// Takes out all that wait.
    pub(crate) fn take<R: Wait>(&self, rt: &R) -> Vec<Fetch> {
        let mut notes = self.notes.lock(rt);
        mem::replace(&mut *notes, Vec::new(self.alloc))
    }
}

/// What is done once an id was asked for: the question is noted for the log, and the threads of clients are woken.
#[derive(Drop)]
pub(crate) struct Watching<'a, R: Wait> {
    pub(crate) rt: &'a R,
    pub(crate) wakers: Vec<Waker>,
    pub(crate) notes: &'a FetchNotes,
    pub(crate) is_logged: bool,
}

impl<'a, R: Wait> Watcher for Watching<'a, R> {
    fn fetched(&self, id: u32, fault: Option<Fault>, time: Duration) {
        if self.is_logged {
            let code = match fault {
                Some(fault) => fault.code(),
                None => HELD,
            };
            self.notes.add(self.rt, Fetch { id, code, time });
        }
        for waker in &self.wakers {
            let _ = waker.wake();
        }
    }
}

/// The upstream registry of a service that has none.
#[derive(Drop)]
pub(crate) struct NoUpstream;

impl Upstream for NoUpstream {
    ghost use Rattle.std.specs.Prelude.{⊤};

    ghost heard = { λ question received. ⊥ };

    // Nothing is kept beyond the process.
    ghost kept = { λ id text. ⊤ };

    fn exchange(&self, _question: &str) -> Result<Vec<u8>, ExchangeFault> {
        Err(ExchangeFault::Unreached)
    }

    fn keep(&self, _id: u32, _text: &str) -> Result<(), KeepFault> {
        Ok(())
    }
}
