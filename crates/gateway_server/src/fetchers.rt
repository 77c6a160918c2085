//! The threads that ask an upstream registry for schemas.

use crate::beside::{Beside, Watching};
use std::alloc::AllocError;
use std::sync::Wait;
use std::thread;
use std::thread::Threads;
use std::time::Clock;
use upstream_fetching::run_fetcher;
use upstream_schemas::Upstream;

/// What a thread that asks receives.
#[derive(Drop)]
pub(crate) struct Fetcher<'a, 'r, R: Wait, U: Upstream> {
    beside: &'a Beside<'a, 'r, U>,
    upstream: &'a U,
    watching: &'a Watching<'a, R>,
}

impl<'a, 'r, R: Wait, U: Upstream> Fetcher<'a, 'r, R, U> {
    /// Returns what a thread that asks receives: what threads share, what sends questions, and what hears of each.
    pub(crate) fn new(
        beside: &'a Beside<'a, 'r, U>,
        upstream: &'a U,
        watching: &'a Watching<'a, R>,
    ) -> Fetcher<'a, 'r, R, U> {
        Fetcher {
            beside,
            upstream,
            watching,
        }
    }
}

/// The number of threads that ask the upstream registry, and so of the questions that are under way at most.
const FETCHERS: usize = 16;

/// Asks the upstream registry for the ids of the queue, by `FETCHERS` threads that all take ids from it, until the
/// queue has ended. The error is that memory ran out.
pub(crate) fn run_fetchers<'a, 'r, R: Threads + Wait + Clock + Sync, U: Upstream + Send + Sync>(
    rt: &R,
    fetcher: Fetcher<'a, 'r, R, U>,
) -> Result<(), AllocError> {
    let alloc = fetcher.beside.schemas.alloc();
    let mut fetchers: Vec<Fetcher<'a, 'r, R, U>> = Vec::new(alloc);
    for _ in 0..FETCHERS {
        let one = Fetcher::new(fetcher.beside, fetcher.upstream, fetcher.watching);
        fetchers.push(one)?;
    }
    thread::map_vec(
        rt,
        fetchers,
        &|fetcher: Fetcher<'_, '_, R, U>| fetch(rt, fetcher),
    )?;
    Ok(())
}

/// Takes ids of the queue and asks for each, until the queue has ended.
fn fetch<R: Wait + Clock, U: Upstream>(rt: &R, fetcher: Fetcher<'_, '_, R, U>) {
    let beside = fetcher.beside;
    run_fetcher(
        rt,
        beside.schemas,
        fetcher.upstream,
        &beside.questions.queue,
        fetcher.watching,
    );
}
