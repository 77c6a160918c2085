//! What tests try: each over a new registry, a cache of its programs, and a pool with its seats.

ghost use Rattle.std.specs.Prelude.{◌≤◌, All};
ghost use Rattle.session_pool.specs.declared.limits.TheConstants.{MOST_CLIENTS};
ghost use Rattle.session_pool.specs.declared.limits.TheConstants.{MOST_WORKERS};
ghost use Rattle.session_pool.specs.Seats.{IsNewClient, IsNewWorker, Rests};

use crate::calling::{is_list_after_one_turn, is_text_answered};
use crate::leaving::ends_after_one_turn;
use crate::memory::are_answered_again;
use crate::refusals::{is_answered_after_refusals, is_full_and_then_free};
use crate::replying::are_replies_as_served;
use crate::seats::{Seated, last_client, last_worker, new_pool};
use crate::working::are_all_answered;
use gateway::{App, Helping};
use program_cache::ProgramCache;
use schema_registry::SharedRegistry;
use session_pool::{ClientSeat, SessionPool, WorkerSeat};
use std::alloc::AllocError;
use std::process::Abort;
use std::sync::Wait;
use std::thread::Threads;

/// What an app over a pool is asked.
#[derive(Clone, Copy)]
pub(crate) enum Question {
    /// Messages whose gate says no, and one more.
    Refused,
    /// A message where all slots are taken, and again where one is free.
    Full,
    /// Requests that are read, and those that were received elsewhere.
    Replies,
    /// The request of a text.
    Text,
    /// Requests that are asked once more where memory ran out.
    Again,
}

/// What is tried over a pool.
#[derive(Clone, Copy)]
pub(crate) enum Trial {
    /// A question to an app.
    Asked(Question),
    /// A session that one turn of a worker ends.
    OneTurn,
    /// A worker whose gate says no inside a turn.
    Leaving,
    /// Many sessions, which several workers run.
    Working,
}

/// Returns whether an app answers a question as is wanted, by a client's seat and a gate, beside other clients' seats.
fn is_answered<'p, R: Wait + Abort + AllocGlobal>(
    rt: &R,
    app: &App<'_, 'p>,
    seat: &mut ClientSeat<'p>,
    gate: &mut Helping<'_, 'p>,
    clients: &mut Vec<ClientSeat<'p>>,
    question: Question,
) -> bool
    requires seat { Rests app.now.pool.now seat.old }
    requires clients { All (IsNewClient app.now.pool.now) clients.old.items }
{
    match question {
        Question::Refused => is_answered_after_refusals(rt, app, seat, gate),
        Question::Full => is_full_and_then_free(rt, app, seat, gate, clients),
        Question::Replies => are_replies_as_served(rt, app, seat, gate),
        Question::Text => is_text_answered(rt, app, seat, gate),
        Question::Again => are_answered_again(rt, app, seat, gate),
    }
}

/// Returns whether an app over a pool answers a question as is wanted. The error is that there was no memory for the
/// app.
fn is_answered_over<'p, R: Wait + Abort + AllocGlobal>(
    rt: &R,
    pool: &SessionPool<'p>,
    clients: &mut Vec<ClientSeat<'p>>,
    workers: &mut Vec<WorkerSeat<'p>>,
    question: Question,
) -> Result<bool, AllocError>
    requires clients { All (IsNewClient pool.now) clients.old.items }
    requires workers { All (IsNewWorker pool.now) workers.old.items }
{
    let cache = pool.cache();
    let app = App::new(rt.alloc(), cache.registry(), cache, pool)?;
    let mut seat = last_client(rt, pool, clients);
    let mut gate = Helping::new(pool, last_worker(rt, pool, workers));
    Ok(is_answered(rt, &app, &mut seat, &mut gate, clients, question))
}

/// Returns whether a trial over a pool ends as is wanted. The error is that there was no memory to begin it.
fn succeeds_over<'p, R: Threads + Wait + Sync + Abort + AllocGlobal>(
    rt: &R,
    pool: &SessionPool<'p>,
    clients: &mut Vec<ClientSeat<'p>>,
    workers: &mut Vec<WorkerSeat<'p>>,
    trial: Trial,
) -> Result<bool, AllocError>
    requires clients { All (IsNewClient pool.now) clients.old.items }
    requires workers { All (IsNewWorker pool.now) workers.old.items }
{
    match trial {
        Trial::Asked(question) => is_answered_over(rt, pool, clients, workers, question),
        Trial::OneTurn => Ok(is_list_after_one_turn(rt, pool, clients, workers)),
        Trial::Leaving => Ok(ends_after_one_turn(rt, pool, clients, workers)),
        Trial::Working => are_all_answered(rt, pool, clients, workers),
    }
}

/// Returns whether a trial ends as is wanted over a new pool of a cache's programs. The error is that there was no
/// memory to begin it.
fn succeeds_by<'p, R: Threads + Wait + Sync + Abort + AllocGlobal>(
    rt: &R,
    cache: &'p ProgramCache<'p>,
    clients: usize,
    workers: usize,
    trial: Trial,
) -> Result<bool, AllocError>
    requires clients { (1 ≤ clients) × (clients ≤ MOST_CLIENTS) }
    requires workers { (1 ≤ workers) × (workers ≤ MOST_WORKERS) }
{
    let Seated {
        pool,
        mut clients,
        mut workers,
    } = new_pool(rt.alloc(), cache, clients, workers)?;
    succeeds_over(rt, &pool, &mut clients, &mut workers, trial)
}

/// Returns whether a trial ends as is wanted over a new cache of a registry's programs. The error is that there was no
/// memory to begin it.
fn succeeds_in<R: Threads + Wait + Sync + Abort + AllocGlobal>(
    rt: &R,
    registry: &SharedRegistry,
    clients: usize,
    workers: usize,
    trial: Trial,
) -> Result<bool, AllocError>
    requires clients { (1 ≤ clients) × (clients ≤ MOST_CLIENTS) }
    requires workers { (1 ≤ workers) × (workers ≤ MOST_WORKERS) }
{
    let cache = ProgramCache::new(rt.alloc(), registry)?;
    succeeds_by(rt, &cache, clients, workers, trial)
}

/// Returns whether a trial ends as is wanted over a new registry, with a pool that has seats for `clients` clients and
/// `workers` workers. The error is that there was no memory to begin it.
pub(crate) fn succeeds<R: Threads + Wait + Sync + Abort + AllocGlobal>(
    rt: &R,
    clients: usize,
    workers: usize,
    trial: Trial,
) -> Result<bool, AllocError>
    requires clients { (1 ≤ clients) × (clients ≤ MOST_CLIENTS) }
    requires workers { (1 ≤ workers) × (workers ≤ MOST_WORKERS) }
{
    let registry = SharedRegistry::new(rt.alloc())?;
    succeeds_in(rt, &registry, clients, workers, trial)
}
