//! Trials in a pool of one client and one worker, each of which asserts what its sessions come to.

ghost use Rattle.session_pool.specs.Seats.{Rests, RestsWorker};

use crate::memory::assert_used_again;
use crate::rows::{assert_breaks, assert_debugged, assert_fed, assert_pieces};
use crate::seats::{Seated, last_client, last_worker, new_pool};
use crate::slots::assert_in_turn;
use crate::stops::assert_stopped;
use program_cache::ProgramCache;
use schema_registry::SharedRegistry;
use session_pool::{ClientSeat, SessionPool, WorkerSeat};
use std::alloc::Global;
use std::process::Abort;
use std::sync::Wait;
use std::test::Fail;

/// What is tried.
#[derive(Clone, Copy)]
pub(crate) enum Trial {
    /// A session that is fed piece by piece.
    Feeding,
    /// What a debugger is answered.
    Debugging,
    /// More breakpoints than a session may have.
    Breaks,
    /// Pieces that are refused.
    Pieces,
    /// A breakpoint that a worker comes to.
    Stopping,
    /// Three sessions in turn.
    Turns,
    /// A slot that is used again.
    UsingAgain,
}

/// Makes a trial with the seats of a client and a worker.
fn try_with<'p, R: Wait + Abort>(
    rt: &R,
    alloc: Global,
    pool: &SessionPool<'p>,
    client: &mut ClientSeat<'p>,
    worker: &mut WorkerSeat<'p>,
    trial: Trial,
) -> Result<(), Fail>
    requires client { Rests pool.now client.old }
    requires worker { RestsWorker pool.now worker.old }
{
    match trial {
        Trial::Feeding => assert_fed(rt, alloc, pool, client, worker),
        Trial::Debugging => assert_debugged(rt, alloc, pool, client, worker),
        Trial::Breaks => assert_breaks(rt, alloc, pool, client),
        Trial::Pieces => assert_pieces(rt, alloc, pool, client, worker),
        Trial::Stopping => assert_stopped(rt, alloc, pool, client, worker),
        Trial::Turns => assert_in_turn(rt, alloc, pool, client, worker),
        Trial::UsingAgain => assert_used_again(rt, alloc, pool, client, worker),
    }
}

/// Makes a trial in a new pool.
pub(crate) fn try_in_new_pool<R: Wait + Abort + AllocGlobal>(
    rt: &R,
    trial: Trial,
) -> Result<(), Fail> {
    let alloc = rt.alloc();
    let registry = SharedRegistry::new(alloc)?;
    let cache = ProgramCache::new(alloc, &registry)?;
    let Seated {
        pool,
        mut clients,
        mut workers,
    } = new_pool(alloc, &cache, 1, 1)?;
    let mut client = last_client(rt, &pool, &mut clients);
    let mut worker = last_worker(rt, &pool, &mut workers);
    try_with(rt, alloc, &pool, &mut client, &mut worker, trial)
}
