//! Pools with their seats.

ghost use Rattle.std.specs.Prelude.{◌≡◌, ◌≤◌, All, IfOk, IfSome};
ghost use Rattle.session_pool.specs.declared.limits.TheConstants.{MOST_CLIENTS};
ghost use Rattle.session_pool.specs.declared.limits.TheConstants.{MOST_WORKERS};
ghost use Rattle.session_pool.specs.Seats.{IsNewClient, IsNewWorker, Rests, RestsWorker};

use program_cache::ProgramCache;
use session_pool::{ClientSeat, SessionPool, WorkerSeat};
use std::alloc::{AllocError, Global};

/// A pool, and the seats that are not taken yet.
#[derive(Drop)]
pub(crate) struct Seated<'p> {
    pub(crate) pool: SessionPool<'p>,
    pub(crate) clients: Vec<ClientSeat<'p>>,
    pub(crate) workers: Vec<WorkerSeat<'p>>,
    ghost clients_rest: { All (IsNewClient pool) clients.items },
    ghost workers_rest: { All (IsNewWorker pool) workers.items },
}

/// Returns a pool over a cache, for `threads` clients and as many workers.
pub(crate) fn new_pool<'p>(
    alloc: Global,
    cache: &'p ProgramCache<'p>,
    threads: usize,
) -> Result<Seated<'p>, AllocError>
    requires clients { (1 ≤ threads) × (threads ≤ MOST_CLIENTS) }
    requires workers { (1 ≤ threads) × (threads ≤ MOST_WORKERS) }
    ensures { IfOk result (λ seated. seated.pool.cache.now ≡ cache.now) }
{
    let (pool, clients, workers) = SessionPool::new(alloc, cache, threads, threads)?;
    Ok(Seated {
        pool,
        clients,
        workers,
    })
}

/// Takes out the last of some clients' seats. `None` where none is left.
pub(crate) fn pop_client<'p>(
    pool: &SessionPool<'p>,
    seats: &mut Vec<ClientSeat<'p>>,
) -> Option<ClientSeat<'p>>
    requires { All (IsNewClient pool.now) seats.old.items }
    ensures seat { IfSome result (Rests pool.now) }
    ensures others { All (IsNewClient pool.now) seats.new.items }
{
    seats.pop()
}

/// Takes out the last of some workers' seats. `None` where none is left.
pub(crate) fn pop_worker<'p>(
    pool: &SessionPool<'p>,
    seats: &mut Vec<WorkerSeat<'p>>,
) -> Option<WorkerSeat<'p>>
    requires { All (IsNewWorker pool.now) seats.old.items }
    ensures seat { IfSome result (RestsWorker pool.now) }
    ensures others { All (IsNewWorker pool.now) seats.new.items }
{
    seats.pop()
}
