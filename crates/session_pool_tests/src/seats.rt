//! Pools with their seats.

ghost use Rattle.std.specs.Prelude.{◌≤◌, All, IfSome};
ghost use Rattle.session_pool.specs.declared.limits.TheConstants.{MOST_CLIENTS};
ghost use Rattle.session_pool.specs.declared.limits.TheConstants.{MOST_WORKERS};
ghost use Rattle.session_pool.specs.Seats.{IsNewClient, IsNewWorker, Rests, RestsWorker};

use program_cache::ProgramCache;
use session_pool::{ClientSeat, SessionPool, WorkerSeat};
use std::alloc::{AllocError, Global};
use std::process::Abort;

/// A pool, and the seats that are not taken yet.
#[derive(Drop)]
pub(crate) struct Seated<'p> {
    pub(crate) pool: SessionPool<'p>,
    pub(crate) clients: Vec<ClientSeat<'p>>,
    pub(crate) workers: Vec<WorkerSeat<'p>>,
    ghost clients_rest: { All (IsNewClient pool) clients.items },
    ghost workers_rest: { All (IsNewWorker pool) workers.items },
}

/// Returns a pool over a cache, with seats for `clients` clients and `workers` workers.
pub(crate) fn new_pool<'p>(
    alloc: Global,
    cache: &'p ProgramCache<'p>,
    clients: usize,
    workers: usize,
) -> Result<Seated<'p>, AllocError>
    requires clients { (1 ≤ clients) × (clients ≤ MOST_CLIENTS) }
    requires workers { (1 ≤ workers) × (workers ≤ MOST_WORKERS) }
{
    let (pool, clients, workers) = SessionPool::new(alloc, cache, clients, workers)?;
    Ok(Seated {
        pool,
        clients,
        workers,
    })
}

/// Takes out the last of some clients' seats. `None` where none is left.
pub(crate) fn pop_client<'p>(
    pool: &SessionPool<'p>,
    seats: &mut Vec<ClientSeat<'p>>,
) -> Option<ClientSeat<'p>>
    requires { All (IsNewClient pool.now) seats.old.items }
    ensures seat { IfSome result (Rests pool.now) }
    ensures others { All (IsNewClient pool.now) seats.new.items }
{
    seats.pop()
}

/// Takes out the last of some workers' seats. `None` where none is left.
pub(crate) fn pop_worker<'p>(
    pool: &SessionPool<'p>,
    seats: &mut Vec<WorkerSeat<'p>>,
) -> Option<WorkerSeat<'p>>
    requires { All (IsNewWorker pool.now) seats.old.items }
    ensures seat { IfSome result (RestsWorker pool.now) }
    ensures others { All (IsNewWorker pool.now) seats.new.items }
{
    seats.pop()
}

/// Takes out the last of some clients' seats.
pub(crate) fn last_client<'p>(
    rt: &impl Abort,
    pool: &SessionPool<'p>,
    seats: &mut Vec<ClientSeat<'p>>,
) -> ClientSeat<'p>
    requires { All (IsNewClient pool.now) seats.old.items }
    ensures seat { Rests pool.now result }
    ensures others { All (IsNewClient pool.now) seats.new.items }
{
    match pop_client(pool, seats) {
        Some(seat) => seat,
        None => panic!(rt; "no client's seat is left"),
    }
}

/// Takes out the last of some workers' seats.
pub(crate) fn last_worker<'p>(
    rt: &impl Abort,
    pool: &SessionPool<'p>,
    seats: &mut Vec<WorkerSeat<'p>>,
) -> WorkerSeat<'p>
    requires { All (IsNewWorker pool.now) seats.old.items }
    ensures seat { RestsWorker pool.now result }
    ensures others { All (IsNewWorker pool.now) seats.new.items }
{
    match pop_worker(pool, seats) {
        Some(seat) => seat,
        None => panic!(rt; "no worker's seat is left"),
    }
}
