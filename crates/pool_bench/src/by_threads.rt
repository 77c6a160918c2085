//! Sessions of a pool by workers and as many clients, each in a thread of its own.

ghost use Rattle.std.specs.Prelude.{◌≡◌, ◌≤◌, All};
ghost use Rattle.spec_registry.specs.Receipt.{IsReceiptOf};
ghost use Rattle.session_pool.specs.Seats.{IsNewClient, IsNewWorker, Rests, RestsWorker};

use crate::answers::{MOST_ROWS, fed, is_right};
use crate::error::BenchError;
use crate::figures::{Measured, Stopwatch};
use crate::seats::{Seated, new_pool, pop_client, pop_worker};
use crate::waiting::{MOST_TRIES, finished_in_time};
use program_cache::ProgramCache;
use schema_registry::Receipt;
use session_pool::{ClientSeat, SessionPool, Turn, WorkerSeat};
use std::alloc::{AllocError, Global};
use std::sync::atomic::{AtomicBool, Ordering};
use std::thread;
use std::thread::Threads;
use std::time::Clock;

/// A worker.
#[derive(Drop)]
struct Working<'a, 'p> {
    pool: &'a SessionPool<'p>,
    is_over: &'a AtomicBool,
    seat: WorkerSeat<'p>,
    ghost ready: { RestsWorker pool.now seat },
}

/// A client, with receipts of both schemas, and how many sessions it runs.
#[derive(Drop)]
struct Asking<'a, 'p> {
    alloc: Global,
    pool: &'a SessionPool<'p>,
    seat: ClientSeat<'p>,
    writer: Receipt,
    reader: Receipt,
    sessions: u64,
    ghost ready: { Rests pool.now seat },
    ghost writer_known: { IsReceiptOf pool.now.cache.now writer },
    ghost reader_known: { IsReceiptOf pool.now.cache.now reader },
}

/// Takes turns until the clients are over, or too many turns in a row find nothing to run. Returns how often it ran a
/// session.
fn work(working: Working) -> u64 {
    let Working {
        pool,
        is_over,
        mut seat,
    } = working;
    let mut ran = 0_u64;
    let mut idle = 0_u32;
    for _ in 0..u64::MAX {
        if is_over.load(Ordering::SeqCst) || idle >= MOST_TRIES {
            break;
        }
        match pool.turn(&mut seat, MOST_ROWS) {
            Turn::Ran { .. } => {
                ran = ran.wrapping_add(1);
                idle = 0;
            }
            Turn::Idle => {
                idle = idle.wrapping_add(1);
                thread::yield_now();
            }
        }
    }
    ran
}

/// Returns whether a session comes to the output of the message.
fn is_answered<'p>(
    alloc: Global,
    pool: &SessionPool<'p>,
    seat: &mut ClientSeat<'p>,
    writer: &mut Receipt,
    reader: &mut Receipt,
) -> bool
    requires seat { Rests pool.now seat.old }
    requires writer { IsReceiptOf pool.now.cache.now writer.old }
    requires reader { IsReceiptOf pool.now.cache.now reader.old }
    ensures seat { Rests pool.now seat.new }
    ensures receipts { (writer.new ≡ writer.old) × (reader.new ≡ reader.old) }
{
    let Some(pass) = fed(alloc, pool, seat, writer, reader) else {
        return false;
    };
    match finished_in_time(pool, seat, pass) {
        Ok(finished) => is_right(&finished.end),
        Err(_) => false,
    }
}

/// Runs its sessions. Returns how many were answered correctly.
fn ask(asking: Asking) -> u64 {
    let Asking {
        alloc,
        pool,
        mut seat,
        mut writer,
        mut reader,
        sessions,
    } = asking;
    let mut right = 0_u64;
    for _ in 0..sessions {
        if is_answered(alloc, pool, &mut seat, &mut writer, &mut reader) {
            right = right.wrapping_add(1);
        }
    }
    right
}

/// Returns what each worker receives.
fn all_working<'a, 'p>(
    alloc: Global,
    pool: &'a SessionPool<'p>,
    is_over: &'a AtomicBool,
    mut seats: Vec<WorkerSeat<'p>>,
) -> Result<Vec<Working<'a, 'p>>, AllocError>
    requires { All (IsNewWorker pool.now) seats.items }
{
    let mut workers = Vec::new(alloc);
    for _ in 0..seats.len() {
        let Some(seat) = pop_worker(pool, &mut seats) else {
            return Ok(workers);
        };
        workers.push(Working {
            pool,
            is_over,
            seat,
        })?;
    }
    Ok(workers)
}

/// Returns how many of `sessions` sessions the client at an index runs, of `clients` clients.
fn share_of(sessions: u64, clients: u64, client: u64) -> u64 {
    let clients = clients.max(1);
    let rest = if client < sessions % clients { 1 } else { 0 };
    (sessions / clients).saturating_add(rest)
}

/// Returns what each client receives, of `sessions` sessions in all.
fn all_asking<'a, 'p>(
    alloc: Global,
    pool: &'a SessionPool<'p>,
    mut seats: Vec<ClientSeat<'p>>,
    writer: &mut Receipt,
    reader: &mut Receipt,
    sessions: u64,
) -> Result<Vec<Asking<'a, 'p>>, AllocError>
    requires seats { All (IsNewClient pool.now) seats.items }
    requires writer { IsReceiptOf pool.now.cache.now writer.old }
    requires reader { IsReceiptOf pool.now.cache.now reader.old }
    ensures receipts { (writer.new ≡ writer.old) × (reader.new ≡ reader.old) }
{
    let count = seats.len() as u64;
    let mut clients = Vec::new(alloc);
    for client in 0..count {
        let Some(seat) = pop_client(pool, &mut seats) else {
            return Ok(clients);
        };
        clients.push(Asking {
            alloc,
            pool,
            seat,
            writer: writer.again(),
            reader: reader.again(),
            sessions: share_of(sessions, count, client),
        })?;
    }
    Ok(clients)
}

/// Runs each worker in a thread of its own.
fn work_all<'a, 'p, R: Threads + Sync>(
    rt: &R,
    workers: Vec<Working<'a, 'p>>,
) -> Result<Vec<u64>, AllocError> {
    thread::map_vec(rt, workers, &|working: Working<'_, '_>| work(working))
}

/// Runs each client in a thread of its own. Then the workers end.
fn ask_all<'a, 'p, R: Threads + Sync>(
    rt: &R,
    is_over: &AtomicBool,
    clients: Vec<Asking<'a, 'p>>,
) -> Result<Vec<u64>, AllocError> {
    let right = thread::map_vec(rt, clients, &|asking: Asking<'_, '_>| ask(asking));
    is_over.store(true, Ordering::SeqCst);
    right
}

/// Runs all threads at once, and returns how many sessions were answered correctly.
fn run_all<'a, 'p, R: Threads + Sync>(
    rt: &R,
    is_over: &AtomicBool,
    workers: Vec<Working<'a, 'p>>,
    clients: Vec<Asking<'a, 'p>>,
) -> Result<u64, AllocError> {
    let (worked, right) = thread::join(
        rt,
        || work_all(rt, workers),
        || ask_all(rt, is_over, clients),
    );
    worked?;
    let mut all = 0_u64;
    for right in right? {
        all = all.wrapping_add(right);
    }
    Ok(all)
}

/// How many sessions are measured, and by how many workers and as many clients.
#[derive(Clone, Copy)]
pub(crate) struct Load {
    pub(crate) sessions: u64,
    pub(crate) threads: usize,
}

impl Load {
    /// Returns the load of `sessions` sessions by `threads` threads.
    pub(crate) fn of(sessions: u64, threads: usize) -> Load
        ensures { result.threads ≡ threads }
    {
        Load { sessions, threads }
    }
}

/// Measures sessions of a pool.
pub(crate) fn measure<R: Threads + Clock + Sync>(
    rt: &R,
    alloc: Global,
    cache: &ProgramCache<'_>,
    writer: &mut Receipt,
    reader: &mut Receipt,
    load: Load,
) -> Result<Measured, BenchError>
    requires threads { (1 ≤ load.threads) × (load.threads ≤ 4) }
    requires writer { IsReceiptOf cache.now writer.old }
    requires reader { IsReceiptOf cache.now reader.old }
    ensures receipts { (writer.new ≡ writer.old) × (reader.new ≡ reader.old) }
{
    let Seated {
        pool,
        clients,
        workers,
    } = new_pool(alloc, cache, load.threads)?;
    let is_over = AtomicBool::new(false);
    let workers = all_working(alloc, &pool, &is_over, workers)?;
    let clients = all_asking(alloc, &pool, clients, writer, reader, load.sessions)?;
    let watch = Stopwatch::start(rt);
    let right = run_all(rt, &is_over, workers, clients)?;
    watch.measured(rt, right)
}
