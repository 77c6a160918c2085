//! Workers that run many sessions, a row at a time.

ghost use Rattle.std.specs.Prelude.{◌≡◌, All};
ghost use Rattle.spec_registry.specs.Receipt.{IsReceiptOf};
ghost use Rattle.session_pool.specs.Seats.{IsNewClient, IsNewWorker, Rests, RestsWorker};

use crate::gates::UntilSet;
use crate::schemas::{LIST_BYTES, list_registered};
use crate::trials::{Trial, succeeds};
use crate::waiting::{finished_in_time, list_sent};
use avro_bytes::Outcome;
use gateway::{pop_client, pop_worker, work};
use schema_registry::Receipt;
use session_pool::{ClientSeat, Finished, SessionEnd, SessionPool, WorkerSeat};
use std::alloc::{AllocError, Global};
use std::sync::Wait;
use std::sync::atomic::{AtomicBool, Ordering};
use std::thread;
use std::thread::Threads;

/// How many sessions there are, each of a client of its own.
const SESSIONS: usize = 64;

/// How many workers run them.
const WORKERS: usize = 4;

/// How many rows a turn takes at most.
const LIMIT: u64 = 1;

/// How many rows a session on the list of 1 and 2 takes.
const ROWS: u64 = 20;

/// A worker.
#[derive(Drop)]
struct Working<'a, 'p> {
    pool: &'a SessionPool<'p>,
    is_over: &'a AtomicBool,
    seat: WorkerSeat<'p>,
    ghost ready: { RestsWorker pool.now seat },
}

/// A client, with a receipt of the schema of lists.
#[derive(Drop)]
struct Asking<'a, 'p> {
    alloc: Global,
    pool: &'a SessionPool<'p>,
    seat: ClientSeat<'p>,
    receipt: Receipt,
    ghost ready: { Rests pool.now seat },
    ghost known: { IsReceiptOf pool.now.cache.now receipt },
}

/// Takes turns until the clients are over.
fn run<R: Wait>(rt: &R, working: Working<'_, '_>) {
    let Working {
        pool,
        is_over,
        mut seat,
    } = working;
    let mut gate = UntilSet { flag: is_over };
    work(rt, pool, &mut seat, LIMIT, &mut gate);
}

/// Returns what a session on the list comes to.
fn finished<'p>(
    alloc: Global,
    pool: &SessionPool<'p>,
    seat: &mut ClientSeat<'p>,
    receipt: &mut Receipt,
) -> Option<Finished>
    requires seat { Rests pool.now seat.old }
    requires receipt { IsReceiptOf pool.now.cache.now receipt.old }
    ensures { Rests pool.now seat.new }
{
    let pass = list_sent(alloc, pool, seat, receipt)?;
    finished_in_time(pool, seat, pass)
}

/// Returns whether the session of a client comes to the list, after `ROWS` rows.
fn is_answered(asking: Asking<'_, '_>) -> bool {
    let Asking {
        alloc,
        pool,
        mut seat,
        mut receipt,
    } = asking;
    match finished(alloc, pool, &mut seat, &mut receipt) {
        Some(Finished { end, rows }) => match end {
            SessionEnd::Out(Outcome::Done(output)) => {
                output.as_slice() == LIST_BYTES && rows == ROWS
            }
            _ => false,
        },
        None => false,
    }
}

/// Returns what each worker receives.
fn all_working<'a, 'p>(
    alloc: Global,
    pool: &'a SessionPool<'p>,
    is_over: &'a AtomicBool,
    seats: &mut Vec<WorkerSeat<'p>>,
) -> Result<Vec<Working<'a, 'p>>, AllocError>
    requires { All (IsNewWorker pool.now) seats.old.items }
{
    let mut workers = Vec::new(alloc);
    for _ in 0..seats.len() {
        let Some(seat) = pop_worker(pool, seats) else {
            return Ok(workers);
        };
        workers.push(Working {
            pool,
            is_over,
            seat,
        })?;
    }
    Ok(workers)
}

/// Returns what each client receives.
fn all_asking<'a, 'p>(
    alloc: Global,
    pool: &'a SessionPool<'p>,
    seats: &mut Vec<ClientSeat<'p>>,
    receipt: &mut Receipt,
) -> Result<Vec<Asking<'a, 'p>>, AllocError>
    requires seats { All (IsNewClient pool.now) seats.old.items }
    requires receipt { IsReceiptOf pool.now.cache.now receipt.old }
{
    let mut clients = Vec::new(alloc);
    for _ in 0..seats.len() {
        let Some(seat) = pop_client(pool, seats) else {
            return Ok(clients);
        };
        clients.push(Asking {
            alloc,
            pool,
            seat,
            receipt: receipt.again(),
        })?;
    }
    Ok(clients)
}

/// Runs each worker in a thread of its own.
fn run_workers<R: Threads + Wait + Sync>(
    rt: &R,
    workers: Vec<Working<'_, '_>>,
) -> Result<(), AllocError> {
    thread::map_vec(rt, workers, &|working: Working<'_, '_>| run(rt, working))?;
    Ok(())
}

/// Runs each client in a thread of its own. Then the workers end.
fn run_clients<R: Threads + Sync>(
    rt: &R,
    is_over: &AtomicBool,
    clients: Vec<Asking<'_, '_>>,
) -> Result<Vec<bool>, AllocError> {
    let answers = thread::map_vec(rt, clients, &|asking: Asking<'_, '_>| is_answered(asking));
    is_over.store(true, Ordering::SeqCst);
    answers
}

/// Runs all threads at once. Returns of each client whether it was answered.
fn run_all<R: Threads + Wait + Sync>(
    rt: &R,
    is_over: &AtomicBool,
    workers: Vec<Working<'_, '_>>,
    clients: Vec<Asking<'_, '_>>,
) -> Result<Vec<bool>, AllocError> {
    let (worked, answers) = thread::join(
        rt,
        || run_workers(rt, workers),
        || run_clients(rt, is_over, clients),
    );
    worked?;
    answers
}

/// Returns whether each client's session comes to the list, by a thread for each client and each worker. The error is
/// that there was no memory for them.
fn are_answered<'p, R: Threads + Wait + Sync + AllocGlobal>(
    rt: &R,
    pool: &SessionPool<'p>,
    clients: &mut Vec<ClientSeat<'p>>,
    workers: &mut Vec<WorkerSeat<'p>>,
    receipt: &mut Receipt,
) -> Result<bool, AllocError>
    requires clients { All (IsNewClient pool.now) clients.old.items }
    requires workers { All (IsNewWorker pool.now) workers.old.items }
    requires receipt { IsReceiptOf pool.now.cache.now receipt.old }
{
    let is_over = AtomicBool::new(false);
    let working = all_working(rt.alloc(), pool, &is_over, workers)?;
    let asking = all_asking(rt.alloc(), pool, clients, receipt)?;
    let answers = run_all(rt, &is_over, working, asking)?;
    Ok(answers.as_slice() == [true; SESSIONS].as_slice())
}

/// Registers the schema of lists. Returns whether the session of each of `SESSIONS` clients comes to the list. The
/// error is that there was no memory for the threads.
pub(crate) fn are_all_answered<'p, R: Threads + Wait + Sync + AllocGlobal>(
    rt: &R,
    pool: &SessionPool<'p>,
    clients: &mut Vec<ClientSeat<'p>>,
    workers: &mut Vec<WorkerSeat<'p>>,
) -> Result<bool, AllocError>
    requires clients { All (IsNewClient pool.now) clients.old.items }
    requires workers { All (IsNewWorker pool.now) workers.old.items }
{
    match list_registered(rt, rt.alloc(), pool) {
        Ok(mut receipt) => are_answered(rt, pool, clients, workers, &mut receipt),
        Err(_) => Ok(false),
    }
}

#[test]
fn four_workers_run_64_sessions_row_by_row(rt: HostRuntime) -> Result<(), AllocError> {
    assert!(rt; succeeds(&rt, SESSIONS, WORKERS, Trial::Working)?);
    Ok(())
}
