//! Four workers and eight clients, in threads.

ghost use Rattle.std.specs.Prelude.{◌≡◌, All};
ghost use Rattle.spec_registry.specs.Receipt.{IsReceiptOf};
ghost use Rattle.session_pool.specs.Seats.{IsNewClient, IsNewWorker, Rests, RestsWorker};

use crate::courses::output_of;
use crate::same::same;
use crate::schemas::{RECORD, RECORD_BYTES, SWAPPED, SWAPPED_BYTES, registered};
use crate::seats::{Seated, new_pool, pop_client, pop_worker};
use crate::waiting::{MOST_TRIES, end_when_free, finished_in_time, send_when_free};
use program_cache::ProgramCache;
use schema_registry::{Receipt, SharedRegistry};
use session_pool::{ClientSeat, SessionPool, Turn, WorkerSeat};
use std::alloc::{AllocError, Global};
use std::process::Abort;
use std::sync::Wait;
use std::sync::atomic::{AtomicBool, Ordering};
use std::test::Fail;
use std::thread;
use std::thread::Threads;

/// How often each client runs both sessions.
const ROUNDS: u32 = 50;

/// A worker.
#[derive(Drop)]
struct Working<'a, 'p> {
    pool: &'a SessionPool<'p>,
    is_over: &'a AtomicBool,
    seat: WorkerSeat<'p>,
    ghost ready: { RestsWorker pool.now seat },
}

/// A client, with receipts of the schema and of the same with its fields the other way round.
#[derive(Drop)]
struct Asking<'a, 'p> {
    alloc: Global,
    pool: &'a SessionPool<'p>,
    seat: ClientSeat<'p>,
    writer: Receipt,
    reader: Receipt,
    swapped: Receipt,
    ghost ready: { Rests pool.now seat },
    ghost writer_known: { IsReceiptOf pool.now.cache.now writer },
    ghost reader_known: { IsReceiptOf pool.now.cache.now reader },
    ghost swapped_known: { IsReceiptOf pool.now.cache.now swapped },
}

/// Takes turns until the clients are over. Returns how often it ran a session.
fn work(working: Working) -> u64 {
    let Working {
        pool,
        is_over,
        mut seat,
    } = working;
    let mut ran = 0_u64;
    for _ in 0..MOST_TRIES {
        if is_over.load(Ordering::SeqCst) {
            break;
        }
        match pool.turn(&mut seat, 3) {
            Turn::Ran { .. } => ran = ran.wrapping_add(1),
            Turn::Idle => thread::yield_now(),
        }
    }
    ran
}

/// Returns whether a session on the payload in two pieces comes to this output, after ten rows.
fn is_answered<'p>(
    alloc: Global,
    pool: &SessionPool<'p>,
    seat: &mut ClientSeat<'p>,
    writer: &mut Receipt,
    reader: &mut Receipt,
    output: &[u8],
) -> bool
    requires seat { Rests pool.now seat.old }
    requires writer { IsReceiptOf pool.now.cache.now writer.old }
    requires reader { IsReceiptOf pool.now.cache.now reader.old }
    ensures seat { Rests pool.now seat.new }
    ensures receipts { (writer.new ≡ writer.old) × (reader.new ≡ reader.old) }
{
    let (begin, rest) = RECORD_BYTES.split_at(2);
    let (Ok(begin), Ok(rest)) = (Vec::from_slice(alloc, begin), Vec::from_slice(alloc, rest)) else {
        return false;
    };
    let Ok(pass) = pool.open(seat, writer, reader) else {
        return false;
    };
    if send_when_free(pool, seat, &pass, begin).is_err() {
        return false;
    }
    if send_when_free(pool, seat, &pass, rest).is_err() {
        return false;
    }
    if end_when_free(pool, seat, &pass).is_err() {
        return false;
    }
    let Ok(finished) = finished_in_time(pool, seat, pass) else {
        return false;
    };
    match output_of(finished.end) {
        Ok(found) => found.as_slice() == output && finished.rows == 10,
        Err(_) => false,
    }
}

/// Runs both sessions in each of the rounds. Returns how many rounds were answered correctly.
fn ask(asking: Asking) -> u32 {
    let Asking {
        alloc,
        pool,
        mut seat,
        mut writer,
        mut reader,
        mut swapped,
    } = asking;
    let mut right = 0_u32;
    for _ in 0..ROUNDS {
        let first = is_answered(
            alloc,
            pool,
            &mut seat,
            &mut writer,
            &mut reader,
            RECORD_BYTES,
        );
        let second = is_answered(
            alloc,
            pool,
            &mut seat,
            &mut writer,
            &mut swapped,
            SWAPPED_BYTES,
        );
        if first && second {
            right = right.wrapping_add(1);
        }
    }
    right
}

/// Returns what each worker receives.
fn all_working<'a, 'p>(
    alloc: Global,
    pool: &'a SessionPool<'p>,
    is_over: &'a AtomicBool,
    mut seats: Vec<WorkerSeat<'p>>,
) -> Result<Vec<Working<'a, 'p>>, AllocError>
    requires { All (IsNewWorker pool.now) seats.items }
{
    let mut workers = Vec::new(alloc);
    for _ in 0..seats.len() {
        let Some(seat) = pop_worker(pool, &mut seats) else {
            return Ok(workers);
        };
        workers.push(Working {
            pool,
            is_over,
            seat,
        })?;
    }
    Ok(workers)
}

/// Returns what each client receives.
fn all_asking<'a, 'p>(
    alloc: Global,
    pool: &'a SessionPool<'p>,
    mut seats: Vec<ClientSeat<'p>>,
    unswapped: &mut Receipt,
    swapped: &mut Receipt,
) -> Result<Vec<Asking<'a, 'p>>, AllocError>
    requires seats { All (IsNewClient pool.now) seats.items }
    requires unswapped { IsReceiptOf pool.now.cache.now unswapped.old }
    requires swapped { IsReceiptOf pool.now.cache.now swapped.old }
{
    let mut clients = Vec::new(alloc);
    for _ in 0..seats.len() {
        let Some(seat) = pop_client(pool, &mut seats) else {
            return Ok(clients);
        };
        clients.push(Asking {
            alloc,
            pool,
            seat,
            writer: unswapped.again(),
            reader: unswapped.again(),
            swapped: swapped.again(),
        })?;
    }
    Ok(clients)
}

/// Runs each worker in a thread of its own.
fn work_all<'a, 'p, R: Threads + Sync>(
    rt: &R,
    workers: Vec<Working<'a, 'p>>,
) -> Result<Vec<u64>, AllocError> {
    thread::map_vec(rt, workers, &|working: Working<'_, '_>| work(working))
}

/// Runs each client in a thread of its own. Then the workers end.
fn ask_all<'a, 'p, R: Threads + Sync>(
    rt: &R,
    is_over: &AtomicBool,
    clients: Vec<Asking<'a, 'p>>,
) -> Result<Vec<u32>, AllocError> {
    let right = thread::map_vec(rt, clients, &|asking: Asking<'_, '_>| ask(asking));
    is_over.store(true, Ordering::SeqCst);
    right
}

/// Runs all threads at once. Returns how many rounds of each client were answered correctly.
fn run_all<'a, 'p, R: Threads + Sync>(
    rt: &R,
    is_over: &AtomicBool,
    workers: Vec<Working<'a, 'p>>,
    clients: Vec<Asking<'a, 'p>>,
) -> Result<Vec<u32>, AllocError> {
    let (worked, right) = thread::join(
        rt,
        || work_all(rt, workers),
        || ask_all(rt, is_over, clients),
    );
    worked?;
    right
}

/// Asserts that each of eight clients is answered correctly in each round.
fn assert_answered<'a, 'p, R: Threads + Wait + Abort + Sync>(
    rt: &R,
    alloc: Global,
    pool: &'a SessionPool<'p>,
    is_over: &'a AtomicBool,
    clients: Vec<ClientSeat<'p>>,
    workers: Vec<WorkerSeat<'p>>,
) -> Result<(), Fail>
    requires clients { All (IsNewClient pool.now) clients.items }
    requires workers { All (IsNewWorker pool.now) workers.items }
{
    let mut unswapped = registered(rt, alloc, pool, "s", RECORD)?;
    let mut swapped = registered(rt, alloc, pool, "t", SWAPPED)?;
    let workers = all_working(alloc, pool, is_over, workers)?;
    let clients = all_asking(alloc, pool, clients, &mut unswapped, &mut swapped)?;
    let right = run_all(rt, is_over, workers, clients)?;
    same(rt, right.as_slice(), [ROUNDS; 8].as_slice());
    Ok(())
}

#[test]
fn eight_clients_and_four_workers(rt: HostRuntime) -> Result<(), Fail> {
    let alloc = rt.alloc();
    let registry = SharedRegistry::new(alloc)?;
    let cache = ProgramCache::new(alloc, &registry)?;
    let Seated {
        pool,
        clients,
        workers,
    } = new_pool(alloc, &cache, 8, 4)?;
    let is_over = AtomicBool::new(false);
    assert_answered(&rt, alloc, &pool, &is_over, clients, workers)
}
