//! Sessions of a pool on one thread, which is client and worker.

ghost use Rattle.std.specs.Prelude.{◌≡◌};
ghost use Rattle.spec_registry.specs.Receipt.{IsReceiptOf};
ghost use Rattle.session_pool.specs.Seats.{Rests, RestsWorker};

use crate::answers::{MOST_ROWS, fed, is_right};
use crate::error::BenchError;
use crate::figures::{Measured, Stopwatch};
use crate::seats::{Seated, new_pool, pop_client, pop_worker};
use crate::waiting::MOST_TRIES;
use program_cache::ProgramCache;
use schema_registry::Receipt;
use session_pool::{ClientSeat, ReturnedPass, SessionPool, WorkerSeat};
use std::alloc::Global;
use std::time::Clock;

/// The seats of a client and of a worker.
#[derive(Drop)]
struct BothSeats<'p> {
    client: ClientSeat<'p>,
    worker: WorkerSeat<'p>,
}

/// Returns whether a session comes to the output of the message, by turns that are taken until it has ended.
fn is_answered<'p>(
    alloc: Global,
    pool: &SessionPool<'p>,
    client: &mut ClientSeat<'p>,
    worker: &mut WorkerSeat<'p>,
    writer: &mut Receipt,
    reader: &mut Receipt,
) -> bool
    requires client { Rests pool.now client.old }
    requires worker { RestsWorker pool.now worker.old }
    requires writer { IsReceiptOf pool.now.cache.now writer.old }
    requires reader { IsReceiptOf pool.now.cache.now reader.old }
    ensures client { Rests pool.now client.new }
    ensures worker { RestsWorker pool.now worker.new }
    ensures receipts { (writer.new ≡ writer.old) × (reader.new ≡ reader.old) }
{
    let Some(mut pass) = fed(alloc, pool, client, writer, reader) else {
        return false;
    };
    for _ in 0..MOST_TRIES {
        let _turn = pool.turn(worker, MOST_ROWS);
        match pool.result(client, pass) {
            Ok(finished) => return is_right(&finished.end),
            Err(ReturnedPass { pass: back, .. }) => pass = back,
        }
    }
    false
}

/// Runs `sessions` sessions. Returns how many were answered correctly.
fn run_all<'p>(
    alloc: Global,
    pool: &SessionPool<'p>,
    seats: &mut BothSeats<'p>,
    writer: &mut Receipt,
    reader: &mut Receipt,
    sessions: u64,
) -> u64
    requires client { Rests pool.now seats.old.client }
    requires worker { RestsWorker pool.now seats.old.worker }
    requires writer { IsReceiptOf pool.now.cache.now writer.old }
    requires reader { IsReceiptOf pool.now.cache.now reader.old }
    ensures receipts { (writer.new ≡ writer.old) × (reader.new ≡ reader.old) }
{
    let mut right = 0_u64;
    for _ in 0..sessions {
        let BothSeats { client, worker } = seats;
        if is_answered(alloc, pool, client, worker, writer, reader) {
            right = right.wrapping_add(1);
        }
    }
    right
}

/// Measures `sessions` sessions of a pool on this thread.
pub(crate) fn measure<R: Clock>(
    rt: &R,
    alloc: Global,
    cache: &ProgramCache<'_>,
    writer: &mut Receipt,
    reader: &mut Receipt,
    sessions: u64,
) -> Result<Measured, BenchError>
    requires writer { IsReceiptOf cache.now writer.old }
    requires reader { IsReceiptOf cache.now reader.old }
    ensures receipts { (writer.new ≡ writer.old) × (reader.new ≡ reader.old) }
{
    let Seated {
        pool,
        mut clients,
        mut workers,
    } = new_pool(alloc, cache, 1)?;
    let Some(client) = pop_client(&pool, &mut clients) else {
        return Err(BenchError::NoMemory);
    };
    let Some(worker) = pop_worker(&pool, &mut workers) else {
        return Err(BenchError::NoMemory);
    };
    let mut seats = BothSeats { client, worker };
    let watch = Stopwatch::start(rt);
    let right = run_all(alloc, &pool, &mut seats, writer, reader, sessions);
    watch.measured(rt, right)
}
