//! Which slots sessions are opened in, and in which order workers come to them.

ghost use Rattle.std.specs.Prelude.{◌≡◌};
ghost use Rattle.spec_registry.specs.Receipt.{IsReceiptOf};
ghost use Rattle.session_pool.specs.Seats.{Rests, RestsWorker};

use crate::courses::{fed, run_through};
use crate::same::same;
use crate::schemas::{LIST_BYTES, LONG_LIST, RECORD, RECORD_BYTES, registered};
use crate::seats::{Seated, last_client, last_worker, new_pool};
use crate::trials::{Trial, try_in_new_pool};
use program_cache::ProgramCache;
use schema_registry::{Receipt, SharedRegistry};
use session_pool::{ClientSeat, OpenError, SLOTS, SessionPool, Turn, WorkerSeat};
use std::alloc::Global;
use std::process::Abort;
use std::sync::Wait;
use std::test::Fail;

/// Returns a turn that ran one row of a slot's session.
fn one_row(slot: u32) -> Turn {
    Turn::Ran { slot, rows: 1 }
}

/// Opens three sessions of lists, each with a whole payload.
fn open_three<'p>(
    alloc: Global,
    pool: &SessionPool<'p>,
    seat: &mut ClientSeat<'p>,
    receipt: &mut Receipt,
) -> Result<(), Fail>
    requires seat { Rests pool.now seat.old }
    requires receipt { IsReceiptOf pool.now.cache.now receipt.old }
{
    let mut again = receipt.again();
    for _ in 0..3 {
        let _pass = fed(alloc, pool, seat, receipt, &mut again, LIST_BYTES)?;
    }
    Ok(())
}

/// Asserts that a worker comes to each of three sessions in turn.
pub(crate) fn assert_in_turn<'p, R: Wait + Abort>(
    rt: &R,
    alloc: Global,
    pool: &SessionPool<'p>,
    client: &mut ClientSeat<'p>,
    worker: &mut WorkerSeat<'p>,
) -> Result<(), Fail>
    requires client { Rests pool.now client.old }
    requires worker { RestsWorker pool.now worker.old }
{
    let mut receipt = registered(rt, alloc, pool, "s", LONG_LIST)?;
    open_three(alloc, pool, client, &mut receipt)?;
    same(rt, pool.turn(worker, 1), one_row(0));
    same(rt, pool.turn(worker, 1), one_row(1));
    same(rt, pool.turn(worker, 1), one_row(2));
    same(rt, pool.turn(worker, 1), one_row(0));
    Ok(())
}

#[test]
fn a_worker_comes_to_each_session_in_turn(rt: HostRuntime) -> Result<(), Fail> {
    try_in_new_pool(&rt, Trial::Turns)
}

/// Asserts that a worker runs the first of three sessions, and another steals the second.
fn assert_stolen<'p, R: Wait + Abort>(
    rt: &R,
    alloc: Global,
    pool: &SessionPool<'p>,
    client: &mut ClientSeat<'p>,
    owner: &mut WorkerSeat<'p>,
    thief: &mut WorkerSeat<'p>,
) -> Result<(), Fail>
    requires client { Rests pool.now client.old }
    requires owner { RestsWorker pool.now owner.old }
    requires thief { RestsWorker pool.now thief.old }
{
    let mut receipt = registered(rt, alloc, pool, "s", LONG_LIST)?;
    open_three(alloc, pool, client, &mut receipt)?;
    same(rt, pool.turn(owner, 1), one_row(0));
    same(rt, pool.turn(thief, 1), one_row(1));
    Ok(())
}

#[test]
fn a_worker_steals_from_another(rt: HostRuntime) -> Result<(), Fail> {
    let alloc = rt.alloc();
    let registry = SharedRegistry::new(alloc)?;
    let cache = ProgramCache::new(alloc, &registry)?;
    let Seated {
        pool,
        mut clients,
        mut workers,
    } = new_pool(alloc, &cache, 1, 2)?;
    let mut client = last_client(&rt, &pool, &mut clients);
    let mut thief = last_worker(&rt, &pool, &mut workers);
    let mut owner = last_worker(&rt, &pool, &mut workers);
    assert_stolen(&rt, alloc, &pool, &mut client, &mut owner, &mut thief)
}

/// How many sessions were opened, and why no further one was.
#[derive(Clone, Copy, Debug, PartialEq, Eq)]
struct Opened {
    sessions: usize,
    refusal: Option<OpenError>,
}

/// Opens sessions until one is refused, at most `most`, and drops their passes.
fn open_all<'p>(
    pool: &SessionPool<'p>,
    seat: &mut ClientSeat<'p>,
    receipt: &mut Receipt,
    most: usize,
) -> Opened
    requires seat { Rests pool.now seat.old }
    requires receipt { IsReceiptOf pool.now.cache.now receipt.old }
    ensures seat { Rests pool.now seat.new }
    ensures receipt { receipt.new ≡ receipt.old }
{
    let mut again = receipt.again();
    for sessions in 0..most {
        if let Err(error) = pool.open(seat, receipt, &mut again) {
            return Opened {
                sessions,
                refusal: Some(error),
            };
        }
    }
    Opened {
        sessions: most,
        refusal: None,
    }
}

/// Asserts that a client takes a slot, and another all that are left, and that once the first frees its own, it has
/// that slot again.
fn assert_full<'p, R: Wait + Abort>(
    rt: &R,
    alloc: Global,
    pool: &SessionPool<'p>,
    client: &mut ClientSeat<'p>,
    other: &mut ClientSeat<'p>,
    worker: &mut WorkerSeat<'p>,
) -> Result<(), Fail>
    requires client { Rests pool.now client.old }
    requires other { Rests pool.now other.old }
    requires worker { RestsWorker pool.now worker.old }
{
    let mut receipt = registered(rt, alloc, pool, "s", RECORD)?;
    let mut again = receipt.again();
    let pass = pool.open(client, &mut receipt, &mut again)?;
    let full = Opened {
        sessions: SLOTS - 1,
        refusal: Some(OpenError::Full),
    };
    same(rt, open_all(pool, other, &mut receipt, SLOTS), full);
    assert!(rt; pool.abandon(client, pass).is_ok());
    let (writer, reader) = (&mut receipt, &mut again);
    let pass = fed(alloc, pool, client, writer, reader, RECORD_BYTES)?;
    let found = run_through(pool, client, worker, pass)?;
    same(rt, found.slot, 0);
    same(rt, found.output.as_slice(), RECORD_BYTES);
    Ok(())
}

#[test]
fn a_session_too_many_is_refused(rt: HostRuntime) -> Result<(), Fail> {
    let alloc = rt.alloc();
    let registry = SharedRegistry::new(alloc)?;
    let cache = ProgramCache::new(alloc, &registry)?;
    let Seated {
        pool,
        mut clients,
        mut workers,
    } = new_pool(alloc, &cache, 2, 1)?;
    let mut client = last_client(&rt, &pool, &mut clients);
    let mut other = last_client(&rt, &pool, &mut clients);
    let mut worker = last_worker(&rt, &pool, &mut workers);
    assert_full(&rt, alloc, &pool, &mut client, &mut other, &mut worker)
}
