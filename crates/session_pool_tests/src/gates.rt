//! A session that a worker is held inside of.

ghost use Rattle.std.specs.Prelude.{IfSome};
ghost use Rattle.session_pool.specs.Seats.{IsPassOf, Rests, RestsWorker};

use crate::courses::output_of;
use crate::same::same;
use crate::schemas::{RECORD, RECORD_BYTES, registered};
use crate::seats::{Seated, last_client, last_worker, new_pool};
use crate::waiting::{MOST_TRIES, end_when_free, finished_in_time, is_set_within, send_when_free};
use program_cache::ProgramCache;
use schema_registry::SharedRegistry;
use session_pool::{
    Busy, ClientSeat, DebugCommand, DebugError, Finished, NotYet, Pass, PieceError, ReturnedPass,
    SessionPool, Turn, WorkerSeat,
};
use std::alloc::Global;
use std::process::Abort;
use std::sync::Wait;
use std::sync::atomic::{AtomicBool, Ordering};
use std::test::Fail;
use std::thread;
use std::thread::Threads;

/// How a worker and a client wait for one another.
#[derive(Drop)]
pub(crate) struct Gate {
    /// The worker is inside of the session.
    is_inside: AtomicBool,
    /// The worker may go on.
    may_go_on: AtomicBool,
    /// The client needs the worker no more.
    is_over: AtomicBool,
}

/// A worker that is held at the gate.
#[derive(Drop)]
struct Held<'a, 'p> {
    pool: &'a SessionPool<'p>,
    gate: &'a Gate,
    seat: WorkerSeat<'p>,
    ghost ready: { RestsWorker pool.now seat },
}

/// A client whose session the worker is inside of.
#[derive(Drop)]
struct Asking<'a, 'p> {
    alloc: Global,
    pool: &'a SessionPool<'p>,
    gate: &'a Gate,
    seat: ClientSeat<'p>,
    pass: Pass,
    ghost ready: { Rests pool.now seat },
}

/// Takes a turn that is held inside, and then turns until the client needs no more. Returns the first.
fn hold(held: Held) -> Turn {
    let Held {
        pool,
        gate,
        mut seat,
    } = held;
    let first = pool.turn_at(
        &mut seat,
        100,
        &mut |_slot: u32| {
            gate.is_inside.store(true, Ordering::SeqCst);
            let _may_go_on = is_set_within(&gate.may_go_on, MOST_TRIES);
        },
    );
    for _ in 0..MOST_TRIES {
        if gate.is_over.load(Ordering::SeqCst) {
            break;
        }
        if pool.turn(&mut seat, 100) == Turn::Idle {
            thread::yield_now();
        }
    }
    first
}

/// Returns the pass of a session that a worker is inside of, where each call of its client is refused as busy, and
/// hands all back.
fn refused_as_busy<'p>(
    alloc: Global,
    pool: &SessionPool<'p>,
    seat: &mut ClientSeat<'p>,
    pass: Pass,
) -> Option<Pass>
    requires seat { Rests pool.now seat.old }
    requires pass { IsPassOf seat.old pass }
    ensures seat { Rests pool.now seat.new }
    ensures pass { IfSome result (IsPassOf seat.new) }
{
    let Ok(piece) = Vec::from_slice(alloc, RECORD_BYTES) else {
        return None;
    };
    let Err(refused) = pool.piece(seat, &pass, piece) else {
        return None;
    };
    if refused.why != PieceError::Busy || refused.piece.as_slice() != RECORD_BYTES {
        return None;
    }
    if pool.end(seat, &pass) != Err(Busy) {
        return None;
    }
    if pool.debug(seat, &pass, DebugCommand::Show) != Err(DebugError::Busy) {
        return None;
    }
    let Err(
        ReturnedPass {
            why: NotYet::Busy,
            pass,
        },
    ) = pool.result(seat, pass)
    else {
        return None;
    };
    match pool.abandon(seat, pass) {
        Ok(()) => None,
        Err(refused) => Some(refused.pass),
    }
}

/// Returns what came of a session, where each call was refused as busy while the worker was inside, and the session
/// was fed after that.
fn asked_and_fed<'p>(
    alloc: Global,
    pool: &SessionPool<'p>,
    gate: &Gate,
    seat: &mut ClientSeat<'p>,
    pass: Pass,
) -> Option<Finished>
    requires seat { Rests pool.now seat.old }
    requires pass { IsPassOf seat.old pass }
{
    if !is_set_within(&gate.is_inside, MOST_TRIES) {
        return None;
    }
    let pass = refused_as_busy(alloc, pool, seat, pass)?;
    gate.may_go_on.store(true, Ordering::SeqCst);
    let Ok(piece) = Vec::from_slice(alloc, RECORD_BYTES) else {
        return None;
    };
    if send_when_free(pool, seat, &pass, piece).is_err() {
        return None;
    }
    if end_when_free(pool, seat, &pass).is_err() {
        return None;
    }
    match finished_in_time(pool, seat, pass) {
        Ok(finished) => Some(finished),
        Err(_) => None,
    }
}

/// Returns what `asked_and_fed` returns; after that the worker needs to wait for nothing more.
fn ask(asking: Asking) -> Option<Finished>
    requires { IsPassOf asking.seat asking.pass }
{
    let Asking {
        alloc,
        pool,
        gate,
        mut seat,
        pass,
    } = asking;
    let finished = asked_and_fed(alloc, pool, gate, &mut seat, pass);
    gate.may_go_on.store(true, Ordering::SeqCst);
    gate.is_over.store(true, Ordering::SeqCst);
    finished
}

/// The worker's first turn, and what came of the session.
#[derive(Drop)]
struct Met {
    turn: Turn,
    finished: Option<Finished>,
}

/// Runs the worker and the client at once.
fn meet<'a, 'p, R: Threads>(rt: &R, held: Held<'a, 'p>, asking: Asking<'a, 'p>) -> Met
    requires { IsPassOf asking.seat asking.pass }
{
    let (turn, finished) = thread::join(rt, || hold(held), || ask(asking));
    Met { turn, finished }
}

/// Asserts that a worker is held inside of a session, each call of whose client is refused as busy, and that both
/// then come to its end.
fn assert_met<'a, 'p, R: Threads + Wait + Abort>(
    rt: &R,
    alloc: Global,
    pool: &'a SessionPool<'p>,
    gate: &'a Gate,
    mut client: ClientSeat<'p>,
    worker: WorkerSeat<'p>,
) -> Result<(), Fail>
    requires client { Rests pool.now client }
    requires worker { RestsWorker pool.now worker }
{
    let mut receipt = registered(rt, alloc, pool, "s", RECORD)?;
    let mut again = receipt.again();
    let pass = pool.open(&mut client, &mut receipt, &mut again)?;
    let held = Held {
        pool,
        gate,
        seat: worker,
    };
    let asking = Asking {
        alloc,
        pool,
        gate,
        seat: client,
        pass,
    };
    let met = meet(rt, held, asking);
    same(rt, met.turn, Turn::Ran { slot: 0, rows: 3 });
    let finished = met.finished.ok_or("not refused as busy, or not answered")?;
    same(rt, finished.rows, 10);
    let output = output_of(finished.end)?;
    same(rt, output.as_slice(), RECORD_BYTES);
    Ok(())
}

#[test]
fn calls_are_busy_while_a_worker_is_inside(rt: HostRuntime) -> Result<(), Fail> {
    let alloc = rt.alloc();
    let registry = SharedRegistry::new(alloc)?;
    let cache = ProgramCache::new(alloc, &registry)?;
    let Seated {
        pool,
        mut clients,
        mut workers,
    } = new_pool(alloc, &cache, 1, 1)?;
    let client = last_client(&rt, &pool, &mut clients);
    let worker = last_worker(&rt, &pool, &mut workers);
    let gate = Gate {
        is_inside: AtomicBool::new(false),
        may_go_on: AtomicBool::new(false),
        is_over: AtomicBool::new(false),
    };
    assert_met(&rt, alloc, &pool, &gate, client, worker)
}
