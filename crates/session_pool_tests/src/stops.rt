//! A worker's turn that meets a breakpoint.

ghost use Rattle.session_pool.specs.Seats.{IsPassOf, Rests, RestsWorker};

use crate::courses::{Course, Ending, assert_course, fed, pending, turn_to_end};
use crate::same::same;
use crate::schemas::{RECORD, RECORD_BYTES, registered};
use crate::trials::{Trial, try_in_new_pool};
use session_pool::{ClientSeat, DebugCommand, DebugReply, Pass, SessionPool, Turn, WorkerSeat};
use std::alloc::Global;
use std::process::Abort;
use std::sync::Wait;
use std::test::Fail;

/// Asks a debugger's command. Returns whether it is done.
fn is_done<'p>(
    pool: &SessionPool<'p>,
    seat: &mut ClientSeat<'p>,
    pass: &Pass,
    command: DebugCommand,
) -> bool
    requires seat { Rests pool.now seat.old }
    requires pass { IsPassOf seat.old pass.now }
    ensures seat { Rests pool.now seat.new }
    ensures pass { IsPassOf seat.new pass.now }
{
    match pool.debug(seat, pass, command) {
        Ok(DebugReply::Done) => true,
        _ => false,
    }
}

/// A session that stopped at a breakpoint: whether this was set and cleared, the turns of the worker, and what the
/// session came to.
#[derive(Drop)]
struct Stopped {
    is_set: bool,
    is_cleared: bool,
    turns: [Turn; 3],
    course: Course,
}

/// The turns: to the breakpoint, at it, and once it is cleared.
const TURNS: [Turn; 3] = [
    Turn::Ran { slot: 0, rows: 4 },
    Turn::Idle,
    Turn::Ran { slot: 0, rows: 6 },
];

/// Runs a session that stops at a breakpoint, which is then cleared.
fn stop_and_go_on<'p>(
    rt: &impl Abort,
    pool: &SessionPool<'p>,
    client: &mut ClientSeat<'p>,
    worker: &mut WorkerSeat<'p>,
    pass: Pass,
) -> Result<Stopped, Fail>
    requires client { Rests pool.now client.old }
    requires worker { RestsWorker pool.now worker.old }
    requires pass { IsPassOf client.old pass }
{
    let is_set = is_done(pool, client, &pass, DebugCommand::Set(5));
    let first = pool.turn(worker, 100);
    let second = pool.turn(worker, 100);
    let pass = pending(rt, pool, client, pass)?;
    let is_cleared = is_done(pool, client, &pass, DebugCommand::Clear(5));
    let Ending { turn, course } = turn_to_end(pool, client, worker, pass)?;
    Ok(Stopped {
        is_set,
        is_cleared,
        turns: [first, second, turn],
        course,
    })
}

/// Asserts that a turn stops at a breakpoint, at which no further turn goes on; once it is cleared a turn takes the
/// rest.
pub(crate) fn assert_stopped<'p, R: Wait + Abort>(
    rt: &R,
    alloc: Global,
    pool: &SessionPool<'p>,
    client: &mut ClientSeat<'p>,
    worker: &mut WorkerSeat<'p>,
) -> Result<(), Fail>
    requires client { Rests pool.now client.old }
    requires worker { RestsWorker pool.now worker.old }
{
    let mut receipt = registered(rt, alloc, pool, "s", RECORD)?;
    let mut again = receipt.again();
    let pass = fed(alloc, pool, client, &mut receipt, &mut again, RECORD_BYTES)?;
    let stopped = stop_and_go_on(rt, pool, client, worker, pass)?;
    same(rt, (stopped.is_set, stopped.is_cleared), (true, true));
    same(rt, stopped.turns.as_slice(), TURNS.as_slice());
    assert_course(rt, &stopped.course, RECORD_BYTES, 10);
    Ok(())
}

#[test]
fn a_turn_stops_at_a_breakpoint(rt: HostRuntime) -> Result<(), Fail> {
    try_in_new_pool(&rt, Trial::Stopping)
}
