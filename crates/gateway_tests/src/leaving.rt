//! A worker whose gate says no inside a turn.

ghost use Rattle.std.specs.Prelude.{All};
ghost use Rattle.session_pool.specs.Seats.{IsNewClient, IsNewWorker, Rests, RestsWorker};

use crate::gates::ClosedInside;
use crate::schemas::list_registered;
use crate::seats::{last_client, last_worker};
use crate::trials::{Trial, succeeds};
use crate::waiting::list_sent;
use gateway::work;
use session_pool::{ClientSeat, SessionPool, Turn, WorkerSeat};
use std::alloc::AllocError;
use std::process::Abort;
use std::sync::Wait;

/// How many rows are left of the 20 of a session on the list of 1 and 2, once one was taken.
const ROWS_LEFT: u32 = 19;

/// How many turns are taken at most.
const MOST_TURNS: u32 = 100;

/// A gate that was asked for no turn yet.
const NEVER: ClosedInside = ClosedInside {
    turns: 0,
    insides: 0,
};

/// A gate that was asked for one turn, and once inside of it.
const ONCE: ClosedInside = ClosedInside {
    turns: 1,
    insides: 1,
};

/// Returns how many turns of one row find a session that is ready, one after another.
fn turns_left<'p>(pool: &SessionPool<'p>, seat: &mut WorkerSeat<'p>) -> u32
    requires { RestsWorker pool.now seat.old }
    ensures { RestsWorker pool.now seat.new }
{
    for turns in 0..MOST_TURNS {
        match pool.turn(seat, 1) {
            Turn::Ran { .. } => {}
            Turn::Idle => return turns,
        }
    }
    MOST_TURNS
}

/// Returns whether a client opens a session on the list of 1 and 2, and sends all of it.
fn is_sent<'p, R: Wait + AllocGlobal>(
    rt: &R,
    pool: &SessionPool<'p>,
    seat: &mut ClientSeat<'p>,
) -> bool
    requires { Rests pool.now seat.old }
{
    match list_registered(rt, rt.alloc(), pool) {
        Ok(mut receipt) => list_sent(rt.alloc(), pool, seat, &mut receipt).is_some(),
        Err(_) => false,
    }
}

/// Returns whether a worker with a session that is ready ends after the turn in which its gate says no.
fn ends_inside<'p, R: Wait>(rt: &R, pool: &SessionPool<'p>, worker: &mut WorkerSeat<'p>) -> bool
    requires { RestsWorker pool.now worker.old }
{
    let mut gate = NEVER;
    work(rt, pool, worker, 1, &mut gate);
    let mut right = gate == ONCE;
    right &= turns_left(pool, worker) == ROWS_LEFT;
    right
}

/// Returns whether a worker ends after the turn in which its gate says no, once a client has sent a list.
pub(crate) fn ends_after_one_turn<'p, R: Wait + Abort + AllocGlobal>(
    rt: &R,
    pool: &SessionPool<'p>,
    clients: &mut Vec<ClientSeat<'p>>,
    workers: &mut Vec<WorkerSeat<'p>>,
) -> bool
    requires clients { All (IsNewClient pool.now) clients.old.items }
    requires workers { All (IsNewWorker pool.now) workers.old.items }
{
    let mut seat = last_client(rt, pool, clients);
    let mut worker = last_worker(rt, pool, workers);
    is_sent(rt, pool, &mut seat) && ends_inside(rt, pool, &mut worker)
}

#[test]
fn work_ends_after_the_turn_in_which_its_gate_says_no(rt: HostRuntime) -> Result<(), AllocError> {
    assert!(rt; succeeds(&rt, 1, 1, Trial::Leaving)?);
    Ok(())
}
