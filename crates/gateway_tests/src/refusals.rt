//! Messages that find no slot, or whose gate says no.

ghost use Rattle.std.specs.Prelude.{◌≡◌, All};
ghost use Rattle.spec_registry.specs.Receipt.{IsReceiptOf};
ghost use Rattle.session_pool.specs.Seats.{IsNewClient, Rests};

use crate::asking::{Exchange, FULL, MESSAGE, MESSAGE_REWRITTEN, NOT_FINISHED, is_answered};
use crate::gates::Closed;
use crate::schemas::{RECORD, SWAPPED, are_both_registered, registered};
use crate::seats::last_client;
use crate::trials::{Question, Trial, succeeds};
use gateway::{App, Helping};
use schema_registry::Receipt;
use session_pool::{ClientSeat, OpenError, SLOTS, SessionPool};
use std::alloc::{AllocError, Global};
use std::process::Abort;
use std::sync::Wait;

/// How often a message is asked for whose gate says no: more often than there are slots.
const ASKED: usize = SLOTS + 44;

/// The message, and its answer where its gate says no.
const MESSAGE_NOT_FINISHED: Exchange<'static> = Exchange {
    request: MESSAGE,
    answer: NOT_FINISHED,
};

/// The message, and its answer where all slots are taken.
const MESSAGE_FULL: Exchange<'static> = Exchange {
    request: MESSAGE,
    answer: FULL,
};

/// Returns how many of `many` answers to a message whose gate says no report that.
fn refused<'p, R: Wait>(
    rt: &R,
    alloc: Global,
    app: &App<'_, 'p>,
    seat: &mut ClientSeat<'p>,
    many: usize,
) -> usize
    requires seat { Rests app.now.pool.now seat.old }
    ensures { Rests app.now.pool.now seat.new }
{
    let mut reports = 0_usize;
    for _ in 0..many {
        if is_answered(rt, alloc, app, seat, &mut Closed, MESSAGE_NOT_FINISHED) {
            reports = reports.wrapping_add(1);
        }
    }
    reports
}

/// Asks for a message whose gate says no, over and over, and then once more. Returns whether each answer is as wanted.
pub(crate) fn is_answered_after_refusals<'p, R: Wait + AllocGlobal>(
    rt: &R,
    app: &App<'_, 'p>,
    seat: &mut ClientSeat<'p>,
    gate: &mut Helping<'_, 'p>,
) -> bool
    requires seat { Rests app.now.pool.now seat.old }
{
    let alloc = rt.alloc();
    let mut right = are_both_registered(rt, alloc, app.registry);
    right &= refused(rt, alloc, app, seat, ASKED) == ASKED;
    right &= is_answered(rt, alloc, app, seat, gate, MESSAGE_REWRITTEN);
    right
}

#[test]
fn a_gate_that_says_no_leaves_the_slot_free(rt: HostRuntime) -> Result<(), AllocError> {
    assert!(rt; succeeds(&rt, 1, 1, Trial::Asked(Question::Refused))?);
    Ok(())
}

/// Opens sessions until none is left, and drops their passes. Returns whether there were exactly `many`.
fn takes_all<'p>(
    pool: &SessionPool<'p>,
    seat: &mut ClientSeat<'p>,
    receipt: &mut Receipt,
    many: usize,
) -> bool
    requires seat { Rests pool.now seat.old }
    requires receipt { IsReceiptOf pool.now.cache.now receipt.old }
    ensures seat { Rests pool.now seat.new }
    ensures receipt { receipt.new ≡ receipt.old }
{
    let mut again = receipt.again();
    for _ in 0..many {
        if pool.open(seat, receipt, &mut again).is_err() {
            return false;
        }
    }
    match pool.open(seat, receipt, &mut again) {
        Ok(_) => false,
        Err(error) => error == OpenError::Full,
    }
}

/// Takes one slot with a seat, and all others with another seat. Returns whether a message finds no slot then, and one
/// again once the first seat's session is abandoned.
fn frees_one<'p, R: Wait + Abort + AllocGlobal>(
    rt: &R,
    app: &App<'_, 'p>,
    seat: &mut ClientSeat<'p>,
    gate: &mut Helping<'_, 'p>,
    clients: &mut Vec<ClientSeat<'p>>,
    receipt: &mut Receipt,
) -> bool
    requires seat { Rests app.now.pool.now seat.old }
    requires clients { All (IsNewClient app.now.pool.now) clients.old.items }
    requires receipt { IsReceiptOf app.now.registry.now receipt.old }
{
    let alloc = rt.alloc();
    let pool = app.pool;
    let mut holder = last_client(rt, pool, clients);
    let mut others = last_client(rt, pool, clients);
    let mut again = receipt.again();
    match pool.open(&mut holder, receipt, &mut again) {
        Ok(pass) => {
            let mut right = takes_all(pool, &mut others, receipt, SLOTS - 1);
            right &= is_answered(rt, alloc, app, seat, gate, MESSAGE_FULL);
            right &= pool.abandon(&mut holder, pass).is_ok();
            right &= is_answered(rt, alloc, app, seat, gate, MESSAGE_REWRITTEN);
            right
        }
        Err(_) => false,
    }
}

/// Registers the two schemas of a message. Returns whether that finds no slot where all are taken, and one again where
/// one of them is free.
pub(crate) fn is_full_and_then_free<'p, R: Wait + Abort + AllocGlobal>(
    rt: &R,
    app: &App<'_, 'p>,
    seat: &mut ClientSeat<'p>,
    gate: &mut Helping<'_, 'p>,
    clients: &mut Vec<ClientSeat<'p>>,
) -> bool
    requires seat { Rests app.now.pool.now seat.old }
    requires clients { All (IsNewClient app.now.pool.now) clients.old.items }
{
    let alloc = rt.alloc();
    match registered(rt, alloc, app.registry, "s", RECORD) {
        Ok(mut receipt) => {
            let mut right = registered(rt, alloc, app.registry, "t", SWAPPED).is_ok();
            right &= frees_one(rt, app, seat, gate, clients, &mut receipt);
            right
        }
        Err(_) => false,
    }
}

#[test]
fn a_full_pool_is_told_and_serves_again(rt: HostRuntime) -> Result<(), AllocError> {
    assert!(rt; succeeds(&rt, 3, 1, Trial::Asked(Question::Full))?);
    Ok(())
}
