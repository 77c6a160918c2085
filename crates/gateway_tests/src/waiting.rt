//! Calls that are made again while a worker has the session.

ghost use Rattle.std.specs.Prelude.{IfSome};
ghost use Rattle.spec_registry.specs.Receipt.{IsReceiptOf};
ghost use Rattle.session_pool.specs.Seats.{IsPassOf, Rests};

use crate::schemas::LIST_BYTES;
use schema_registry::Receipt;
use session_pool::{ClientSeat, Finished, Pass, ReturnedPass, SessionPool};
use std::alloc::Global;
use std::thread;

/// How often a call is made at most.
const MOST_TRIES: u32 = 10_000_000;

/// Sends a piece once no worker has the session. Returns whether it was sent.
pub(crate) fn send_when_free<'p>(
    pool: &SessionPool<'p>,
    seat: &mut ClientSeat<'p>,
    pass: &Pass,
    mut piece: Vec<u8>,
) -> bool
    requires seat { Rests pool.now seat.old }
    requires pass { IsPassOf seat.old pass.now }
    ensures seat { Rests pool.now seat.new }
    ensures pass { IsPassOf seat.new pass.now }
{
    for _ in 0..MOST_TRIES {
        match pool.piece(seat, pass, piece) {
            Ok(()) => return true,
            Err(back) => piece = back.piece,
        }
        thread::yield_now();
    }
    false
}

/// Ends a session's payload once no worker has the session. Returns whether it was ended.
pub(crate) fn end_when_free<'p>(
    pool: &SessionPool<'p>,
    seat: &mut ClientSeat<'p>,
    pass: &Pass,
) -> bool
    requires seat { Rests pool.now seat.old }
    requires pass { IsPassOf seat.old pass.now }
    ensures seat { Rests pool.now seat.new }
    ensures pass { IsPassOf seat.new pass.now }
{
    for _ in 0..MOST_TRIES {
        if pool.end(seat, pass).is_ok() {
            return true;
        }
        thread::yield_now();
    }
    false
}

/// Opens a session from the schema of lists to itself, and sends it the list of 1 and 2. Returns its pass; `None` where
/// it is not opened, or not all of the list is sent in time.
pub(crate) fn list_sent<'p>(
    alloc: Global,
    pool: &SessionPool<'p>,
    seat: &mut ClientSeat<'p>,
    receipt: &mut Receipt,
) -> Option<Pass>
    requires seat { Rests pool.now seat.old }
    requires receipt { IsReceiptOf pool.now.cache.now receipt.old }
    ensures seat { Rests pool.now seat.new }
    ensures pass { IfSome result (IsPassOf seat.new) }
{
    let mut again = receipt.again();
    let payload = LIST_BYTES.to_vec(alloc).ok()?;
    let pass = pool.open(seat, receipt, &mut again).ok()?;
    if !send_when_free(pool, seat, &pass, payload) || !end_when_free(pool, seat, &pass) {
        return None;
    }
    Some(pass)
}

/// Returns what a session comes to, once it has.
pub(crate) fn finished_in_time<'p>(
    pool: &SessionPool<'p>,
    seat: &mut ClientSeat<'p>,
    mut pass: Pass,
) -> Option<Finished>
    requires seat { Rests pool.now seat.old }
    requires pass { IsPassOf seat.old pass }
    ensures seat { Rests pool.now seat.new }
{
    for _ in 0..MOST_TRIES {
        match pool.result(seat, pass) {
            Ok(finished) => return Some(finished),
            Err(ReturnedPass { pass: back, .. }) => pass = back,
        }
        thread::yield_now();
    }
    None
}
