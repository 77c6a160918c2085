//! Calls that are made again while a worker has the session, and flags that are waited for.

ghost use Rattle.session_pool.specs.Seats.{IsPassOf, Rests};

use session_pool::{
    Busy, ClientSeat, Finished, NotYet, Pass, PieceError, ReturnedPass, ReturnedPiece, SessionPool,
};
use std::sync::atomic::{AtomicBool, Ordering};
use std::thread;

/// How often a call is made, or a flag looked at, at most.
pub(crate) const MOST_TRIES: u32 = 10_000_000;

/// Returns whether a flag is set within `looks` looks.
pub(crate) fn is_set_within(flag: &AtomicBool, looks: u32) -> bool {
    for _ in 0..looks {
        if flag.load(Ordering::SeqCst) {
            return true;
        }
        thread::yield_now();
    }
    false
}

/// Sends a piece once no worker has the session.
pub(crate) fn send_when_free<'p>(
    pool: &SessionPool<'p>,
    seat: &mut ClientSeat<'p>,
    pass: &Pass,
    mut piece: Vec<u8>,
) -> Result<(), PieceError>
    requires seat { Rests pool.now seat.old }
    requires pass { IsPassOf seat.old pass.now }
    ensures seat { Rests pool.now seat.new }
    ensures pass { IsPassOf seat.new pass.now }
{
    for _ in 0..MOST_TRIES {
        match pool.piece(seat, pass, piece) {
            Ok(()) => return Ok(()),
            Err(
                ReturnedPiece {
                    why: PieceError::Busy,
                    piece: back,
                },
            ) => piece = back,
            Err(refused) => return Err(refused.why),
        }
        thread::yield_now();
    }
    Err(PieceError::Busy)
}

/// Ends a session's payload once no worker has the session.
pub(crate) fn end_when_free<'p>(
    pool: &SessionPool<'p>,
    seat: &mut ClientSeat<'p>,
    pass: &Pass,
) -> Result<(), Busy>
    requires seat { Rests pool.now seat.old }
    requires pass { IsPassOf seat.old pass.now }
    ensures seat { Rests pool.now seat.new }
    ensures pass { IsPassOf seat.new pass.now }
{
    for _ in 0..MOST_TRIES {
        if pool.end(seat, pass).is_ok() {
            return Ok(());
        }
        thread::yield_now();
    }
    Err(Busy)
}

/// Returns what a session comes to, once it has.
pub(crate) fn finished_in_time<'p>(
    pool: &SessionPool<'p>,
    seat: &mut ClientSeat<'p>,
    mut pass: Pass,
) -> Result<Finished, NotYet>
    requires seat { Rests pool.now seat.old }
    requires pass { IsPassOf seat.old pass }
    ensures seat { Rests pool.now seat.new }
{
    for _ in 0..MOST_TRIES {
        match pool.result(seat, pass) {
            Ok(finished) => return Ok(finished),
            Err(ReturnedPass { pass: back, .. }) => pass = back,
        }
        thread::yield_now();
    }
    Err(NotYet::Pending)
}
