//! A session on the message, to its end.

ghost use Rattle.std.specs.Prelude.{◌≡◌, IfSome};
ghost use Rattle.spec_registry.specs.Receipt.{IsReceiptOf};
ghost use Rattle.session_pool.specs.Seats.{IsPassOf, Rests};

use crate::message::{MESSAGE, OUTPUT};
use crate::waiting::{end_when_free, send_when_free};
use avro_bytes::Outcome;
use schema_registry::Receipt;
use session_pool::{ClientSeat, Pass, SessionEnd, SessionPool};
use std::alloc::Global;

/// How many rows a worker takes of a session in a turn at most: more than the message needs.
pub(crate) const MOST_ROWS: u64 = 1_000_000;

/// Opens a session, and sends it the message as one piece, which is the last. `None` where the pool refuses it.
pub(crate) fn fed<'p>(
    alloc: Global,
    pool: &SessionPool<'p>,
    seat: &mut ClientSeat<'p>,
    writer: &mut Receipt,
    reader: &mut Receipt,
) -> Option<Pass>
    requires seat { Rests pool.now seat.old }
    requires writer { IsReceiptOf pool.now.cache.now writer.old }
    requires reader { IsReceiptOf pool.now.cache.now reader.old }
    ensures seat { Rests pool.now seat.new }
    ensures receipts { (writer.new ≡ writer.old) × (reader.new ≡ reader.old) }
    ensures pass { IfSome result (IsPassOf seat.new) }
{
    let Ok(piece) = Vec::from_slice(alloc, MESSAGE) else {
        return None;
    };
    let Ok(pass) = pool.open(seat, writer, reader) else {
        return None;
    };
    if send_when_free(pool, seat, &pass, piece).is_err() {
        return None;
    }
    if end_when_free(pool, seat, &pass).is_err() {
        return None;
    }
    Some(pass)
}

/// Returns whether a session ended with the output of the message.
pub(crate) fn is_right(end: &SessionEnd) -> bool {
    match end {
        SessionEnd::Out(Outcome::Done(output)) => output.as_slice() == OUTPUT,
        _ => false,
    }
}
