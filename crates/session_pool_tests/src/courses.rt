//! Sessions from their beginning to their end.

ghost use Rattle.std.specs.Prelude.{◌≡◌, IfOk};
ghost use Rattle.spec_registry.specs.Receipt.{IsReceiptOf};
ghost use Rattle.session_pool.specs.Seats.{IsPassOf, Rests, RestsWorker};

use crate::same::same;
use avro_bytes::Outcome;
use schema_registry::Receipt;
use session_pool::{
    ClientSeat, Finished, NotYet, Pass, PieceError, ReturnedPass, SessionEnd, SessionPool, Turn,
    WorkerSeat,
};
use std::alloc::Global;
use std::process::Abort;
use std::test::Fail;

/// What a session came to, and in which slot.
#[derive(Debug, Drop)]
pub(crate) struct Course {
    pub(crate) slot: u32,
    pub(crate) output: Vec<u8>,
    pub(crate) rows: u64,
}

/// Sends a piece to a session.
pub(crate) fn send<'p>(
    alloc: Global,
    pool: &SessionPool<'p>,
    seat: &mut ClientSeat<'p>,
    pass: &Pass,
    bytes: &[u8],
) -> Result<(), PieceError>
    requires seat { Rests pool.now seat.old }
    requires pass { IsPassOf seat.old pass.now }
    ensures seat { Rests pool.now seat.new }
    ensures pass { IsPassOf seat.new pass.now }
{
    let Ok(piece) = Vec::from_slice(alloc, bytes) else {
        return Err(PieceError::NoMemory);
    };
    match pool.piece(seat, pass, piece) {
        Ok(()) => Ok(()),
        Err(refused) => Err(refused.why),
    }
}

/// Sends a last piece to a session, and ends its payload.
pub(crate) fn send_last<'p>(
    alloc: Global,
    pool: &SessionPool<'p>,
    seat: &mut ClientSeat<'p>,
    pass: &Pass,
    bytes: &[u8],
) -> Result<(), PieceError>
    requires seat { Rests pool.now seat.old }
    requires pass { IsPassOf seat.old pass.now }
    ensures seat { Rests pool.now seat.new }
    ensures pass { IsPassOf seat.new pass.now }
{
    let sent = send(alloc, pool, seat, pass, bytes);
    match pool.end(seat, pass) {
        Ok(()) => sent,
        Err(_) => Err(PieceError::Busy),
    }
}

/// Returns the output of a session that is done; another end is an error.
pub(crate) fn output_of(end: SessionEnd) -> Result<Vec<u8>, SessionEnd> {
    match end {
        SessionEnd::Out(Outcome::Done(output)) => Ok(output),
        other => Err(other),
    }
}

/// Returns the pass of a session whose end is not there yet, which `result` hands back as pending. What came of a
/// session that has ended is an error.
pub(crate) fn pending<'p>(
    rt: &impl Abort,
    pool: &SessionPool<'p>,
    seat: &mut ClientSeat<'p>,
    pass: Pass,
) -> Result<Pass, Finished>
    requires seat { Rests pool.now seat.old }
    requires pass { IsPassOf seat.old pass }
    ensures seat { Rests pool.now seat.new }
    ensures pass { IfOk result (IsPassOf seat.new) }
{
    match pool.result(seat, pass) {
        Ok(finished) => Err(finished),
        Err(ReturnedPass { why, pass }) => {
            same(rt, why, NotYet::Pending);
            Ok(pass)
        }
    }
}

/// Returns what came of a session that has ended.
pub(crate) fn finished<'p>(
    pool: &SessionPool<'p>,
    seat: &mut ClientSeat<'p>,
    pass: Pass,
) -> Result<Finished, NotYet>
    requires seat { Rests pool.now seat.old }
    requires pass { IsPassOf seat.old pass }
    ensures seat { Rests pool.now seat.new }
{
    match pool.result(seat, pass) {
        Ok(finished) => Ok(finished),
        Err(refused) => Err(refused.why),
    }
}

/// Returns a pass of a new session, which has a whole payload.
pub(crate) fn fed<'p>(
    alloc: Global,
    pool: &SessionPool<'p>,
    seat: &mut ClientSeat<'p>,
    writer: &mut Receipt,
    reader: &mut Receipt,
    payload: &[u8],
) -> Result<Pass, Fail>
    requires seat { Rests pool.now seat.old }
    requires writer { IsReceiptOf pool.now.cache.now writer.old }
    requires reader { IsReceiptOf pool.now.cache.now reader.old }
    ensures seat { Rests pool.now seat.new }
    ensures receipts { (writer.new ≡ writer.old) × (reader.new ≡ reader.old) }
    ensures pass { IfOk result (IsPassOf seat.new) }
{
    let pass = pool.open(seat, writer, reader)?;
    send_last(alloc, pool, seat, &pass, payload)?;
    Ok(pass)
}

/// Returns what a session came to that has ended.
pub(crate) fn course_of<'p>(
    pool: &SessionPool<'p>,
    seat: &mut ClientSeat<'p>,
    pass: Pass,
) -> Result<Course, Fail>
    requires seat { Rests pool.now seat.old }
    requires pass { IsPassOf seat.old pass }
    ensures seat { Rests pool.now seat.new }
{
    let slot = pass.slot();
    let finished = finished(pool, seat, pass)?;
    Ok(Course {
        slot,
        output: output_of(finished.end)?,
        rows: finished.rows,
    })
}

/// The last turn of a worker in a session, and what it came to.
#[derive(Drop)]
pub(crate) struct Ending {
    pub(crate) turn: Turn,
    pub(crate) course: Course,
}

/// Takes a turn of the worker that is the last one in a session.
pub(crate) fn turn_to_end<'p>(
    pool: &SessionPool<'p>,
    client: &mut ClientSeat<'p>,
    worker: &mut WorkerSeat<'p>,
    pass: Pass,
) -> Result<Ending, Fail>
    requires client { Rests pool.now client.old }
    requires worker { RestsWorker pool.now worker.old }
    requires pass { IsPassOf client.old pass }
    ensures client { Rests pool.now client.new }
    ensures worker { RestsWorker pool.now worker.new }
{
    let turn = pool.turn(worker, 100);
    let course = course_of(pool, client, pass)?;
    Ok(Ending { turn, course })
}

/// Asserts that the session came to this output after this number of rows, in the first slot.
pub(crate) fn assert_course(rt: &impl Abort, course: &Course, output: &[u8], rows: u64) {
    same(rt, course.slot, 0);
    same(rt, course.output.as_slice(), output);
    same(rt, course.rows, rows);
}

/// Runs a session that has its whole payload to its end, in one turn.
pub(crate) fn run_through<'p>(
    pool: &SessionPool<'p>,
    client: &mut ClientSeat<'p>,
    worker: &mut WorkerSeat<'p>,
    pass: Pass,
) -> Result<Course, Fail>
    requires client { Rests pool.now client.old }
    requires worker { RestsWorker pool.now worker.old }
    requires pass { IsPassOf client.old pass }
    ensures client { Rests pool.now client.new }
    ensures worker { RestsWorker pool.now worker.new }
{
    let _turn = pool.turn(worker, 1_000_000);
    course_of(pool, client, pass)
}
