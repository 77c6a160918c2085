//! One client and one worker.

ghost use Rattle.std.specs.Prelude.{◌≡◌, IfOk};
ghost use Rattle.spec_registry.specs.Receipt.{IsReceiptOf};
ghost use Rattle.session_pool.specs.Seats.{IsPassOf, Rests, RestsWorker};

use crate::courses::{
    Ending, assert_course, fed, pending, run_through, send, send_last, turn_to_end,
};
use crate::replies::answers;
use crate::same::same;
use crate::schemas::{RECORD, RECORD_BYTES, SWAPPED, SWAPPED_BYTES, longs, registered};
use crate::trials::{Trial, try_in_new_pool};
use avro_bytes::MOST_PAYLOAD;
use schema_registry::Receipt;
use session_pool::{
    ClientSeat, DebugCommand, DebugError, Pass, PieceError, SessionPool, Turn, WorkerSeat,
};
use std::alloc::Global;
use std::process::Abort;
use std::sync::Wait;
use std::test::Fail;

/// The turns: before the first piece, once more, after it, and after the end.
const TURNS: [Turn; 4] = [
    Turn::Ran { slot: 0, rows: 3 },
    Turn::Idle,
    Turn::Ran { slot: 0, rows: 2 },
    Turn::Ran { slot: 0, rows: 5 },
];

/// Returns the first error of two pieces that were sent one after another.
fn both(first: Result<(), PieceError>, second: Result<(), PieceError>) -> Result<(), PieceError> {
    match first {
        Ok(()) => second,
        Err(error) => Err(error),
    }
}

/// Feeds a session piece by piece, with a turn of the worker after each. Asserts what these turns are, and what the
/// session comes to.
fn feed<'p>(
    rt: &impl Abort,
    alloc: Global,
    pool: &SessionPool<'p>,
    client: &mut ClientSeat<'p>,
    worker: &mut WorkerSeat<'p>,
    pass: Pass,
) -> Result<(), Fail>
    requires client { Rests pool.now client.old }
    requires worker { RestsWorker pool.now worker.old }
    requires pass { IsPassOf client.old pass }
    ensures client { Rests pool.now client.new }
    ensures worker { RestsWorker pool.now worker.new }
{
    let before = pool.turn(worker, 100);
    let idle = pool.turn(worker, 100);
    let begun = send(alloc, pool, client, &pass, &[0x36]);
    let after = pool.turn(worker, 100);
    let sent = send_last(alloc, pool, client, &pass, &[0x06, 0x66, 0x6f, 0x6f]);
    both(begun, sent)?;
    let pass = pending(rt, pool, client, pass)?;
    let ending = turn_to_end(pool, client, worker, pass)?;
    let turns = [before, idle, after, ending.turn];
    same(rt, turns.as_slice(), TURNS.as_slice());
    assert_course(rt, &ending.course, RECORD_BYTES, 10);
    Ok(())
}

/// Opens a session of a schema with itself, and feeds it.
fn open_and_feed<'p>(
    rt: &impl Abort,
    alloc: Global,
    pool: &SessionPool<'p>,
    client: &mut ClientSeat<'p>,
    worker: &mut WorkerSeat<'p>,
    receipt: &mut Receipt,
) -> Result<(), Fail>
    requires client { Rests pool.now client.old }
    requires worker { RestsWorker pool.now worker.old }
    requires receipt { IsReceiptOf pool.now.cache.now receipt.old }
    ensures client { Rests pool.now client.new }
    ensures worker { RestsWorker pool.now worker.new }
    ensures receipt { receipt.new ≡ receipt.old }
{
    let mut again = receipt.again();
    let pass = pool.open(client, receipt, &mut again)?;
    feed(rt, alloc, pool, client, worker, pass)
}

/// Asserts what a debugger was answered to `COMMANDS`, and what the session came to after that.
fn assert_answers(rt: &impl Abort, answers: &str, ending: &Ending) {
    same(rt, answers, ANSWERS);
    same(rt, ending.turn, Turn::Ran { slot: 0, rows: 4 });
    assert_course(rt, &ending.course, RECORD_BYTES, 10);
}

/// Sends a whole payload, asks `COMMANDS`, and ends the payload. Returns the answers.
fn answered_before_end<'p>(
    alloc: Global,
    pool: &SessionPool<'p>,
    client: &mut ClientSeat<'p>,
    pass: &Pass,
) -> Result<String, Fail>
    requires client { Rests pool.now client.old }
    requires pass { IsPassOf client.old pass.now }
    ensures client { Rests pool.now client.new }
    ensures pass { IsPassOf client.new pass.now }
{
    send(alloc, pool, client, pass, RECORD_BYTES)?;
    let answers = answers(alloc, pool, client, pass, COMMANDS);
    pool.end(client, pass)?;
    Ok(answers?)
}

/// Asserts that a session in the first slot, which was used before, answers a debugger while more of its payload may
/// come, and then comes to its output.
fn debug_before_end<'p>(
    rt: &impl Abort,
    alloc: Global,
    pool: &SessionPool<'p>,
    client: &mut ClientSeat<'p>,
    worker: &mut WorkerSeat<'p>,
    receipt: &mut Receipt,
) -> Result<(), Fail>
    requires client { Rests pool.now client.old }
    requires worker { RestsWorker pool.now worker.old }
    requires receipt { IsReceiptOf pool.now.cache.now receipt.old }
    ensures client { Rests pool.now client.new }
    ensures worker { RestsWorker pool.now worker.new }
    ensures receipt { receipt.new ≡ receipt.old }
{
    let mut again = receipt.again();
    let pass = pool.open(client, receipt, &mut again)?;
    let answers = answered_before_end(alloc, pool, client, &pass)?;
    let ending = turn_to_end(pool, client, worker, pass)?;
    assert_answers(rt, answers.as_str(), &ending);
    Ok(())
}

/// Asserts that a session that is fed piece by piece comes to its output, and so do the next two in its slot.
pub(crate) fn assert_fed<'p, R: Wait + Abort>(
    rt: &R,
    alloc: Global,
    pool: &SessionPool<'p>,
    client: &mut ClientSeat<'p>,
    worker: &mut WorkerSeat<'p>,
) -> Result<(), Fail>
    requires client { Rests pool.now client.old }
    requires worker { RestsWorker pool.now worker.old }
{
    let mut receipt = registered(rt, alloc, pool, "s", RECORD)?;
    let mut swapped = registered(rt, alloc, pool, "t", SWAPPED)?;
    open_and_feed(rt, alloc, pool, client, worker, &mut receipt)?;
    debug_before_end(rt, alloc, pool, client, worker, &mut receipt)?;
    let (writer, reader) = (&mut receipt, &mut swapped);
    let pass = fed(alloc, pool, client, writer, reader, RECORD_BYTES)?;
    let next = run_through(pool, client, worker, pass)?;
    assert_course(rt, &next, SWAPPED_BYTES, 10);
    Ok(())
}

#[test]
fn a_session_is_fed_piece_by_piece(rt: HostRuntime) -> Result<(), Fail> {
    try_in_new_pool(&rt, Trial::Feeding)
}

/// What a debugger asks.
const COMMANDS: &[DebugCommand] = &[
    DebugCommand::Set(9999),
    DebugCommand::Clear(9999),
    DebugCommand::Set(5),
    DebugCommand::Go(100),
    DebugCommand::Show,
    DebugCommand::Clear(5),
    DebugCommand::Step(2),
    DebugCommand::Show,
    DebugCommand::List,
];

/// What it is answered.
const ANSWERS: &str = "\
refused BadAddress
refused BadAddress
done
rows 4
count 4 pc 5 pos 1 units 1 part - mark - over 0 state running
out -
call 1
rec 0 36 -
done
rows 2
count 6 pc 6 pos 2 units 1 part 3 2 mark - over 0 state running
out -
call 1
rec 1 36 06
avro program 1
0 CALL 2
1 HALT
2 RECORD 2
3 SLOT 0
4 LONG
5 SLOT 1
6 TEXT
7 ENDREC
8 RET
";

/// Asserts what a debugger is answered while a session runs on a whole payload, which then comes to its output.
pub(crate) fn assert_debugged<'p, R: Wait + Abort>(
    rt: &R,
    alloc: Global,
    pool: &SessionPool<'p>,
    client: &mut ClientSeat<'p>,
    worker: &mut WorkerSeat<'p>,
) -> Result<(), Fail>
    requires client { Rests pool.now client.old }
    requires worker { RestsWorker pool.now worker.old }
{
    let mut receipt = registered(rt, alloc, pool, "s", RECORD)?;
    let mut again = receipt.again();
    let pass = fed(alloc, pool, client, &mut receipt, &mut again, RECORD_BYTES)?;
    let answers = answers(alloc, pool, client, &pass, COMMANDS)?;
    let ending = turn_to_end(pool, client, worker, pass)?;
    assert_answers(rt, answers.as_str(), &ending);
    Ok(())
}

#[test]
fn a_debugger_is_answered(rt: HostRuntime) -> Result<(), Fail> {
    try_in_new_pool(&rt, Trial::Debugging)
}

/// How many addresses from 0 on are set as breakpoints before one is refused, and why.
#[derive(Clone, Copy, Debug, PartialEq, Eq)]
struct BreaksSet {
    set: u32,
    refusal: Option<DebugError>,
}

/// Sets breakpoints from address 0 on until one is refused, at most `most`.
fn set_breaks<'p>(
    pool: &SessionPool<'p>,
    seat: &mut ClientSeat<'p>,
    pass: &Pass,
    most: u32,
) -> BreaksSet
    requires seat { Rests pool.now seat.old }
    requires pass { IsPassOf seat.old pass.now }
    ensures seat { Rests pool.now seat.new }
    ensures pass { IsPassOf seat.new pass.now }
{
    for address in 0..most {
        if let Err(error) = pool.debug(seat, pass, DebugCommand::Set(address)) {
            return BreaksSet {
                set: address,
                refusal: Some(error),
            };
        }
    }
    BreaksSet {
        set: most,
        refusal: None,
    }
}

/// What is set then: the last one again, and, once it is cleared, one at a further address. A run stops at the first.
const FURTHER_BREAKS: &[DebugCommand] = &[
    DebugCommand::Set(63),
    DebugCommand::Clear(63),
    DebugCommand::Set(64),
    DebugCommand::Go(9),
];

/// What is answered to that.
const FURTHER_ANSWERS: &str = "\
done
done
done
rows 1
";

/// Registers a schema, and opens a session of it with itself.
fn opened<'p, R: Wait>(
    rt: &R,
    alloc: Global,
    pool: &SessionPool<'p>,
    seat: &mut ClientSeat<'p>,
    text: &str,
) -> Result<Pass, Fail>
    requires { Rests pool.now seat.old }
    ensures seat { Rests pool.now seat.new }
    ensures pass { IfOk result (IsPassOf seat.new) }
{
    let mut receipt = registered(rt, alloc, pool, "s", text)?;
    let mut again = receipt.again();
    Ok(pool.open(seat, &mut receipt, &mut again)?)
}

/// Asserts that one breakpoint too many is refused, and the others stay: one of them is set again, and one is cleared
/// for the new one.
pub(crate) fn assert_breaks<'p, R: Wait + Abort>(
    rt: &R,
    alloc: Global,
    pool: &SessionPool<'p>,
    seat: &mut ClientSeat<'p>,
) -> Result<(), Fail>
    requires { Rests pool.now seat.old }
{
    let text = longs(alloc, 40)?;
    let pass = opened(rt, alloc, pool, seat, &text)?;
    let found = set_breaks(pool, seat, &pass, 65);
    let further = answers(alloc, pool, seat, &pass, FURTHER_BREAKS)?;
    let wanted = BreaksSet {
        set: 64,
        refusal: Some(DebugError::TooManyBreaks),
    };
    same(rt, found, wanted);
    same(rt, further.as_str(), FURTHER_ANSWERS);
    Ok(())
}

#[test]
fn a_breakpoint_too_many_is_refused(rt: HostRuntime) -> Result<(), Fail> {
    try_in_new_pool(&rt, Trial::Breaks)
}

/// Asserts that a piece is refused so, and as many bytes are handed back.
fn assert_refused<'p>(
    rt: &impl Abort,
    pool: &SessionPool<'p>,
    seat: &mut ClientSeat<'p>,
    pass: &Pass,
    piece: Vec<u8>,
    why: PieceError,
)
    requires seat { Rests pool.now seat.old }
    requires pass { IsPassOf seat.old pass.now }
    ensures seat { Rests pool.now seat.new }
    ensures pass { IsPassOf seat.new pass.now }
{
    let bytes = piece.len();
    match pool.piece(seat, pass, piece) {
        Ok(()) => panic!(rt; "a piece was taken"),
        Err(refused) => {
            same(rt, refused.why, why);
            same(rt, refused.piece.len(), bytes);
        }
    }
}

/// Sends a payload and ends it, where a piece is refused that is too large, and one that comes after the end.
fn send_beside_refused<'p>(
    rt: &impl Abort,
    alloc: Global,
    pool: &SessionPool<'p>,
    client: &mut ClientSeat<'p>,
    pass: &Pass,
) -> Result<(), Fail>
    requires client { Rests pool.now client.old }
    requires pass { IsPassOf client.old pass.now }
    ensures client { Rests pool.now client.new }
    ensures pass { IsPassOf client.new pass.now }
{
    let large = vec![in alloc; 0_u8; MOST_PAYLOAD - 4]?;
    let late = Vec::from_slice(alloc, &[0])?;
    send(alloc, pool, client, pass, RECORD_BYTES)?;
    assert_refused(rt, pool, client, pass, large, PieceError::TooLarge);
    let ended = pool.end(client, pass);
    assert_refused(rt, pool, client, pass, late, PieceError::Ended);
    Ok(ended?)
}

/// Asserts that pieces that are too large or come after the end are refused and change nothing of the session.
pub(crate) fn assert_pieces<'p, R: Wait + Abort>(
    rt: &R,
    alloc: Global,
    pool: &SessionPool<'p>,
    client: &mut ClientSeat<'p>,
    worker: &mut WorkerSeat<'p>,
) -> Result<(), Fail>
    requires client { Rests pool.now client.old }
    requires worker { RestsWorker pool.now worker.old }
{
    let pass = opened(rt, alloc, pool, client, RECORD)?;
    send_beside_refused(rt, alloc, pool, client, &pass)?;
    let ending = turn_to_end(pool, client, worker, pass)?;
    assert_course(rt, &ending.course, RECORD_BYTES, 10);
    Ok(())
}

#[test]
fn pieces_that_are_refused_are_handed_back(rt: HostRuntime) -> Result<(), Fail> {
    try_in_new_pool(&rt, Trial::Pieces)
}
