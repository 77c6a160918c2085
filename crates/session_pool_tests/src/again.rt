//! Calls that are made once more where they report that memory ran out, while two sessions are open at once. At most
//! one of the two ends because memory ran out, and is then run anew.

ghost use Rattle.std.specs.Prelude.{◌≡◌, IfOk};
ghost use Rattle.spec_registry.specs.Receipt.{IsReceiptOf};
ghost use Rattle.session_pool.specs.Seats.{IsPassOf, Rests, RestsWorker};

use crate::cache::published_listing;
use crate::courses::finished;
use crate::same::same;
use crate::schemas::{RECORD, RECORD_BYTES, RECORD_LISTING, SWAPPED, SWAPPED_BYTES, registered};
use crate::seats::{Seated, last_client, last_worker, new_pool};
use avro_bytes::Outcome;
use avro_schema::{Schema, SchemaError};
use program_cache::{ProgramCache, PublishError};
use schema_registry::{Receipt, Refusal, SharedRegistry};
use session_pool::{
    ClientSeat, DebugCommand, DebugError, DebugReply, Finished, OpenError, Pass, PieceError,
    SessionEnd, SessionPool, Turn, WorkerSeat,
};
use std::alloc::{AllocError, Global};
use std::process::Abort;
use std::sync::Wait;
use std::test::Fail;

/// Returns the schema of the record, parsed once more where memory was refused.
fn parsed_again(alloc: Global) -> Result<Schema, SchemaError> {
    match Schema::parse(alloc, RECORD) {
        Err(SchemaError::NoMemory) => Schema::parse(alloc, RECORD),
        answer => answer,
    }
}

/// Registers a schema, once more where memory was refused.
fn registered_again<R: Wait>(
    rt: &R,
    alloc: Global,
    pool: &SessionPool<'_>,
    subject: &str,
    text: &str,
) -> Result<Receipt, Refusal>
    ensures { IfOk result (IsReceiptOf pool.now.cache.now) }
{
    match registered(rt, alloc, pool, subject, text) {
        Err(Refusal::NoMemory) => registered(rt, alloc, pool, subject, text),
        answer => answer,
    }
}

/// Returns the listing of the program that is published for a schema with itself, asked for once more where memory was
/// refused.
fn published_again(
    alloc: Global,
    cache: &ProgramCache<'_>,
    schema: &Schema,
) -> Result<String, PublishError> {
    match published_listing(alloc, cache, schema, schema) {
        Err(PublishError::NoMemory) => published_listing(alloc, cache, schema, schema),
        answer => answer,
    }
}

/// Opens a session, once more where memory was refused.
fn opened_again<'p>(
    pool: &SessionPool<'p>,
    seat: &mut ClientSeat<'p>,
    writer: &mut Receipt,
    reader: &mut Receipt,
) -> Result<Pass, OpenError>
    requires seat { Rests pool.now seat.old }
    requires writer { IsReceiptOf pool.now.cache.now writer.old }
    requires reader { IsReceiptOf pool.now.cache.now reader.old }
    ensures seat { Rests pool.now seat.new }
    ensures receipts { (writer.new ≡ writer.old) × (reader.new ≡ reader.old) }
    ensures pass { IfOk result (IsPassOf seat.new) }
{
    match pool.open(seat, writer, reader) {
        Err(OpenError::NoProgram(PublishError::NoMemory)) => pool.open(seat, writer, reader),
        answer => answer,
    }
}

/// Returns a copy of the bytes of a piece, copied once more where memory was refused.
fn copied_again(alloc: Global, bytes: &[u8]) -> Result<Vec<u8>, AllocError> {
    match Vec::from_slice(alloc, bytes) {
        Err(AllocError) => Vec::from_slice(alloc, bytes),
        answer => answer,
    }
}

/// Sends a piece, and the one that is handed back once more where memory was refused and all its bytes came back.
fn sent_again<'p>(
    alloc: Global,
    pool: &SessionPool<'p>,
    seat: &mut ClientSeat<'p>,
    pass: &Pass,
    bytes: &[u8],
) -> Result<(), PieceError>
    requires seat { Rests pool.now seat.old }
    requires pass { IsPassOf seat.old pass.now }
    ensures seat { Rests pool.now seat.new }
    ensures pass { IsPassOf seat.new pass.now }
{
    let Ok(piece) = copied_again(alloc, bytes) else {
        return Err(PieceError::NoMemory);
    };
    let Err(refused) = pool.piece(seat, pass, piece) else {
        return Ok(());
    };
    if refused.why != PieceError::NoMemory || refused.piece.as_slice() != bytes {
        return Err(refused.why);
    }
    match pool.piece(seat, pass, refused.piece) {
        Ok(()) => Ok(()),
        Err(refused) => Err(refused.why),
    }
}

/// Returns what a debugger is answered to a command, asked once more where memory was refused.
fn debugged_again<'p>(
    pool: &SessionPool<'p>,
    seat: &mut ClientSeat<'p>,
    pass: &Pass,
    command: DebugCommand,
) -> Result<DebugReply, DebugError>
    requires seat { Rests pool.now seat.old }
    requires pass { IsPassOf seat.old pass.now }
    ensures seat { Rests pool.now seat.new }
    ensures pass { IsPassOf seat.new pass.now }
{
    match pool.debug(seat, pass, command) {
        Err(DebugError::NoMemory) => pool.debug(seat, pass, command),
        answer => answer,
    }
}

/// What is wanted of a debugger's answer.
#[derive(Clone, Copy)]
enum Wanted {
    Done,
    Rows(u64),
    Text(&'static str),
}

/// What a debugger asks, and what is wanted of the answer.
#[derive(Clone, Copy)]
struct Asked {
    command: DebugCommand,
    wanted: Wanted,
}

/// What a debugger asks of the session from the record to itself that has the first two bytes of its payload.
const ASKED: &[Asked] = &[
    Asked {
        command: DebugCommand::Set(5),
        wanted: Wanted::Done,
    },
    Asked {
        command: DebugCommand::Go(100),
        wanted: Wanted::Rows(4),
    },
    Asked {
        command: DebugCommand::Show,
        wanted: Wanted::Text(SHOWN),
    },
    Asked {
        command: DebugCommand::Clear(5),
        wanted: Wanted::Done,
    },
    Asked {
        command: DebugCommand::Step(1),
        wanted: Wanted::Rows(1),
    },
    Asked {
        command: DebugCommand::List,
        wanted: Wanted::Text(RECORD_LISTING),
    },
];

/// The state of the session at the breakpoint.
const SHOWN: &str = "\
count 4 pc 5 pos 1 units 1 part - mark - over 0 state running
out -
call 1
rec 0 36 -
";

/// Returns whether a debugger's answer is the one that is wanted.
fn is_wanted(reply: &DebugReply, wanted: Wanted) -> bool {
    match (reply, wanted) {
        (DebugReply::Done, Wanted::Done) => true,
        (DebugReply::Rows(found), Wanted::Rows(rows)) => *found == rows,
        (DebugReply::Text(found), Wanted::Text(text)) => found.as_str() == text,
        _ => false,
    }
}

/// What a debugger was answered to some commands.
#[derive(Clone, Copy)]
struct Answered {
    /// How many of the answers are as is wanted.
    as_wanted: usize,
    /// How many rows were taken, by the answers.
    rows: u64,
}

/// Returns how many rows a reply reports.
fn rows_of(reply: &DebugReply) -> u64 {
    match reply {
        DebugReply::Rows(rows) => *rows,
        _ => 0,
    }
}

/// Asks a debugger's commands, each once more where memory was refused.
fn answered_again<'p>(
    pool: &SessionPool<'p>,
    seat: &mut ClientSeat<'p>,
    pass: &Pass,
    asked: &[Asked],
) -> Result<Answered, DebugError>
    requires seat { Rests pool.now seat.old }
    requires pass { IsPassOf seat.old pass.now }
    ensures seat { Rests pool.now seat.new }
    ensures pass { IsPassOf seat.new pass.now }
{
    let mut answered = Answered {
        as_wanted: 0,
        rows: 0,
    };
    for one in asked {
        let reply = debugged_again(pool, seat, pass, one.command)?;
        answered.rows = answered.rows.wrapping_add(rows_of(&reply));
        if is_wanted(&reply, one.wanted) {
            answered.as_wanted = answered.as_wanted.wrapping_add(1);
        }
    }
    Ok(answered)
}

/// More turns than both sessions need.
const MOST_TURNS: u32 = 100;

/// How many rows a worker took of the session in the first slot, and of the one in the second.
#[derive(Clone, Copy)]
struct Taken {
    first: u64,
    second: u64,
}

/// Takes turns of the worker until it finds no session ready. Returns how many rows it took; `None` where sessions were
/// ready to the last.
fn taken_in_turns<'p>(pool: &SessionPool<'p>, worker: &mut WorkerSeat<'p>) -> Option<Taken>
    requires { RestsWorker pool.now worker.old }
    ensures { RestsWorker pool.now worker.new }
{
    let mut taken = Taken {
        first: 0,
        second: 0,
    };
    for _ in 0..MOST_TURNS {
        match pool.turn(worker, 3) {
            Turn::Idle => return Some(taken),
            Turn::Ran { slot: 0, rows } => taken.first = taken.first.wrapping_add(rows),
            Turn::Ran { rows, .. } => taken.second = taken.second.wrapping_add(rows),
        }
    }
    None
}

/// Takes turns of the worker until it finds no session ready, which it comes to. Returns how many rows it took.
fn taken_until_idle<'p>(
    rt: &impl Abort,
    pool: &SessionPool<'p>,
    worker: &mut WorkerSeat<'p>,
) -> Taken
    requires { RestsWorker pool.now worker.old }
    ensures { RestsWorker pool.now worker.new }
{
    match taken_in_turns(pool, worker) {
        Some(taken) => taken,
        None => panic!(rt; "sessions are ready to the last"),
    }
}

/// What a session came to.
#[derive(Clone, Copy, Debug, PartialEq, Eq)]
enum Ended {
    /// To the output that is wanted, after ten rows, with all that was asked of it answered as is wanted.
    AsWanted,
    /// To no output because memory ran out, after the rows that were taken of it before.
    NoMemory,
    /// To anything else.
    Otherwise,
}

/// Returns what a session came to of which this output is wanted, and of which as many rows as this were taken.
fn came_to(finished: &Finished, output: &[u8], rows: u64) -> Ended {
    if finished.rows != rows {
        return Ended::Otherwise;
    }
    match &finished.end {
        SessionEnd::NoMemory => Ended::NoMemory,
        SessionEnd::Out(Outcome::Done(found)) if found.as_slice() == output && rows == 10 => {
            Ended::AsWanted
        }
        _ => Ended::Otherwise,
    }
}

/// Returns what a session came to that a debugger has asked of too.
fn came_to_as_asked(finished: &Finished, output: &[u8], rows: u64, answered: Answered) -> Ended {
    match came_to(finished, output, rows.wrapping_add(answered.rows)) {
        Ended::AsWanted if answered.as_wanted != ASKED.len() => Ended::Otherwise,
        ended => ended,
    }
}

/// Sends the rest of a session's payload, and ends it.
fn fed_to_end<'p>(
    rt: &impl Abort,
    alloc: Global,
    pool: &SessionPool<'p>,
    seat: &mut ClientSeat<'p>,
    pass: &Pass,
    rest: &[u8],
)
    requires seat { Rests pool.now seat.old }
    requires pass { IsPassOf seat.old pass.now }
    ensures seat { Rests pool.now seat.new }
    ensures pass { IsPassOf seat.new pass.now }
{
    sent_again(alloc, pool, seat, pass, rest).expect(rt, "a piece");
    pool.end(seat, pass).expect(rt, "the end of a payload");
}

/// The passes of two sessions that are open at once.
#[derive(Drop)]
struct Passes {
    first: Pass,
    second: Pass,
}

/// What two sessions came to that were open at once.
#[derive(Clone, Copy)]
struct Ends {
    first: Ended,
    second: Ended,
}

/// Opens two sessions, from the record to itself and to its swapped form.
fn both_opened<'p>(
    rt: &impl Abort,
    pool: &SessionPool<'p>,
    first: &mut ClientSeat<'p>,
    second: &mut ClientSeat<'p>,
    unswapped: &mut Receipt,
    swapped: &mut Receipt,
) -> Passes
    requires first { Rests pool.now first.old }
    requires second { Rests pool.now second.old }
    requires unswapped { IsReceiptOf pool.now.cache.now unswapped.old }
    requires swapped { IsReceiptOf pool.now.cache.now swapped.old }
    ensures first { Rests pool.now first.new }
    ensures second { Rests pool.now second.new }
    ensures receipts { (unswapped.new ≡ unswapped.old) × (swapped.new ≡ swapped.old) }
    ensures passes { IsPassOf first.new result.first × IsPassOf second.new result.second }
{
    let mut again = unswapped.again();
    let one = opened_again(pool, first, unswapped, &mut again).expect(rt, "a first session");
    let two = opened_again(pool, second, unswapped, swapped).expect(rt, "a second session");
    same(rt, (one.slot(), two.slot()), (0, 1));
    Passes {
        first: one,
        second: two,
    }
}

/// Returns what two sessions that are open at once come to, each on a payload in two pieces. A debugger asks of the
/// first.
fn both_ended<'p>(
    rt: &(impl Abort + AllocGlobal),
    pool: &SessionPool<'p>,
    first: &mut ClientSeat<'p>,
    second: &mut ClientSeat<'p>,
    worker: &mut WorkerSeat<'p>,
    passes: Passes,
) -> Ends
    requires first { Rests pool.now first.old }
    requires second { Rests pool.now second.old }
    requires worker { RestsWorker pool.now worker.old }
    requires passes { IsPassOf first.old passes.first × IsPassOf second.old passes.second }
    ensures first { Rests pool.now first.new }
    ensures second { Rests pool.now second.new }
    ensures worker { RestsWorker pool.now worker.new }
{
    let alloc = rt.alloc();
    let (begin, rest) = RECORD_BYTES.split_at(2);
    let Passes {
        first: one,
        second: two,
    } = passes;
    sent_again(alloc, pool, first, &one, begin).expect(rt, "a piece");
    sent_again(alloc, pool, second, &two, begin).expect(rt, "a piece");
    let answered = answered_again(pool, first, &one, ASKED).expect(rt, "answers");
    let taken = taken_until_idle(rt, pool, worker);
    fed_to_end(rt, alloc, pool, first, &one, rest);
    fed_to_end(rt, alloc, pool, second, &two, rest);
    let more = taken_until_idle(rt, pool, worker);
    let of_first = finished(pool, first, one).expect(rt, "the first end");
    let of_second = finished(pool, second, two).expect(rt, "the second end");
    let rows = taken.first.wrapping_add(more.first);
    let other_rows = taken.second.wrapping_add(more.second);
    Ends {
        first: came_to_as_asked(&of_first, RECORD_BYTES, rows, answered),
        second: came_to(&of_second, SWAPPED_BYTES, other_rows),
    }
}

/// Runs a session that was opened anew, since it had ended because memory ran out: now it comes to this output.
fn assert_anew<'p>(
    rt: &(impl Abort + AllocGlobal),
    pool: &SessionPool<'p>,
    client: &mut ClientSeat<'p>,
    worker: &mut WorkerSeat<'p>,
    pass: Pass,
    output: &[u8],
)
    requires client { Rests pool.now client.old }
    requires worker { RestsWorker pool.now worker.old }
    requires pass { IsPassOf client.old pass }
{
    fed_to_end(rt, rt.alloc(), pool, client, &pass, RECORD_BYTES);
    let taken = taken_until_idle(rt, pool, worker);
    let finished = finished(pool, client, pass).expect(rt, "its end");
    same(rt, came_to(&finished, output, taken.first), Ended::AsWanted);
}

/// Asserts that the program that is published for the record with itself is the record's own.
fn assert_published(rt: &impl Abort, alloc: Global, cache: &ProgramCache<'_>) {
    let schema = parsed_again(alloc).expect(rt, "a schema");
    let listing = published_again(alloc, cache, &schema).expect(rt, "a program");
    same(rt, listing.as_str(), RECORD_LISTING);
}

/// Asserts that of two sessions that are open at once at most one ends because memory ran out, and that this one runs
/// anew.
fn assert_one_at_most<'p, R: Wait + Abort + AllocGlobal>(
    rt: &R,
    pool: &SessionPool<'p>,
    first: &mut ClientSeat<'p>,
    second: &mut ClientSeat<'p>,
    worker: &mut WorkerSeat<'p>,
)
    requires first { Rests pool.now first.old }
    requires second { Rests pool.now second.old }
    requires worker { RestsWorker pool.now worker.old }
{
    let alloc = rt.alloc();
    let mut unswapped = registered_again(rt, alloc, pool, "s", RECORD).expect(rt, "a first schema");
    let mut swapped = registered_again(rt, alloc, pool, "t", SWAPPED).expect(rt, "a second schema");
    same(rt, (unswapped.id(), swapped.id()), (1, 2));
    assert_published(rt, alloc, pool.cache());
    let (writer, reader) = (&mut unswapped, &mut swapped);
    let passes = both_opened(rt, pool, first, second, writer, reader);
    let ends = both_ended(rt, pool, first, second, worker, passes);
    let again = &mut writer.again();
    match (ends.first, ends.second) {
        (Ended::AsWanted, Ended::AsWanted) => (),
        (Ended::NoMemory, Ended::AsWanted) => {
            let pass = opened_again(pool, first, writer, again).expect(rt, "a session anew");
            assert_anew(rt, pool, first, worker, pass, RECORD_BYTES)
        }
        (Ended::AsWanted, Ended::NoMemory) => {
            let pass = opened_again(pool, second, writer, reader).expect(rt, "a session anew");
            assert_anew(rt, pool, second, worker, pass, SWAPPED_BYTES)
        }
        other => panic!(rt; "what both came to: {other:?}"),
    }
}

#[test]
fn a_refused_growth_ends_one_session_at_most(rt: HostRuntime) -> Result<(), Fail> {
    let alloc = rt.alloc();
    let registry = SharedRegistry::new(alloc)?;
    let cache = ProgramCache::new(alloc, &registry)?;
    let Seated {
        pool,
        mut clients,
        mut workers,
    } = new_pool(alloc, &cache, 2, 1)?;
    let mut first = last_client(&rt, &pool, &mut clients);
    let mut second = last_client(&rt, &pool, &mut clients);
    let mut worker = last_worker(&rt, &pool, &mut workers);
    assert_one_at_most(&rt, &pool, &mut first, &mut second, &mut worker);
    Ok(())
}
