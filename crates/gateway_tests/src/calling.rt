//! One caller of each crate that others call, which the crate's CALLING.md quotes.

mod messages;
mod reading;
mod registering;
mod schemas;
mod serving;
mod sessions;
mod world;

ghost use Rattle.std.specs.Prelude.{All};
ghost use Rattle.spec_registry.specs.Receipt.{IsReceiptOf};
ghost use Rattle.session_pool.specs.Seats.{IsNewClient, IsNewWorker, Rests, RestsWorker};

use crate::asking::{MESSAGE, REWRITTEN};
use crate::schemas::{
    LIST_BYTES, LONG_LIST, RECORD, SWAPPED, are_both_registered, list_registered,
};
use crate::seats::{last_client, last_worker};
use crate::trials::{Question, Trial, succeeds};
use avro_bytes::Outcome;
use avro_schema::{Schema, SchemaError};
use gateway::{App, Helping};
use schema_registry::{Receipt, Refusal, SharedRegistry};
use session_core::{Event, PairRow, World};
use session_pool::{ClientSeat, SessionPool, WorkerSeat};
use std::alloc::{AllocError, Global};
use std::process::Abort;
use std::sync::Wait;

/// The payload of T's record of 27 and `foo`.
const PAYLOAD: &[u8] = b"\x36\x06foo";

/// What it is for the reader of T's record with its fields the other way round.
const SWAPPED_PAYLOAD: &[u8] = b"\x06foo\x36";

#[test]
fn nodes_are_counted(rt: HostRuntime) {
    let alloc = rt.alloc();
    assert!(rt; schemas::count_nodes(alloc, RECORD) == Ok(3));
    assert!(rt; schemas::count_nodes(alloc, r#""lang""#) == Err(SchemaError::Unknown));
}

/// A writer's schema and a reader's.
#[derive(Drop)]
struct Pair {
    writer: Schema,
    reader: Schema,
}

/// Returns the schemas of two texts.
fn pair_of(alloc: Global, writer: &str, reader: &str) -> Result<Pair, SchemaError> {
    let writer = Schema::parse(alloc, writer)?;
    let reader = Schema::parse(alloc, reader)?;
    Ok(Pair { writer, reader })
}

/// Returns whether a reader of one text's schema reads each datum of a writer of another one's.
fn reads_each(alloc: Global, writer: &str, reader: &str) -> Result<bool, SchemaError> {
    let pair = pair_of(alloc, writer, reader)?;
    Ok(reading::reads_each_datum(alloc, &pair.writer, &pair.reader)?)
}

#[test]
fn a_reader_of_the_same_fields_reads_each_datum(rt: HostRuntime) {
    let alloc = rt.alloc();
    assert!(rt; reads_each(alloc, RECORD, SWAPPED) == Ok(true));
    assert!(rt; reads_each(alloc, RECORD, LONG_LIST) == Ok(false));
}

/// Returns whether a payload of the record has this encoding with its fields the other way round, or none.
fn is_rewritten(alloc: Global, payload: &[u8], wanted: Option<&[u8]>) -> Result<bool, SchemaError> {
    let pair = pair_of(alloc, RECORD, SWAPPED)?;
    match messages::rewrite(alloc, &pair.writer, &pair.reader, payload) {
        Ok(found) => Ok(found.as_deref() == wanted),
        Err(_) => Ok(false),
    }
}

#[test]
fn a_payload_is_rewritten(rt: HostRuntime) {
    let alloc = rt.alloc();
    assert!(rt; is_rewritten(alloc, PAYLOAD, Some(SWAPPED_PAYLOAD)) == Ok(true));
    assert!(rt; is_rewritten(alloc, &PAYLOAD[..4], None) == Ok(true));
}

/// Returns whether a registry shows the schema of a text as this text.
fn shows<R: Wait>(
    rt: &R,
    alloc: Global,
    registry: &SharedRegistry,
    text: &str,
    wanted: &str,
) -> Result<bool, Refusal> {
    let subject = String::from_str(alloc, "s")?;
    let text = String::from_str(alloc, text)?;
    Ok(registering::registered_text(rt, registry, subject, text)? == wanted)
}

/// Returns whether a new registry shows the schema of a text as this text.
fn is_shown<R: Wait + AllocGlobal>(rt: &R, text: &str, wanted: &str) -> Result<bool, Refusal> {
    let registry = SharedRegistry::new(rt.alloc())?;
    shows(rt, rt.alloc(), &registry, text, wanted)
}

#[test]
fn a_schema_is_shown_as_compact_text(rt: HostRuntime) {
    let shown = is_shown(&rt, r#" { "type" : "long" } "#, r#"{"type":"long"}"#);
    assert!(rt; shown == Ok(true));
}

/// Returns the event that registers the record.
fn registration(alloc: Global) -> Result<Event, AllocError> {
    let subject = String::from_str(alloc, "s")?;
    let text = String::from_str(alloc, RECORD)?;
    Ok(Event::Register { subject, text })
}

/// Registers the record in a new world. Returns whether a session of the record with itself is the first one of the
/// world, and none begins with a second schema, which is not there.
fn begins(alloc: Global, programs: &PairRow, event: &Event) -> bool {
    let mut world = World::new(alloc);
    world.event(programs, event);
    let mut right = world::begin_session(&mut world, programs, 1, 1) == Some(0);
    right &= world::begin_session(&mut world, programs, 1, 2).is_none();
    right
}

/// Returns whether a session begins in a new world with the programs of one pair. The error is that there was no memory
/// for these.
fn is_begun(alloc: Global) -> Result<bool, AllocError> {
    let event = registration(alloc)?;
    let programs = PairRow::new(alloc, 1)?;
    Ok(begins(alloc, &programs, &event))
}

#[test]
fn a_session_begins_in_a_world(rt: HostRuntime) -> Result<(), AllocError> {
    assert!(rt; is_begun(rt.alloc())?);
    Ok(())
}

/// Returns whether the outcome of the list of 1 and 2, from the schema of a receipt to itself, is that list.
fn is_list<'p>(
    alloc: Global,
    pool: &SessionPool<'p>,
    client: &mut ClientSeat<'p>,
    worker: &mut WorkerSeat<'p>,
    receipt: &mut Receipt,
) -> bool
    requires client { Rests pool.now client.old }
    requires worker { RestsWorker pool.now worker.old }
    requires receipt { IsReceiptOf pool.now.cache.now receipt.old }
{
    let mut again = receipt.again();
    let Ok(payload) = LIST_BYTES.to_vec(alloc) else {
        return false;
    };
    match sessions::outcome_by_one_turn(pool, client, worker, receipt, &mut again, payload) {
        Some(Outcome::Done(output)) => output.as_slice() == LIST_BYTES,
        _ => false,
    }
}

/// Registers the schema of lists. Returns whether a session on a list comes to that list by one turn of a worker.
pub(crate) fn is_list_after_one_turn<'p, R: Wait + Abort + AllocGlobal>(
    rt: &R,
    pool: &SessionPool<'p>,
    clients: &mut Vec<ClientSeat<'p>>,
    workers: &mut Vec<WorkerSeat<'p>>,
) -> bool
    requires clients { All (IsNewClient pool.now) clients.old.items }
    requires workers { All (IsNewWorker pool.now) workers.old.items }
{
    let mut client = last_client(rt, pool, clients);
    let mut worker = last_worker(rt, pool, workers);
    match list_registered(rt, rt.alloc(), pool) {
        Ok(mut receipt) => is_list(rt.alloc(), pool, &mut client, &mut worker, &mut receipt),
        Err(_) => false,
    }
}

#[test]
fn a_session_of_a_pool_comes_to_its_outcome(rt: HostRuntime) -> Result<(), AllocError> {
    assert!(rt; succeeds(&rt, 1, 1, Trial::OneTurn)?);
    Ok(())
}

/// Registers two schemas. Returns whether the message between them is answered with its status.
pub(crate) fn is_text_answered<'p, R: Wait + AllocGlobal>(
    rt: &R,
    app: &App<'_, 'p>,
    seat: &mut ClientSeat<'p>,
    gate: &mut Helping<'_, 'p>,
) -> bool
    requires { Rests app.now.pool.now seat.old }
{
    let mut right = are_both_registered(rt, rt.alloc(), app.registry);
    let mut answer = Vec::new(rt.alloc());
    right &= serving::answer_text(rt, app, seat, gate, MESSAGE, &mut answer) == Ok(200);
    right &= answer.as_slice() == REWRITTEN;
    right
}

#[test]
fn a_text_is_answered(rt: HostRuntime) -> Result<(), AllocError> {
    assert!(rt; succeeds(&rt, 1, 1, Trial::Asked(Question::Text))?);
    Ok(())
}
