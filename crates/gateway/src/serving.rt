//! Requests answered from a pool: of those that were received, or read and written; messages are transcoded by
//! sessions, each of which is sent a whole payload, and then asked for its outcome, or abandoned.

ghost use Rattle.std.specs.Prelude.{◌++◌, ◌≡◌, ◌≤◌, IfErr, IfOk, List, OnErr, OnOk, Option, Result, vec_len, ℕ};
ghost use Rattle.spec_service.specs.Request.{Request as AskedRequest};
ghost use Rattle.gateway_requests.specs.Request.{request_of};
ghost use Rattle.gateway_requests.specs.Sizes.{IsWithin};
ghost use Rattle.gateway_requests.specs.Steps.{Tells};
ghost use Rattle.spec_service.specs.declared.limits.TheConstants.{MOST_BODY};
ghost use Rattle.session_pool.specs.Seats.{IsPassOf, KeepsOthers, Rests, told};
ghost use Rattle.gateway_core.specs.Gates.{Asked, SaidNo};
ghost use Rattle.spec_service.specs.NamedServing.{IsNamedReply, IsNamedReplyTo};
ghost use Rattle.gateway_core.specs.Serving.{IsFault, ServesSome, TellsRequest};
ghost use Rattle.spec_service.specs.Serving.{IsReplied, IsReplyTo, IsServed};
ghost use Rattle.gateway_core.specs.Transcoding.{IsWhyNone};
ghost use Rattle.gateway.specs.Refusing.{Refuses, fault_of};
ghost use Rattle.spec_avro.specs.declared.limits.TheConstants.{MOST_PAYLOAD};
ghost use Rattle.session_pool_slots.specs.Account.{new_account, with_close, with_sent};
ghost use Rattle.gateway.specs.Ending.{IsOutcomeOf};
ghost use Rattle.gateway.specs.Stopping.{IsGivenUp, IsWhyStopped};

use crate::app::App;
use avro_bytes::Outcome;
use gateway_core::{
    Evidence, Gate, NamedReply, Place, ReceiptPair, Reply, Schemas, ServeError, TellError,
    Transcode, TranscodeFault,
};
use gateway_requests::{Fault, Request};
use schema_registry::Receipt;
use session_pool::{ClientSeat, Finished, OpenError, Pass, PieceError, SessionEnd, SessionPool};
use std::alloc::AllocError;
use std::io::{Read, Write};
use std::sync::Wait;

/// Returns the reply to what the bytes of a request asked, or to the first of their faults, whoever received them. It
/// is an error where even the answer that memory ran out found no memory.
pub fn reply_to<'p, R: Wait, G: Gate>(
    rt: &R,
    app: &App<'_, 'p>,
    seat: &mut ClientSeat<'p>,
    gate: &mut G,
    request: Result<Request, Fault>,
) -> Result<Reply, AllocError>
    requires seat { Rests app.now.pool.now seat.old }
    requires size { IfOk request (λ r. IsWithin MOST_BODY (request_of r)) }
    ensures seat { Rests app.now.pool.now seat.new }
    ensures replied { IfOk result (λ reply. (input : Option (List ℕ)) → TellsRequest input request
        → IsReplied (IsWhyNone (Refuses seat.old seat.new) (SaidNo G.says gate.old gate.new)) app.now.registry.now
        input (reply.bytes.front.items ++ reply.bytes.rest.items) reply.status reply.evidence) }
    ensures told { IfOk result (λ reply. (asked : Result AskedRequest Fault) → Tells request_of request asked
        → IsReplyTo (IsWhyNone (Refuses seat.old seat.new) (SaidNo G.says gate.old gate.new)) app.now.registry.now
        asked (reply.bytes.front.items ++ reply.bytes.rest.items) reply.status reply.evidence) }
{
    let transcoder = Pooled { pool: app.pool };
    let answering = gateway_core::App {
        alloc: app.alloc,
        registry: app.registry,
        transcoder: &transcoder,
        routes: &app.routes,
    };
    gateway_core::reply_to(rt, &answering, seat, gate, request)
}

/// Returns the reply to what the bytes of a request asked, or to the first of their faults, where another registry
/// names the schemas. It is an error where even the answer that memory ran out found no memory.
pub fn reply_named<'p, R: Wait, S: Schemas, G: Gate>(
    rt: &R,
    app: &App<'_, 'p>,
    schemas: &mut S,
    seat: &mut ClientSeat<'p>,
    gate: &mut G,
    request: Result<Request, Fault>,
) -> Result<NamedReply<S::Seen>, AllocError>
    requires schemas { S.cells schemas.old ≡ app.now.registry.now }
    requires seat { Rests app.now.pool.now seat.old }
    requires size { IfOk request (λ r. IsWithin MOST_BODY (request_of r)) }
    ensures seat { Rests app.now.pool.now seat.new }
    ensures replied { IfOk result (λ reply. (input : Option (List ℕ)) → TellsRequest input request
        → IsNamedReply (IsWhyNone (Refuses seat.old seat.new) (SaidNo G.says gate.old gate.new))
        (S.cells schemas.old) (S.names schemas.old) (S.refuses schemas.old) input
        (reply.bytes.front.items ++ reply.bytes.rest.items) reply.status reply.sight) }
    ensures told { IfOk result (λ reply. (asked : Result AskedRequest Fault) → Tells request_of request asked
        → IsNamedReplyTo (IsWhyNone (Refuses seat.old seat.new) (SaidNo G.says gate.old gate.new))
        (S.cells schemas.old) (S.names schemas.old) (S.refuses schemas.old) asked
        (reply.bytes.front.items ++ reply.bytes.rest.items) reply.status reply.sight) }
{
    let transcoder = Pooled { pool: app.pool };
    let answering = gateway_core::App {
        alloc: app.alloc,
        registry: app.registry,
        transcoder: &transcoder,
        routes: &app.routes,
    };
    gateway_core::reply_named(rt, &answering, schemas, seat, gate, request)
}

/// Reads one request and writes one answer, and returns its status and the receipts that it rests on.
///
/// `Closed` where no byte came, `ReadFault` where the reader failed, `NoMemory` where even a fault's text found no
/// memory: then nothing is written. `CutShort` where the writer failed, after the first bytes of an answer, with the
/// receipts that this answer rests on.
pub fn serve_and_tell<'p, R: Wait, I: Read, O: Write, G: Gate>(
    rt: &R,
    app: &App<'_, 'p>,
    seat: &mut ClientSeat<'p>,
    reader: &mut I,
    writer: &mut O,
    gate: &mut G,
) -> Result<(u16, Evidence<Receipt>), TellError>
    requires { Rests app.now.pool.now seat.old }
    ensures seat { Rests app.now.pool.now seat.new }
    ensures served { IfOk result (λ told. IsServed (IsWhyNone (Refuses seat.old seat.new)
        (SaidNo G.says gate.old gate.new)) app.now.registry.now (I.remaining reader.old)
        (O.contents writer.old) (O.contents writer.new) told.0 told.1) }
    ensures fault { IfErr result (IsFault (IsWhyNone (Refuses seat.old seat.new)
        (SaidNo G.says gate.old gate.new)) app.now.registry.now (I.remaining reader.old)
        (O.contents writer.old) (O.contents writer.new)) }
{
    let transcoder = Pooled { pool: app.pool };
    let answering = gateway_core::App {
        alloc: app.alloc,
        registry: app.registry,
        transcoder: &transcoder,
        routes: &app.routes,
    };
    gateway_core::serve_and_tell(rt, &answering, seat, reader, writer, gate)
}

/// Reads one request and writes one answer, as `serve_and_tell` does, and returns the status alone, without the
/// receipts. The errors are those of `serve_and_tell`, with `WriteFault` for `CutShort`.
pub fn serve_one<'p, R: Wait, I: Read, O: Write, G: Gate>(
    rt: &R,
    app: &App<'_, 'p>,
    seat: &mut ClientSeat<'p>,
    reader: &mut I,
    writer: &mut O,
    gate: &mut G,
) -> Result<u16, ServeError>
    requires { Rests app.now.pool.now seat.old }
    ensures seat { Rests app.now.pool.now seat.new }
    ensures served { ServesSome (IsWhyNone (Refuses seat.old seat.new) (SaidNo G.says gate.old gate.new))
        app.now.registry.now (I.remaining reader.old) (O.contents writer.old) (O.contents writer.new) result }
{
    let (status, evidence) = serve_and_tell(rt, app, seat, reader, writer, gate)?;
    drop(evidence);
    Ok(status)
}

/// A transcoder that works by sessions of a pool: one for each payload, which whoever takes it runs.
#[derive(Drop)]
pub struct Pooled<'a, 'p> {
    pub pool: &'a SessionPool<'p>,
}

/// Returns the fault that says why no session was opened.
fn fault_of(error: OpenError) -> TranscodeFault
    ensures { result ≡ fault_of error }
{
    match error {
        OpenError::NoProgram(why) => TranscodeFault::NoProgram(why),
        OpenError::Full => TranscodeFault::Full,
    }
}

/// Returns the outcome of a payload by a session that has just begun. Where not all of the payload is sent, the
/// session is abandoned.
fn outcome_by<'p, R: Wait, G: Gate>(
    rt: &R,
    transcoder: &Pooled<'_, 'p>,
    seat: &mut ClientSeat<'p>,
    gate: &mut G,
    pass: Pass,
    payload: Vec<u8>,
) -> Result<Outcome, TranscodeFault>
    requires seat { Rests transcoder.now.pool.now seat.old }
    requires pass { IsPassOf seat.old pass }
    requires begun { told seat.old pass ≡ new_account pass.pair.program }
    requires size { vec_len payload ≤ MOST_PAYLOAD }
    ensures seat { Rests transcoder.now.pool.now seat.new }
    ensures outcome { IfOk result (IsOutcomeOf pass payload.items) }
    ensures why { IfErr result (IsWhyStopped (SaidNo G.says gate.old gate.new)) }
    ensures over { OnErr result (IsGivenUp seat.old pass seat.new) }
{
    let pool = transcoder.pool;
    if let Err(fault) = feed(rt, pool, seat, gate, &pass, payload) {
        abandon(pool, seat, gate, pass);
        return Err(fault);
    }
    finish(rt, pool, seat, gate, pass)
}

impl<'a, 'p> Transcode for Pooled<'a, 'p> {
    type Seat = ClientSeat<'p>;

    ghost cells = { λ t. t.pool.now.cache.now };

    ghost rests = { λ t seat. Rests t.pool.now seat };

    ghost refuses = { λ t old new. Refuses old new };

    fn transcode<R: Wait, G: Gate>(
        &self,
        rt: &R,
        seat: &mut ClientSeat<'p>,
        gate: &mut G,
        pair: &mut ReceiptPair,
        payload: Vec<u8>,
    ) -> Result<Outcome, TranscodeFault> {
        match self.pool.open(seat, &mut pair.writer, &mut pair.reader) {
            Ok(pass) => outcome_by(rt, self, seat, gate, pass, payload),
            Err(error) => Err(fault_of(error)),
        }
    }
}

/// Sends a session that has just begun a payload as one piece. While a worker has the session it asks the gate and
/// tries again: `NotFinished` where the gate says no, `NoMemory` where the session found none.
fn send<'p, R: Wait, G: Gate>(
    rt: &R,
    pool: &SessionPool<'p>,
    seat: &mut ClientSeat<'p>,
    gate: &mut G,
    pass: &Pass,
    payload: Vec<u8>,
) -> Result<(), TranscodeFault>
    requires seat { Rests pool.now seat.old }
    requires pass { IsPassOf seat.old pass.now }
    requires begun { told seat.old pass.now ≡ new_account pass.now.pair.program }
    requires size { vec_len payload ≤ MOST_PAYLOAD }
    ensures seat { Rests pool.now seat.new }
    ensures pass { IsPassOf seat.new pass.now }
    ensures told { OnOk result (told seat.new pass.now ≡ with_sent payload.items (told seat.old pass.now)) }
    ensures others { KeepsOthers seat.old pass.now seat.new }
    ensures asked { Asked G.says gate.old gate.new }
    ensures why { IfErr result (IsWhyStopped (SaidNo G.says gate.old gate.new)) }
{
    let mut held = payload;
    for _ in rt.forever() {
        match pool.piece(seat, pass, held) {
            Ok(()) => return Ok(()),
            Err(back) => match back.why {
                PieceError::Busy => held = back.piece,
                PieceError::NoMemory => return Err(TranscodeFault::NoMemory),
                PieceError::TooLarge | PieceError::Ended => unreachable!(),
            },
        }
        if !gate.at(Place::Waiting) {
            return Err(TranscodeFault::NotFinished);
        }
    }
    unreachable!()
}

/// Ends a session's payload, of which it has all bytes. While a worker has the session it asks the gate and tries
/// again: `NotFinished` where the gate says no.
fn close<'p, R: Wait, G: Gate>(
    rt: &R,
    pool: &SessionPool<'p>,
    seat: &mut ClientSeat<'p>,
    gate: &mut G,
    pass: &Pass,
) -> Result<(), TranscodeFault>
    requires seat { Rests pool.now seat.old }
    requires pass { IsPassOf seat.old pass.now }
    ensures seat { Rests pool.now seat.new }
    ensures pass { IsPassOf seat.new pass.now }
    ensures told { OnOk result (told seat.new pass.now ≡ with_close (told seat.old pass.now)) }
    ensures others { KeepsOthers seat.old pass.now seat.new }
    ensures asked { Asked G.says gate.old gate.new }
    ensures why { IfErr result (IsWhyStopped (SaidNo G.says gate.old gate.new)) }
{
    for _ in rt.forever() {
        if pool.end(seat, pass).is_ok() {
            return Ok(());
        }
        if !gate.at(Place::Waiting) {
            return Err(TranscodeFault::NotFinished);
        }
    }
    unreachable!()
}

/// Sends a session that has just begun a whole payload, and ends it. `NotFinished` where the gate says no, `NoMemory`
/// where memory ran out.
pub(crate) fn feed<'p, R: Wait, G: Gate>(
    rt: &R,
    pool: &SessionPool<'p>,
    seat: &mut ClientSeat<'p>,
    gate: &mut G,
    pass: &Pass,
    payload: Vec<u8>,
) -> Result<(), TranscodeFault>
    requires seat { Rests pool.now seat.old }
    requires pass { IsPassOf seat.old pass.now }
    requires begun { told seat.old pass.now ≡ new_account pass.now.pair.program }
    requires size { vec_len payload ≤ MOST_PAYLOAD }
    ensures seat { Rests pool.now seat.new }
    ensures pass { IsPassOf seat.new pass.now }
    ensures told { OnOk result (told seat.new pass.now
        ≡ with_close (with_sent payload.items (new_account pass.now.pair.program))) }
    ensures others { KeepsOthers seat.old pass.now seat.new }
    ensures asked { Asked G.says gate.old gate.new }
    ensures why { IfErr result (IsWhyStopped (SaidNo G.says gate.old gate.new)) }
{
    if let Err(fault) = send(rt, pool, seat, gate, pass, payload) {
        return Err(fault);
    }
    close(rt, pool, seat, gate, pass)
}

/// How many times it is tried, at most, to abandon a session.
pub const MOST_ABANDONS: u32 = 1_000;

/// Abandons a session. While a worker has it, it asks the gate and tries again, whatever the gate says; a session
/// that a worker still has at the last try leaves its slot taken for good.
pub(crate) fn abandon<'p, G: Gate>(
    pool: &SessionPool<'p>,
    seat: &mut ClientSeat<'p>,
    gate: &mut G,
    pass: Pass,
)
    requires seat { Rests pool.now seat.old }
    requires pass { IsPassOf seat.old pass }
    ensures seat { Rests pool.now seat.new }
    ensures asked { Asked G.says gate.old gate.new }
    ensures over { IsGivenUp seat.old pass seat.new }
{
    let mut held = pass;
    for _try in 0..MOST_ABANDONS {
        match pool.abandon(seat, held) {
            Ok(()) => return,
            Err(back) => held = back.pass,
        }
        gate.at(Place::Waiting);
    }
}

/// Returns the outcome that a session comes to, of all that it was sent. Until it is there it asks the gate and tries
/// again. The error is `NotFinished` where the gate says no, and then the session is abandoned; `NoMemory` where
/// memory ended it.
pub(crate) fn finish<'p, R: Wait, G: Gate>(
    rt: &R,
    pool: &SessionPool<'p>,
    seat: &mut ClientSeat<'p>,
    gate: &mut G,
    pass: Pass,
) -> Result<Outcome, TranscodeFault>
    requires seat { Rests pool.now seat.old }
    requires pass { IsPassOf seat.old pass }
    ensures seat { Rests pool.now seat.new }
    ensures outcome { IfOk result (IsOutcomeOf pass (told seat.old pass).sent) }
    ensures why { IfErr result (IsWhyStopped (SaidNo G.says gate.old gate.new)) }
    ensures over { OnErr result (IsGivenUp seat.old pass seat.new) }
{
    let mut held = pass;
    for _ in rt.forever() {
        match pool.result(seat, held) {
            Ok(Finished { end, .. }) => match end {
                SessionEnd::Out(outcome) => return Ok(outcome),
                SessionEnd::NoMemory => return Err(TranscodeFault::NoMemory),
                SessionEnd::Trap(_) => unreachable!(),
            },
            Err(back) => held = back.pass,
        }
        if !gate.at(Place::Waiting) {
            abandon(pool, seat, gate, held);
            return Err(TranscodeFault::NotFinished);
        }
    }
    unreachable!()
}
