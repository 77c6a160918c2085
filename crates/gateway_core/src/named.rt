//! Answers where another registry names the schemas.

ghost use Rattle.std.specs.Prelude.{◌≡◌, ◌++◌, ◌≤◌, ◌⊎◌, ℕ, IfOk, List, None, Option, Result, length};
ghost use Rattle.spec_service.specs.Answer.{Refused};
ghost use Rattle.gateway_requests.specs.Answer.{answer_of};
ghost use Rattle.spec_service.specs.Request.{Request as Asked, Transcodes};
ghost use Rattle.gateway_requests.specs.Request.{request_of};
ghost use Rattle.gateway_requests.specs.Sizes.{IsWithin};
ghost use Rattle.gateway_requests.specs.Steps.{Tells};
ghost use Rattle.spec_service.specs.declared.limits.TheConstants.{MOST_BODY};
ghost use Rattle.gateway_core.specs.Gates.{SaidNo};
ghost use Rattle.spec_service.specs.NamedServing.{FulfilsNamed, IsNamedAnswer, IsNamedAnswerTo, IsNamedReply, IsNamedReplyTo, TellsTextOf, TellsUnnamed};
ghost use Rattle.gateway_core.specs.Serving.{TellsRequest};
ghost use Rattle.gateway_core.specs.Transcoding.{IsWhyNone};

use crate::answering::bytes_of;
use crate::app::App;
use crate::gate::Gate;
use crate::messages::{MessageFor, NamedPair, Rewritten, Schemas, Unpaired, rewrite};
use crate::transcode::Transcode;
use gateway_requests::{Answer, AnswerBytes, Fault, Request, schema_text};
use schema_registry::{Receipt, SharedRegistry};
pub use spec_service::Sight;
use std::alloc::{AllocError, Global};
use std::sync::Wait;

/// An answer, and the schemas that it rests on.
#[derive(Drop)]
struct NamedTold<E: Drop> {
    answer: Answer,
    sight: Sight<Receipt, E>,
}

/// An answer that is not yet written, and the schemas that it rests on.
#[derive(Drop)]
pub struct NamedReply<E: Drop> {
    pub bytes: AnswerBytes,
    pub status: u16,
    pub sight: Sight<Receipt, E>,
}

/// Returns a fault as an answer, which rests on no schema.
fn refused<E: Drop>(fault: Fault) -> NamedTold<E>
    ensures reader { result.sight.reader ≡ None }
    ensures answer { answer_of result.answer ≡ Refused fault }
{
    NamedTold {
        answer: Answer::Fault(fault),
        sight: Sight {
            reader: None,
            writer: None,
        },
    }
}

/// Returns the text of the schema that an id names, as an answer. The error is that memory ran out.
fn tell_text<S: Schemas>(
    alloc: Global,
    registry: &SharedRegistry,
    schemas: &mut S,
    id: u32,
) -> Result<NamedTold<S::Seen>, AllocError>
    requires { S.cells schemas.old ≡ registry.now }
    ensures { IfOk result (λ told. TellsUnnamed (S.refuses schemas.old) id told.sight (answer_of told.answer)
        ⊎ TellsTextOf (S.cells schemas.old) (S.names schemas.old) id told.sight (answer_of told.answer)) }
{
    match schemas.schema_of(id) {
        Ok(named) => {
            let mut named = named;
            let text = registry.schema(&mut named.receipt).text();
            let answer = Answer::Reply(schema_text(alloc, text)?);
            let sight = Sight {
                reader: Some(named),
                writer: None,
            };
            Ok(NamedTold { answer, sight })
        }
        Err(fault) => Ok(refused(fault)),
    }
}

/// Returns the answer to a message for the reader of an id.
fn tell_message<R: Wait, S: Schemas, T: Transcode, G: Gate>(
    rt: &R,
    schemas: &mut S,
    transcoder: &T,
    seat: &mut T::Seat,
    gate: &mut G,
    asked: MessageFor,
) -> NamedTold<S::Seen>
    requires cells { T.cells transcoder.now ≡ S.cells schemas.old }
    requires seat { T.rests transcoder.now seat.old }
    requires message { length asked.message ≤ MOST_BODY }
    ensures seat { T.rests transcoder.now seat.new }
    ensures told { FulfilsNamed (IsWhyNone (T.refuses transcoder.now seat.old seat.new)
        (SaidNo G.says gate.old gate.new)) (S.cells schemas.old) (S.names schemas.old) (S.refuses schemas.old)
        (Transcodes asked.reader asked.message) result.sight (answer_of result.answer) }
{
    match rewrite(rt, schemas, transcoder, seat, gate, asked) {
        Ok(Rewritten { answer, pair }) => {
            let NamedPair { writer, reader } = pair;
            let sight = Sight {
                reader: Some(reader),
                writer: Some(writer),
            };
            NamedTold { answer, sight }
        }
        Err(Unpaired { fault, reader }) => match reader {
            Some(reader) => {
                let sight = Sight {
                    reader: Some(reader),
                    writer: None,
                };
                let answer = Answer::Fault(fault);
                NamedTold { answer, sight }
            }
            None => refused(fault),
        },
    }
}

/// Returns the answer to what is asked. The error is that memory ran out.
fn answer<R: Wait, S: Schemas, T: Transcode, G: Gate>(
    rt: &R,
    app: &App<'_, T>,
    schemas: &mut S,
    seat: &mut T::Seat,
    gate: &mut G,
    request: Request,
) -> Result<NamedTold<S::Seen>, AllocError>
    requires cells { T.cells app.now.transcoder.now ≡ S.cells schemas.old }
    requires registry { S.cells schemas.old ≡ app.now.registry.now }
    requires seat { T.rests app.now.transcoder.now seat.old }
    requires size { IsWithin MOST_BODY (request_of request) }
    ensures seat { T.rests app.now.transcoder.now seat.new }
    ensures fulfils { IfOk result (λ told. FulfilsNamed (IsWhyNone (T.refuses app.now.transcoder.now seat.old
        seat.new) (SaidNo G.says gate.old gate.new)) (S.cells schemas.old) (S.names schemas.old)
        (S.refuses schemas.old) (request_of request) told.sight (answer_of told.answer)) }
{
    match request {
        Request::Command(_) | Request::Registration { .. } => Ok(refused(Fault::Elsewhere)),
        Request::Schema { id } => tell_text(app.alloc, app.registry, schemas, id),
        Request::Transcoding { reader, message } => {
            let transcoder = app.transcoder;
            let asked = MessageFor { reader, message };
            Ok(tell_message(rt, schemas, transcoder, seat, gate, asked))
        }
    }
}

/// Returns the answer to a request, or to its fault.
#[tactic(auto, using(crate::proofs::Faults::memory_or_another))]
fn answer_request<R: Wait, S: Schemas, T: Transcode, G: Gate>(
    rt: &R,
    app: &App<'_, T>,
    schemas: &mut S,
    seat: &mut T::Seat,
    gate: &mut G,
    request: Result<Request, Fault>,
) -> NamedTold<S::Seen>
    requires cells { T.cells app.now.transcoder.now ≡ S.cells schemas.old }
    requires registry { S.cells schemas.old ≡ app.now.registry.now }
    requires seat { T.rests app.now.transcoder.now seat.old }
    requires size { IfOk request (λ r. IsWithin MOST_BODY (request_of r)) }
    ensures seat { T.rests app.now.transcoder.now seat.new }
    ensures answers { (input : Option (List ℕ)) → TellsRequest input request
        → IsNamedAnswer (IsWhyNone (T.refuses app.now.transcoder.now seat.old seat.new)
        (SaidNo G.says gate.old gate.new)) (S.cells schemas.old) (S.names schemas.old) (S.refuses schemas.old) input
        result.sight (answer_of result.answer) }
    ensures told { (asked : Result Asked Fault) → Tells request_of request asked
        → IsNamedAnswerTo (IsWhyNone (T.refuses app.now.transcoder.now seat.old seat.new)
        (SaidNo G.says gate.old gate.new)) (S.cells schemas.old) (S.names schemas.old) (S.refuses schemas.old) asked
        result.sight (answer_of result.answer) }
{
    match request {
        Ok(request) => match answer(rt, app, schemas, seat, gate, request) {
            Ok(told) => told,
            Err(AllocError) => refused(Fault::NoMemory),
        },
        Err(fault) => refused(fault),
    }
}

/// Returns the reply to what the bytes of a request asked, or to the first of their faults, where another registry
/// names the schemas. It is an error where even the answer that memory ran out found no memory.
pub fn reply_named<R: Wait, S: Schemas, T: Transcode, G: Gate>(
    rt: &R,
    app: &App<'_, T>,
    schemas: &mut S,
    seat: &mut T::Seat,
    gate: &mut G,
    request: Result<Request, Fault>,
) -> Result<NamedReply<S::Seen>, AllocError>
    requires cells { T.cells app.now.transcoder.now ≡ S.cells schemas.old }
    requires registry { S.cells schemas.old ≡ app.now.registry.now }
    requires seat { T.rests app.now.transcoder.now seat.old }
    requires size { IfOk request (λ r. IsWithin MOST_BODY (request_of r)) }
    ensures seat { T.rests app.now.transcoder.now seat.new }
    ensures replied { IfOk result (λ reply. (input : Option (List ℕ)) → TellsRequest input request
        → IsNamedReply (IsWhyNone (T.refuses app.now.transcoder.now seat.old seat.new)
        (SaidNo G.says gate.old gate.new)) (S.cells schemas.old) (S.names schemas.old) (S.refuses schemas.old) input
        (reply.bytes.front.items ++ reply.bytes.rest.items) reply.status reply.sight) }
    ensures told { IfOk result (λ reply. (asked : Result Asked Fault) → Tells request_of request asked
        → IsNamedReplyTo (IsWhyNone (T.refuses app.now.transcoder.now seat.old seat.new)
        (SaidNo G.says gate.old gate.new)) (S.cells schemas.old) (S.names schemas.old) (S.refuses schemas.old) asked
        (reply.bytes.front.items ++ reply.bytes.rest.items) reply.status reply.sight) }
{
    let NamedTold { answer, sight } = answer_request(rt, app, schemas, seat, gate, request);
    let (bytes, status) = bytes_of(app.alloc, answer)?;
    Ok(NamedReply {
        bytes,
        status,
        sight,
    })
}
