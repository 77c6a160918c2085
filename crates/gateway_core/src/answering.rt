//! Requests and their answers, and the bytes of these before they are written.

ghost use Rattle.std.specs.Prelude.{◌++◌, ◌≡◌, ◌⊎◌, IfNone, IfOk, IfSome, List, Ok, Option, Result, string_bytes, ℕ};
ghost use Rattle.spec_registry.specs.Command.{Command as AnyCommand};
ghost use Rattle.schema_registry.specs.Command.{command_of};
ghost use Rattle.schema_registry.specs.Reply.{reply_of};
ghost use Rattle.spec_registry.specs.Receipt.{IsReceiptOf};
ghost use Rattle.spec_service.specs.Answer.{Refused};
ghost use Rattle.gateway_requests.specs.Answer.{answer_of};
ghost use Rattle.gateway_requests.specs.Request.{request_of};
ghost use Rattle.gateway_requests.specs.Sizes.{IsWithin};
ghost use Rattle.spec_service.specs.declared.limits.TheConstants.{MOST_BODY};
ghost use Rattle.spec_service.specs.Answering.{Fulfils, HasText, IsEvident, TellsClash, TellsId, TellsReply, TellsText};
ghost use Rattle.gateway_core.specs.Answering.{IsEntry, IsTold};
ghost use Rattle.gateway_core.specs.Gates.{SaidNo};
ghost use Rattle.gateway_core.specs.Replies.{SetsLevel};
ghost use Rattle.gateway_core.specs.Transcoding.{IsWhyNone};
ghost use Rattle.spec_service.specs.Request.{Request as Asked};
ghost use Rattle.gateway_requests.specs.Steps.{Tells};
ghost use Rattle.spec_service.specs.Serving.{IsAnswer, IsAnswerTo, IsReplied, IsReplyTo};
ghost use Rattle.gateway_core.specs.Serving.{IsTextOf, TellsRequest};

use crate::app::App;
use crate::gate::Gate;
use crate::messages::{MessageFor, tell_message};
use crate::replies::{fault_of, reply_text};
use crate::transcode::Transcode;
use gateway_requests::{Answer, AnswerBytes, Fault, Request, id_text, schema_text};
use schema_registry::{Command, Receipt, Reply as RegistryReply, SharedRegistry};
use spec_service::Evidence;
use std::alloc::{AllocError, Global};
use std::sync::Wait;

/// An answer, and the receipts that it rests on.
#[derive(Drop)]
pub(crate) struct Told {
    pub(crate) answer: Answer,
    pub(crate) evidence: Evidence<Receipt>,
}

/// Returns a fault as an answer, which rests on no receipt.
pub(crate) fn refused(fault: Fault) -> Told
    ensures evidence { result.evidence ≡ Evidence.Nothing }
    ensures answer { answer_of result.answer ≡ Refused fault }
{
    Told {
        answer: Answer::Fault(fault),
        evidence: Evidence::Nothing,
    }
}

/// Returns the receipt of an id whose schema has the given text. `None` where this thread sees no such schema.
fn receipt_of(registry: &SharedRegistry, id: u32, text: &str) -> Option<Receipt>
    ensures { IfSome result (λ receipt. IsReceiptOf registry.now receipt × (receipt.id ≡ id)
        × HasText receipt text.now) }
{
    let (schema, receipt) = registry.find(id)?;
    if schema.text() == text {
        Some(receipt)
    } else {
        None
    }
}

/// Returns the receipt that a reply rests on, where it shows a text beside an id. `None` where there should be one
/// and this thread sees none.
fn evidence_of(registry: &SharedRegistry, reply: &RegistryReply) -> Option<Evidence<Receipt>>
    ensures found { IfSome result (λ evidence. IsEvident registry.now (Ok (reply_of reply.now)) evidence) }
    ensures missing { IfNone result (IsEntry (reply_of reply.now)) }
{
    match reply {
        RegistryReply::Entry { id, text, .. } => match receipt_of(registry, *id, text.as_str()) {
            Some(receipt) => Some(Evidence::Shown(receipt)),
            None => None,
        },
        _ => Some(Evidence::Nothing),
    }
}

/// Returns a reply of the registry as an answer. `is_set` says that a level was set, and not asked for.
fn tell(
    alloc: Global,
    registry: &SharedRegistry,
    is_set: bool,
    reply: &RegistryReply,
) -> Result<Told, AllocError>
    ensures { (c : AnyCommand) → SetsLevel c is_set
        → IfOk result (λ told. IsTold registry.now c (reply_of reply.now) told.evidence (answer_of told.answer)) }
{
    match evidence_of(registry, reply) {
        Some(evidence) => {
            let answer = Answer::Reply(reply_text(alloc, is_set, reply)?);
            Ok(Told { answer, evidence })
        }
        None => Ok(refused(Fault::Clash)),
    }
}

/// Returns whether a command sets a level.
fn sets_level(command: &Command) -> bool
    ensures { SetsLevel (command_of command.now) result }
{
    match command {
        Command::SetLevel { .. } => true,
        _ => false,
    }
}

/// Returns the answer of the registry to a command that is no registration.
fn tell_reply<R: Wait>(
    rt: &R,
    alloc: Global,
    registry: &SharedRegistry,
    command: Command,
) -> Result<Told, AllocError>
    ensures { IfOk result (λ told. TellsReply registry.now (command_of command) told.evidence (answer_of told.answer)
        ⊎ TellsClash (command_of command) (answer_of told.answer)) }
{
    let is_set = sets_level(&command);
    match registry.apply(rt, command) {
        Ok(reply) => tell(alloc, registry, is_set, &reply),
        Err(refusal) => Ok(refused(fault_of(refusal))),
    }
}

/// Registers the schema of a text for a subject, and returns its id as an answer.
fn tell_id<R: Wait>(
    rt: &R,
    alloc: Global,
    registry: &SharedRegistry,
    subject: String,
    text: String,
) -> Result<Told, AllocError>
    ensures { IfOk result (λ told. TellsId registry.now (string_bytes subject) (string_bytes text) told.evidence
        (answer_of told.answer)) }
{
    match registry.register(rt, subject, text) {
        Ok((id, receipt)) => {
            let answer = Answer::Reply(id_text(alloc, id)?);
            let evidence = Evidence::Shown(receipt);
            Ok(Told { answer, evidence })
        }
        Err(refusal) => Ok(refused(fault_of(refusal))),
    }
}

/// Returns the text of the schema of an id as an answer.
fn tell_text(alloc: Global, registry: &SharedRegistry, id: u32) -> Result<Told, AllocError>
    ensures { IfOk result (λ told. (answer_of told.answer ≡ Refused Fault.NoSchema)
        ⊎ TellsText registry.now id told.evidence (answer_of told.answer)) }
{
    match registry.find(id) {
        Some((schema, receipt)) => {
            let answer = Answer::Reply(schema_text(alloc, schema.text())?);
            let evidence = Evidence::Shown(receipt);
            Ok(Told { answer, evidence })
        }
        None => Ok(refused(Fault::NoSchema)),
    }
}

/// Returns the answer to what is asked. The error is that memory ran out.
pub(crate) fn answer<R: Wait, T: Transcode, G: Gate>(
    rt: &R,
    app: &App<'_, T>,
    seat: &mut T::Seat,
    gate: &mut G,
    request: Request,
) -> Result<Told, AllocError>
    requires cells { T.cells app.now.transcoder.now ≡ app.now.registry.now }
    requires seat { T.rests app.now.transcoder.now seat.old }
    requires size { IsWithin MOST_BODY (request_of request) }
    ensures seat { T.rests app.now.transcoder.now seat.new }
    ensures fulfils { IfOk result (λ told. Fulfils (IsWhyNone (T.refuses app.now.transcoder.now seat.old seat.new)
        (SaidNo G.says gate.old gate.new)) app.now.registry.now (request_of request) told.evidence
        (answer_of told.answer)) }
{
    let alloc = app.alloc;
    match request {
        Request::Command(command) => tell_reply(rt, alloc, app.registry, command),
        Request::Registration { subject, text } => tell_id(rt, alloc, app.registry, subject, text),
        Request::Schema { id } => tell_text(alloc, app.registry, id),
        Request::Transcoding { reader, message } => {
            let asked = MessageFor { reader, message };
            Ok(tell_message(rt, app, seat, gate, asked))
        }
    }
}

/// An answer that is not yet written.
#[derive(Drop)]
pub struct Reply {
    pub bytes: AnswerBytes,
    pub status: u16,
    /// The receipts that the answer rests on.
    pub evidence: Evidence<Receipt>,
}

/// Returns the answer to a request, or to its fault.
fn answer_request<R: Wait, T: Transcode, G: Gate>(
    rt: &R,
    app: &App<'_, T>,
    seat: &mut T::Seat,
    gate: &mut G,
    request: Result<Request, Fault>,
) -> Told
    requires cells { T.cells app.now.transcoder.now ≡ app.now.registry.now }
    requires seat { T.rests app.now.transcoder.now seat.old }
    requires size { IfOk request (λ r. IsWithin MOST_BODY (request_of r)) }
    ensures seat { T.rests app.now.transcoder.now seat.new }
    ensures answers { (input : Option (List ℕ)) → TellsRequest input request
        → IsAnswer (IsWhyNone (T.refuses app.now.transcoder.now seat.old seat.new)
        (SaidNo G.says gate.old gate.new)) app.now.registry.now input result.evidence (answer_of result.answer) }
    ensures told { (asked : Result Asked Fault) → Tells request_of request asked
        → IsAnswerTo (IsWhyNone (T.refuses app.now.transcoder.now seat.old seat.new)
        (SaidNo G.says gate.old gate.new)) app.now.registry.now asked result.evidence (answer_of result.answer) }
{
    match request {
        Ok(request) => match answer(rt, app, seat, gate, request) {
            Ok(told) => told,
            Err(AllocError) => refused(Fault::NoMemory),
        },
        Err(fault) => refused(fault),
    }
}

/// Returns the bytes of an answer and its status, or where memory runs out those of the answer that says so.
pub(crate) fn bytes_of(alloc: Global, answer: Answer) -> Result<(AnswerBytes, u16), AllocError>
    ensures { IfOk result (λ text. IsTextOf (answer_of answer) (text.0.front.items ++ text.0.rest.items) text.1) }
{
    let status = answer.status().number();
    match answer.into_bytes(alloc) {
        Ok(bytes) => Ok((bytes, status)),
        Err(AllocError) => {
            let refusal = Answer::Fault(Fault::NoMemory);
            let status = refusal.status().number();
            Ok((refusal.into_bytes(alloc)?, status))
        }
    }
}

/// Returns the reply to what the bytes of a request asked, or to the first of their faults, whoever received them. It
/// is an error where even the answer that memory ran out found no memory.
pub fn reply_to<R: Wait, T: Transcode, G: Gate>(
    rt: &R,
    app: &App<'_, T>,
    seat: &mut T::Seat,
    gate: &mut G,
    request: Result<Request, Fault>,
) -> Result<Reply, AllocError>
    requires cells { T.cells app.now.transcoder.now ≡ app.now.registry.now }
    requires seat { T.rests app.now.transcoder.now seat.old }
    requires size { IfOk request (λ r. IsWithin MOST_BODY (request_of r)) }
    ensures seat { T.rests app.now.transcoder.now seat.new }
    ensures replied { IfOk result (λ reply. (input : Option (List ℕ)) → TellsRequest input request
        → IsReplied (IsWhyNone (T.refuses app.now.transcoder.now seat.old seat.new)
        (SaidNo G.says gate.old gate.new)) app.now.registry.now input
        (reply.bytes.front.items ++ reply.bytes.rest.items) reply.status reply.evidence) }
    ensures told { IfOk result (λ reply. (asked : Result Asked Fault) → Tells request_of request asked
        → IsReplyTo (IsWhyNone (T.refuses app.now.transcoder.now seat.old seat.new)
        (SaidNo G.says gate.old gate.new)) app.now.registry.now asked
        (reply.bytes.front.items ++ reply.bytes.rest.items) reply.status reply.evidence) }
{
    let Told { answer, evidence } = answer_request(rt, app, seat, gate, request);
    let (bytes, status) = bytes_of(app.alloc, answer)?;
    Ok(Reply {
        bytes,
        status,
        evidence,
    })
}
