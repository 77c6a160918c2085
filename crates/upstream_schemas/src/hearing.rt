//! What the upstream registry answers for an id.

ghost use Rattle.std.specs.Prelude.{◌≡◌, ◌≢◌, Err, Ok, IfErr, IfOk, string_bytes, true, ℕ};
ghost use Rattle.upstream_answers.specs.Content.{is_unknown};
ghost use Rattle.spec_service.specs.UpstreamContent.{schema_text};
ghost use Rattle.upstream_schemas.specs.Asking.{IsWhyUnheld};
ghost use Rattle.spec_service.specs.UpstreamNaming.{IsTextOf, WasAnswered};

use crate::upstream::{ExchangeFault, Upstream};
use gateway_requests::{Fault, UpstreamFault};
use std::alloc::{AllocError, Global};
use upstream_answers::{
    AnswerFault, ContentFault, Place, UpstreamAnswer, is_unknown, parse_answer, question_of,
    schema_in,
};

/// The status of an answer that has what was asked for (RFC 9110, section 15.3.1).
const OK: u16 = 200;

/// The status of an answer that there is no such thing (RFC 9110, section 15.5.5).
const NOT_FOUND: u16 = 404;

/// Returns the fault that an exchange without an answer comes to.
fn fault_of<U: Upstream>(fault: ExchangeFault) -> Fault
    ensures { (id : ℕ) → IsWhyUnheld U.heard U.kept id result }
{
    match fault {
        ExchangeFault::Unreached => Fault::Upstream(UpstreamFault::Unreached),
        ExchangeFault::Late => Fault::Upstream(UpstreamFault::Late),
        ExchangeFault::Closed | ExchangeFault::BadAnswer => {
            Fault::Upstream(UpstreamFault::BadAnswer)
        }
        ExchangeFault::NoMemory => Fault::NoMemory,
    }
}

/// Sends a question, and once more where the connection was closed before any byte came. Returns the bytes that were
/// received for it.
fn exchange<U: Upstream>(upstream: &U, question: &str) -> Result<Vec<u8>, ExchangeFault>
    ensures { IfOk result (λ received. U.heard question.now received.items) }
{
    match upstream.exchange(question) {
        Err(ExchangeFault::Closed) => upstream.exchange(question),
        first => first,
    }
}

/// Asks the upstream registry for the schema of an id. Returns what it answered.
fn answer_for<U: Upstream>(
    alloc: Global,
    upstream: &U,
    place: &Place,
    id: u32,
) -> Result<UpstreamAnswer, Fault>
    ensures answer { IfOk result (λ a. WasAnswered U.heard U.kept id a.status a.content.items) }
    ensures why { IfErr result (IsWhyUnheld U.heard U.kept id) }
{
    let question = question_of(alloc, place, id)?;
    match exchange(upstream, &question) {
        Ok(received) => match parse_answer(alloc, &received) {
            Ok(answer) => Ok(answer),
            Err(AnswerFault::NoMemory) => Err(Fault::NoMemory),
            Err(_) => Err(Fault::Upstream(UpstreamFault::BadAnswer)),
        },
        Err(fault) => Err(fault_of::<U>(fault)),
    }
}

/// Returns the text of the schema in the content of an answer that has it.
fn text_in(alloc: Global, content: &[u8]) -> Result<String, ContentFault>
    ensures text { IfOk result (λ text. schema_text content.now ≡ Ok (string_bytes text)) }
    ensures why { IfErr result (λ e. e ≢ ContentFault.NoMemory → schema_text content.now ≡ Err e) }
{
    schema_in(alloc, content)
}

/// Returns the fault of an answer that has no schema: that there is none where the answer is one of the API that says
/// so.
fn fault_in<U: Upstream>(alloc: Global, answer: &UpstreamAnswer) -> Fault
    ensures { (id : ℕ) → WasAnswered U.heard U.kept id answer.now.status answer.now.content.items
        → IsWhyUnheld U.heard U.kept id result }
{
    if answer.status == NOT_FOUND {
        match is_unknown(alloc, &answer.content) {
            Ok(true) => return Fault::NoSchema,
            Ok(false) => {}
            Err(AllocError) => return Fault::NoMemory,
        }
    }
    Fault::Upstream(UpstreamFault::BadAnswer)
}

/// Asks the upstream registry for the schema of an id. Returns the schema's text as it answered it.
pub(crate) fn hear<U: Upstream>(
    alloc: Global,
    upstream: &U,
    place: &Place,
    id: u32,
) -> Result<String, Fault>
    ensures text { IfOk result (λ text. IsTextOf U.heard U.kept id (string_bytes text)) }
    ensures why { IfErr result (IsWhyUnheld U.heard U.kept id) }
{
    let answer = answer_for(alloc, upstream, place, id)?;
    if answer.status != OK {
        return Err(fault_in::<U>(alloc, &answer));
    }
    match text_in(alloc, &answer.content) {
        Ok(text) => Ok(text),
        Err(ContentFault::NotAvro) => Err(Fault::NotAvro),
        Err(ContentFault::HasReferences) => Err(Fault::HasReferences),
        Err(ContentFault::NoMemory) => Err(Fault::NoMemory),
        Err(ContentFault::NoJson | ContentFault::NoSchema) => {
            Err(Fault::Upstream(UpstreamFault::BadAnswer))
        }
    }
}
