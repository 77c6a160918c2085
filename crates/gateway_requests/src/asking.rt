//! What a request asks for: the action, by its head, and the rest, by its path and its body.

ghost use Rattle.std.specs.Prelude.{◌≡◌, ◌≤◌, IfOk, option_map, string_bytes};
ghost use Rattle.schema_registry.specs.Command.{command_of};
ghost use Rattle.spec_service.specs.Asking.{action_at, asked_for, chosen, question, setting};
ghost use Rattle.gateway_requests.specs.Request.{request_of};
ghost use Rattle.gateway_requests.specs.Sizes.{IsWithin, size_of};
ghost use Rattle.gateway_requests.specs.Steps.{Tells};
ghost use Rattle.httparse.specs.Grammar.{RequestHead};
ghost use Rattle.httparse.specs.Spans.{IsRequestAt, IsRequestWithin};

use crate::json_body::{level_of, text_of, whole_body};
use crate::limits::MOST_BODY;
use crate::request::Request;
use crate::route::{Action, Routes, action_of, id_of, path_of, segment, subject_of, version_of};
use crate::{Fault, content_length};
use httparse::spans::{HeaderSpan, RequestSpans};
use schema_registry::Command;
pub use spec_service::Chosen;
use std::alloc::{AllocError, Global};
use wire_frames::Message;

/// Returns what an action asks for, by the path and the body, which is `None` where it was cut short. The error is the
/// first fault of these.
pub fn request_of(
    alloc: Global,
    path: &[u8],
    body: Option<Vec<u8>>,
    action: Action,
) -> Result<Request, Fault>
    ensures tells { Tells request_of result (asked_for path.now (option_map (λ b. b.items) body) action) }
    ensures size { IfOk result (λ request.
        IsWithin (size_of (option_map (λ b. b.items) body)) (request_of request)) }
{
    let bytes = body.as_deref();
    match action {
        Action::ListSubjects => question_of(bytes, Command::Subjects),
        Action::Lookup => lookup_of(alloc, path, bytes),
        Action::ListVersions => {
            let subject = subject_of(alloc, segment(2, path))?;
            question_of(bytes, Command::Versions { subject })
        }
        Action::Register => registration_of(alloc, path, bytes),
        Action::ShowVersion => {
            let subject = subject_of(alloc, segment(2, path))?;
            let version = version_of(segment(4, path))?;
            question_of(bytes, Command::Version { subject, version })
        }
        Action::ShowSchema => {
            whole_body(bytes)?;
            let id = id_of(segment(3, path))?;
            Ok(Request::Schema { id })
        }
        Action::Check => check_of(alloc, path, bytes),
        Action::ShowLevel => question_of(bytes, Command::Level { subject: None }),
        Action::SetLevel => setting_of(alloc, None, bytes),
        Action::ShowSubjectLevel => {
            let subject = Some(subject_of(alloc, segment(2, path))?);
            question_of(bytes, Command::Level { subject })
        }
        Action::SetSubjectLevel => {
            let subject = Some(subject_of(alloc, segment(2, path))?);
            setting_of(alloc, subject, bytes)
        }
        Action::Transcode => transcoding_of(path, message_of(alloc, bytes)?),
    }
}

/// Returns a command whose request needs no body, as a request; the error is that the body it has was cut short.
fn question_of(body: Option<&[u8]>, command: Command) -> Result<Request, Fault>
    ensures tells { Tells request_of result (question (option_map (λ b. b.now) body.entry) (command_of command)) }
    ensures size { IfOk result (λ request. IsWithin 0 (request_of request)) }
{
    whole_body(body)?;
    Ok(Request::Command(command))
}

/// Returns the request that asks for the version of a subject that has the schema in the body.
fn lookup_of(alloc: Global, path: &[u8], body: Option<&[u8]>) -> Result<Request, Fault>
    ensures tells { Tells request_of result (asked_for path.now (option_map (λ b. b.now) body.entry) Action.Lookup) }
    ensures size { IfOk result (λ request. IsWithin 0 (request_of request)) }
{
    let subject = subject_of(alloc, segment(2, path))?;
    let text = text_of(alloc, body)?;
    Ok(Request::Command(Command::Lookup { subject, text }))
}

/// Returns the request that registers the schema in the body for a subject.
fn registration_of(alloc: Global, path: &[u8], body: Option<&[u8]>) -> Result<Request, Fault>
    ensures tells { Tells request_of result (asked_for path.now (option_map (λ b. b.now) body.entry) Action.Register) }
    ensures size { IfOk result (λ request. IsWithin 0 (request_of request)) }
{
    let subject = subject_of(alloc, segment(2, path))?;
    let text = text_of(alloc, body)?;
    Ok(Request::Registration { subject, text })
}

/// Returns the request that sets the level in the body for a subject, or for those that have none of their own.
fn setting_of(alloc: Global, subject: Option<String>, body: Option<&[u8]>) -> Result<Request, Fault>
    ensures tells { Tells request_of result (setting (option_map (λ b. b.now) body.entry)
        (option_map string_bytes subject)) }
    ensures size { IfOk result (λ request. IsWithin 0 (request_of request)) }
{
    let level = level_of(alloc, body)?;
    Ok(Request::Command(Command::SetLevel { subject, level }))
}

/// Returns the request that asks whether the schema in the body goes with a version of a subject.
fn check_of(alloc: Global, path: &[u8], body: Option<&[u8]>) -> Result<Request, Fault>
    ensures tells { Tells request_of result (asked_for path.now (option_map (λ b. b.now) body.entry) Action.Check) }
    ensures size { IfOk result (λ request. IsWithin 0 (request_of request)) }
{
    let subject = subject_of(alloc, segment(3, path))?;
    let version = version_of(segment(5, path))?;
    let text = text_of(alloc, body)?;
    Ok(Request::Command(Command::Check {
        subject,
        version,
        text,
    }))
}

/// Returns the body as a message. `None` where it was cut short; the error is that memory ran out.
fn message_of(alloc: Global, body: Option<&[u8]>) -> Result<Option<Message>, AllocError>
    ensures { IfOk result (λ message. message ≡ option_map (λ b. b.now) body.entry) }
{
    match body {
        Some(bytes) => Ok(Some(Message::of(alloc, bytes)?)),
        None => Ok(None),
    }
}

/// Returns what a path of a transcoding asks for, by the message that is the body, which is `None` where it was cut
/// short. The error is the first fault of these.
pub fn transcoding_of(path: &[u8], message: Option<Message>) -> Result<Request, Fault>
    ensures tells { Tells request_of result (asked_for path.now message Action.Transcode) }
    ensures size { IfOk result (λ request. IsWithin (size_of message) (request_of request)) }
{
    let Some(message) = message else {
        return Err(Fault::BadRequest);
    };
    let reader = id_of(segment(2, path))?;
    Ok(Request::Transcoding { reader, message })
}

/// Returns what a method asks for at a target; or the first fault of its route and its method.
pub fn action_at(routes: &Routes, method: &[u8], target: &str) -> Result<Action, Fault>
    ensures { result ≡ action_at method.now target.now }
{
    let Some(route) = routes.find(path_of(target.as_bytes())) else {
        return Err(Fault::NoRoute);
    };
    match action_of(route, method) {
        Some(action) => Ok(action),
        None => Err(Fault::NotAllowed),
    }
}

/// Returns what a head asks for, whose parts are in `bytes` where the spans say; or the first fault of its length,
/// its route, its method and the body's size.
pub fn choose(
    routes: &Routes,
    bytes: &[u8],
    headers: &[HeaderSpan],
    head: &RequestSpans,
) -> Result<Chosen, Fault>
    requires head { (h : RequestHead) × IsRequestAt bytes.now headers.now head.now h }
    requires within { IsRequestWithin bytes.now headers.now head.now }
    ensures chosen { (h : RequestHead) → IsRequestAt bytes.now headers.now head.now h → chosen h ≡ result }
    ensures size { IfOk result (λ chosen. chosen.body_length ≤ MOST_BODY) }
{
    let fields = &headers[..head.headers];
    let Some(length) = content_length(bytes, fields, MOST_BODY as u64 + 1) else {
        return Err(Fault::BadRequest);
    };
    let Some(route) = routes.find(path_of(head.path.of(bytes))) else {
        return Err(Fault::NoRoute);
    };
    let Some(action) = action_of(route, head.method.of(bytes)) else {
        return Err(Fault::NotAllowed);
    };
    if length > MOST_BODY as u64 {
        return Err(Fault::TooLarge);
    }
    Ok(Chosen {
        action,
        body_length: length as usize,
    })
}
