//! A request that is received part by part: what is known of it while its bytes come, and what the bytes of its head
//! say.

ghost use Rattle.std.specs.Prelude.{◌++◌, ◌<◌, ◌≡◌, ◌≤◌, IfOk, List, OnErr, [], drop, false, length, option_map, take, true, vec_len, ℕ};
ghost use Rattle.std.specs.Io.KnownBytes.{Keeps};
ghost use Rattle.wire_frames.specs.Moving.{Receives};
ghost use Rattle.spec_service.specs.Asking.{body_in};
ghost use Rattle.gateway_requests.specs.Request.{request_of};
ghost use Rattle.gateway_requests.specs.Sizes.{IsWithin};
ghost use Rattle.spec_service.specs.declared.limits.TheConstants.{MOST_BODY, MOST_FIELDS, MOST_HEAD};
ghost use Rattle.gateway_requests.specs.Reception.{TellsEach, TellsWhole};
ghost use Rattle.httparse.specs.Grammar.{RequestHead};
ghost use Rattle.httparse.specs.Spans.{IsRequestAt, IsRequestWithin};
ghost use Rattle.gateway_requests.specs.Stages.{IsAfterHead, IsBodyStage, Stands, follows};

use crate::{
    Action, Chosen, Fault, MOST_FIELDS, MOST_HEAD, Request, Routes, choose, path_of, request_of,
    transcoding_of,
};
use httparse::Status;
use httparse::spans::{EMPTY_HEADER_SPAN, HeaderSpan, RequestSpans, Span, parse_request};
use std::alloc::{AllocError, Global};
use std::io;
use std::io::Read;
use std::marker::Model;
use wire_frames::{Message, read_more};

/// A request that is received part by part. Callers see it as the bytes that have come, and whether no more are needed.
#[derive(Drop)]
pub struct Reception {
    alloc: Global,
    /// The bytes of the head; before that is whole, and where the request is refused, all that came.
    head: Vec<u8>,
    stage: Stage,
}

impl Model for Reception {
    ghost use Rattle.std.specs.Prelude.{◌++◌};
    ghost use Rattle.gateway_requests.specs.Reception.{Received};
    ghost use Rattle.gateway_requests.specs.Stages.{Stands, follows, is_whole};

    ghost Value = { Received };

    ghost view = { λ r. record { bytes = r.head.items ++ follows r.stage; is_whole = is_whole r.stage } };

    ghost invariant = { λ r. Stands r.head.items r.stage };
}

/// Returns the first bytes of a body, as many as its length says. `None` where fewer have come.
fn whole_text(body: Vec<u8>, length: usize) -> Option<Vec<u8>>
    ensures { option_map (λ b. b.items) result ≡ body_in length body.items }
{
    let mut body = body;
    if body.len() < length {
        return None;
    }
    body.truncate(length);
    Some(body)
}

/// Returns the first bytes of a message, as many as its length says. `None` where fewer have come.
fn whole_message(message: Message, length: usize) -> Option<Message>
    ensures { result ≡ body_in length message }
{
    let mut message = message;
    if message.len() < length {
        return None;
    }
    message.truncate(length);
    Some(message)
}

impl Reception {
    /// Returns a request of which nothing has come.
    pub fn new(alloc: Global) -> Reception
        ensures { result ≡ record { bytes = []; is_whole = false } }
    {
        Reception {
            alloc,
            head: Vec::new(alloc),
            stage: Stage::Head,
        }
    }

    /// Returns the bytes of the head; before that is whole, and where the request is refused, all that came.
    pub fn head(&self) -> &[u8]
        ensures { (rest : List ℕ) × (self.now.bytes ≡ result.now ++ rest) }
    {
        &self.head
    }

    /// Returns the number of bytes that are held. No clause speaks of it: it decides how many requests are kept.
    pub fn held(&self) -> usize {
        self.head.len().saturating_add(self.stage.following())
    }

    /// Returns whether no byte has come. No clause speaks of it: it decides whether there is anything to answer.
    pub fn is_empty(&self) -> bool {
        self.head.is_empty()
    }

    /// Returns whether no more bytes are needed: all have come, or those that came are refused, whatever follows.
    pub fn is_whole(&self) -> bool
        ensures { result ≡ self.now.is_whole }
    {
        self.stage.is_whole()
    }

    /// Returns whether the head is whole, or the request is refused.
    pub fn has_head(&self) -> bool {
        !matches!(self.stage, Stage::Head)
    }

    /// Returns whether the whole request has come, and no byte after it. No clause speaks of it: it decides how a
    /// connection is closed.
    pub fn is_even(&self) -> bool {
        self.stage.is_even()
    }

    /// Reads once: returns the number of bytes that came, 0 only where the reader has ended. Not more is read than the
    /// limit of a head, and, once the head is whole, than the body's length. What is held at most doubles.
    ///
    /// The errors are the reader's, and `OutOfMemory` where memory is wanting; then what came before is as it was.
    pub fn receive<R: Read>(&mut self, routes: &Routes, reader: &mut R) -> io::Result<usize>
        requires { self.old.is_whole ≡ false }
        ensures received { IfOk result
            (Receives (R.remaining reader.old) (R.remaining reader.new) self.old.bytes self.new.bytes) }
        ensures refused { OnErr result (self.new ≡ self.old) }
        ensures kept { OnErr result (Keeps (R.remaining reader.old) (R.remaining reader.new)) }
    {
        match &mut self.stage {
            Stage::Head => {
                let count = read_more(reader, &mut self.head, MOST_HEAD)?;
                self.stage = stage_of(self.alloc, routes, &mut self.head);
                Ok(count)
            }
            Stage::Text { headed, body } => read_more(reader, body, headed.chosen.body_length),
            Stage::Message { headed, message } => {
                message.receive(reader, headed.chosen.body_length)
            }
            Stage::Refused(_) => unreachable!(),
        }
    }

    /// Returns what the request asks, or its first fault: of a request that is whole whatever would follow, and of
    /// another one, of which some bytes have come, where nothing follows.
    pub fn into_request(self) -> Result<Request, Fault>
        ensures whole { self.is_whole ≡ true → TellsEach self.bytes result }
        ensures ended { 0 < length self.bytes → TellsWhole self.bytes result }
        ensures size { IfOk result (λ request. IsWithin MOST_BODY (request_of request)) }
    {
        let Reception { alloc, head, stage } = self;
        match stage {
            Stage::Head => Err(Fault::BadRequest),
            Stage::Text { headed, body } => {
                let path = path_of(headed.target.of(&head)).as_bytes();
                let body = whole_text(body, headed.chosen.body_length);
                request_of(alloc, path, body, headed.chosen.action)
            }
            Stage::Message { headed, message } => {
                let path = path_of(headed.target.of(&head)).as_bytes();
                let message = whole_message(message, headed.chosen.body_length);
                transcoding_of(path, message)
            }
            Stage::Refused(fault) => Err(fault),
        }
    }
}

/// What a whole head says.
#[derive(Clone, Copy, Debug, PartialEq, Eq)]
pub(crate) struct Headed {
    /// Where the request target lies in the head.
    pub(crate) target: Span,
    pub(crate) chosen: Chosen,
}

/// What is known of a request while its bytes come.
#[derive(Drop)]
pub(crate) enum Stage {
    /// Its head is not whole.
    Head,
    /// Its head is whole, and bytes of its body have come, which is JSON or empty.
    Text { headed: Headed, body: Vec<u8> },
    /// Its head is whole, and bytes of its body have come, which is a message.
    Message { headed: Headed, message: Message },
    /// It is refused, whatever follows.
    Refused(Fault),
}

impl Stage {
    ghost use Rattle.std.specs.Prelude.{◌≡◌, length};
    ghost use Rattle.gateway_requests.specs.Stages.{follows, is_refused, is_whole};

    /// Returns the number of bytes that came after the head.
    pub(crate) fn following(&self) -> usize
        ensures { result ≡ length (follows self.now) }
    {
        match self {
            Stage::Text { body, .. } => body.len(),
            Stage::Message { message, .. } => message.len(),
            Stage::Head | Stage::Refused(_) => 0,
        }
    }

    /// Returns whether the request is refused, whatever follows.
    pub(crate) fn is_refused(&self) -> bool
        ensures { result ≡ is_refused self.now }
    {
        matches!(self, Stage::Refused(_))
    }

    /// Returns whether all of a body has come, and no byte after it.
    pub(crate) fn is_even(&self) -> bool {
        match self {
            Stage::Text { headed, body } => headed.chosen.body_length == body.len(),
            Stage::Message { headed, message } => headed.chosen.body_length == message.len(),
            Stage::Head | Stage::Refused(_) => false,
        }
    }

    /// Returns whether no more bytes are needed.
    pub(crate) fn is_whole(&self) -> bool
        ensures { result ≡ is_whole self.now }
    {
        match self {
            Stage::Head => false,
            Stage::Text { headed, body } => headed.chosen.body_length <= body.len(),
            Stage::Message { headed, message } => headed.chosen.body_length <= message.len(),
            Stage::Refused(_) => true,
        }
    }
}

/// Returns the stage of a request whose head is whole, with the bytes that came after the head. The error is want of
/// memory for these.
fn body_stage(alloc: Global, headed: Headed, body: &[u8]) -> Result<Stage, AllocError>
    ensures { IfOk result (IsBodyStage headed body.now) }
{
    match headed.chosen.action {
        Action::Transcode => {
            let message = Message::of(alloc, body)?;
            Ok(Stage::Message { headed, message })
        }
        _ => {
            let body = body.to_vec(alloc)?;
            Ok(Stage::Text { headed, body })
        }
    }
}

/// Returns the stage of bytes that begin with a whole head, whose parts lie where the spans say.
fn stage_after_head(
    alloc: Global,
    routes: &Routes,
    bytes: &[u8],
    headers: &[HeaderSpan],
    head: &RequestSpans,
) -> Stage
    requires head { (h : RequestHead) × IsRequestAt bytes.now headers.now head.now h }
    requires within { IsRequestWithin bytes.now headers.now head.now }
    requires few { length bytes.now ≤ MOST_HEAD }
    requires fields { length headers.now ≡ MOST_FIELDS }
    ensures { IsAfterHead head.now.len bytes.now result }
{
    let chosen = match choose(routes, bytes, headers, head) {
        Ok(chosen) => chosen,
        Err(fault) => return Stage::Refused(fault),
    };
    let headed = Headed {
        target: head.path,
        chosen,
    };
    match body_stage(alloc, headed, &bytes[head.len..]) {
        Ok(stage) => stage,
        Err(AllocError) => Stage::Refused(Fault::NoMemory),
    }
}

/// Returns the stage of a request of which these bytes have come. Where its head is whole, what came after the head is
/// moved from the bytes into the stage.
pub(crate) fn stage_of(alloc: Global, routes: &Routes, bytes: &mut Vec<u8>) -> Stage
    requires { vec_len bytes.old ≤ MOST_HEAD }
    ensures bytes { bytes.new.items ++ follows result ≡ bytes.old.items }
    ensures stands { Stands bytes.new.items result }
{
    let mut headers: [HeaderSpan; MOST_FIELDS] = [EMPTY_HEADER_SPAN; MOST_FIELDS];
    match parse_request(bytes, &mut headers) {
        Ok(Status::Complete(head)) => {
            let stage = stage_after_head(alloc, routes, bytes, &headers, &head);
            if stage.is_refused() {
                return stage;
            }
            bytes.truncate(head.len);
            stage
        }
        Ok(Status::Partial) if bytes.len() < MOST_HEAD => Stage::Head,
        Ok(Status::Partial) => Stage::Refused(Fault::BadRequest),
        Err(_) => Stage::Refused(Fault::BadRequest),
    }
}
