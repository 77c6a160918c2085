//! The requests of a connection that stays, one after another, and their answers.

ghost use Rattle.std.specs.Prelude.{◌≡◌, IfErr, IfOk, IfSome, OnOk};
ghost use Rattle.gateway_requests.specs.Exchange.{Gains};
ghost use Rattle.http_server.specs.History.{IsServed};
ghost use Rattle.spec_service.specs.StreamAnswering.{AnswersNext, CallsFor, IsNext};
ghost use Rattle.persistent_exchange.specs.Persistent.{Writes, sent};
ghost use Rattle.spec_service.specs.Persistent.{received};
ghost use Rattle.spec_service.specs.Preparing.{answer_of};
ghost use Rattle.spec_service.specs.StreamRefused.{IsRefused};
ghost use Rattle.spec_service.specs.Stream.{Asked, asked_of};

use crate::closing::closing_fault;
use crate::exchange::PersistentExchange;
use crate::prepared::Prepared;
use crate::scout::{Refusal, Sighting};
use crate::whole_request::WholeRequest;
use gateway_requests::{AnswerBytes, Fault, MOST_BODY, MOST_HEAD, Progress, Routes, action_at};
use http_server::Config;
use http1::Limits;
use httpdate::HttpDate;
use std::alloc::{AllocError, Global};
use std::hash::RandomState;
use std::io::{ErrorKind, Read, Write};
use std::marker::Model;
use std::str;

/// The number of looks, or of writes, after which others have their turn.
const TURN: u32 = 256;

/// The number of bytes of an answer that may wait to be sent while the next request is read: none is read meanwhile.
const MOST_PENDING: usize = 0;

/// The number of bytes of the largest content whose memory is kept for the next request.
const LARGE: usize = 65_536;

/// How far the requests of a connection have come in a turn.
#[derive(Clone, Copy, Debug, PartialEq, Eq)]
pub enum Course {
    /// A request has come whole, and is to be answered.
    Asked,
    /// Something is to be sent before more is read.
    Pending,
    /// The peer has sent no more yet.
    Blocked,
    /// The turn is over, and there may be more.
    Ready,
    /// The last answer was sent, or the peer has ended between two requests.
    Over,
    /// The connection failed, or memory runs out.
    Failed,
}

/// The requests of a connection that stays, one after another, and their answers. Callers see it as its bytes.
#[derive(Drop)]
pub struct RequestStream {
    alloc: Global,
    keys: RandomState,
    exchange: PersistentExchange,
    /// Whether a head was seen whose request has not ended.
    is_within: bool,
    /// The fault that the last answer says, where the connection is closed for it.
    fault: Option<Fault>,
    /// Whether memory ran out for what would come.
    is_failed: bool,
    /// The number of bytes that were received of the request that comes, and of what follows it.
    received: usize,
    /// The number of bytes that were sent since the last request ended.
    sent: usize,
    /// The number of bytes of the largest content since the connection's memory was released.
    largest: usize,
    /// The number of bytes of the answer that is sent.
    answer: usize,
}

impl Model for RequestStream {
    ghost use Rattle.spec_service.specs.Persistent.{Persistent};

    ghost Value = { Persistent };

    ghost view = { λ s. s.exchange };
}

/// Returns the limits of a connection: those of a request that is the only one of its connection.
fn config() -> Config {
    Config {
        limits: Limits {
            max_head_len: MOST_HEAD,
            ..Limits::default()
        },
        max_body_len: MOST_BODY,
        max_pending: MOST_PENDING,
        ..Config::default()
    }
}

/// Returns the fault that a refusal comes to.
fn fault_of(refusal: Refusal) -> Fault {
    match refusal {
        Refusal::Unreadable(_) => Fault::BadRequest,
        Refusal::TooLarge => Fault::TooLarge,
        Refusal::NoMemory => Fault::NoMemory,
    }
}

impl RequestStream {
    /// Returns a connection over which nothing has come. The keys are secret: the peer chooses the names of fields.
    pub fn new(alloc: Global, keys: RandomState) -> RequestStream {
        RequestStream {
            alloc,
            keys,
            exchange: PersistentExchange::new(alloc, keys, config()),
            is_within: false,
            fault: None,
            is_failed: false,
            received: 0,
            sent: 0,
            largest: 0,
            answer: 0,
        }
    }

    /// Returns whether nothing has come since the last answer.
    pub fn is_idle(&self) -> bool {
        !self.is_within && self.exchange.unseen() == 0
    }

    /// Returns whether a head was seen whose request has not ended.
    pub fn is_within(&self) -> bool {
        self.is_within
    }

    /// Returns the number of bytes that are held. No clause speaks of it: it decides which connections are closed.
    pub fn weight(&self) -> usize {
        self.exchange.weight().saturating_add(self.answer)
    }

    /// Returns whether the last read took all that had come.
    pub fn is_drained(&self) -> bool {
        self.exchange.is_drained()
    }

    /// Returns the number of bytes that were received of the request that ended last, or that is refused.
    pub fn received(&self) -> usize {
        self.received.saturating_sub(self.exchange.unseen())
    }

    /// Returns the number of bytes that were sent since the last request ended.
    pub fn sent(&self) -> usize {
        self.sent
    }

    /// Returns the fault for which the connection is closed. `None` where it is closed for none.
    pub fn fault(&self) -> Option<Fault> {
        self.fault
    }

    /// Returns the method and the target of the head that was seen last.
    pub fn head(&self) -> (&[u8], &[u8]) {
        let scout = self.exchange.scout();
        (scout.method(), scout.target())
    }

    /// Returns the first fault of the head that was seen last. `None` where it has none.
    fn head_fault(&self, routes: &Routes) -> Option<Fault> {
        let scout = self.exchange.scout();
        let Ok(target) = str::from_utf8(scout.target()) else {
            return Some(Fault::BadRequest);
        };
        if let Err(fault) = action_at(routes, scout.method(), target) {
            return Some(fault);
        }
        if scout.has_codings() {
            return Some(Fault::UnknownCoding);
        }
        None
    }

    /// Sends a fault as the last answer, after all that is pending, and reads no more.
    fn refuse(&mut self, fault: Fault, date: Option<HttpDate>)
        ensures received { received self.new ≡ received self.old }
        ensures sent { sent self.new ≡ sent self.old }
    {
        let is_head = self.exchange.scout().method() == "HEAD".as_bytes();
        self.fault = Some(fault);
        match closing_fault(self.alloc, fault, date, is_head) {
            Ok(bytes) => self.exchange.end_with(bytes),
            Err(AllocError) => self.is_failed = true,
        }
    }

    /// Hands on what was seen.
    fn pass_on(&mut self)
        ensures received { received self.new ≡ received self.old }
        ensures sent { sent self.new ≡ sent self.old }
    {
        if self.exchange.pass_on().is_err() {
            self.is_failed = true;
        }
    }

    /// Handles what was seen next. Returns how far the requests have come; `None` where they go on.
    fn see_to(
        &mut self,
        routes: &Routes,
        found: Result<Sighting, Refusal>,
        date: Option<HttpDate>,
    ) -> Option<Course>
        ensures received { received self.new ≡ received self.old }
        ensures sent { sent self.new ≡ sent self.old }
    {
        match found {
            Ok(Sighting::Head) => {
                self.is_within = true;
                match self.head_fault(routes) {
                    Some(fault) => self.refuse(fault, date),
                    None => self.pass_on(),
                }
            }
            Ok(Sighting::Piece) => self.pass_on(),
            Ok(Sighting::End) => return Some(Course::Asked),
            Ok(Sighting::Over) => return Some(Course::Over),
            Ok(Sighting::Nothing) => {}
            Err(Refusal::TooLarge) => {
                let fault = self.head_fault(routes).unwrap_or(Fault::TooLarge);
                self.refuse(fault, date);
            }
            Err(refusal) => self.refuse(fault_of(refusal), date),
        }
        None
    }

    /// Reads once. Returns how far the requests have come; `None` where they go on.
    fn read<R: Read>(&mut self, reader: &mut R, date: Option<HttpDate>) -> Option<Course>
        ensures received { Gains (R.remaining reader.old) (R.remaining reader.new)
            (received self.old) (received self.new) }
        ensures sent { sent self.new ≡ sent self.old }
    {
        match self.exchange.receive(reader) {
            Ok(0) if self.is_idle() => Some(Course::Over),
            Ok(0) => {
                self.refuse(Fault::BadRequest, date);
                None
            }
            Ok(count) => {
                self.received = self.received.saturating_add(count);
                None
            }
            Err(error) => match error.kind() {
                ErrorKind::Interrupted => None,
                ErrorKind::WouldBlock => Some(Course::Blocked),
                _ => Some(Course::Failed),
            },
        }
    }

    /// Looks at what came, and reads once where that is no part of a request. Returns how far the requests have come;
    /// `None` where they go on.
    fn step<R: Read>(
        &mut self,
        routes: &Routes,
        reader: &mut R,
        date: Option<HttpDate>,
    ) -> Option<Course>
        ensures received { Gains (R.remaining reader.old) (R.remaining reader.new)
            (received self.old) (received self.new) }
        ensures sent { sent self.new ≡ sent self.old }
    {
        if self.is_failed {
            return Some(Course::Failed);
        }
        if self.exchange.wants_write() {
            return Some(Course::Pending);
        }
        if self.exchange.is_done() {
            return Some(Course::Over);
        }
        match self.exchange.look() {
            Ok(Sighting::Nothing) => self.read(reader, date),
            found => self.see_to(routes, found, date),
        }
    }

    /// Reads what has come of the next request, in several steps. Returns how far that has come.
    pub fn receive<R: Read>(
        &mut self,
        routes: &Routes,
        reader: &mut R,
        date: Option<HttpDate>,
    ) -> Course
        ensures received { Gains (R.remaining reader.old) (R.remaining reader.new)
            (received self.old) (received self.new) }
        ensures sent { sent self.new ≡ sent self.old }
    {
        for _ in 0..TURN {
            if let Some(course) = self.step(routes, reader, date) {
                return course;
            }
        }
        Course::Ready
    }

    /// Returns the request that has come whole, to be answered next, or the fault for which it is refused. `None` where
    /// none has come whole since the last was taken.
    pub fn take_request(&mut self, routes: &Routes) -> Option<Result<WholeRequest, Fault>>
        ensures request { IfSome result (λ r. IfOk r (λ request. request ≡ asked_of self.old.scouted)) }
        ensures refused { IfSome result (λ r. IfErr r (IsRefused (asked_of self.old.scouted))) }
        ensures next { IfSome result (λ _. IsNext self.new (asked_of self.old.scouted)) }
        ensures received { received self.new ≡ received self.old }
        ensures sent { sent self.new ≡ sent self.old }
    {
        let content = self.exchange.take_content(self.alloc)?;
        self.largest = self.largest.max(content.len());
        self.is_within = false;
        self.sent = 0;
        let scout = self.exchange.scout();
        let request = WholeRequest::new(
            self.alloc,
            routes,
            scout.method(),
            scout.target(),
            content,
        );
        Some(request)
    }

    /// Passes the answer to the request that has come whole to the server, with a date, where there is a clock. The
    /// error is that memory ran out: the connection is to be closed then.
    pub fn answer(&mut self, answer: AnswerBytes, date: Option<HttpDate>) -> Result<(), AllocError>
        ensures answered { OnOk result (AnswersNext (answer_of answer date) self.old.history.calls
            self.new.history.calls) }
        ensures own { OnOk result ((asked : Asked) → IsNext self.old asked → CallsFor asked self.old self.new) }
        ensures served { OnOk result ∥ IsServed self.new.config self.new.history ∥₁ }
        ensures received { received self.new ≡ received self.old }
        ensures sent { sent self.new ≡ sent self.old }
    {
        self.answer = answer.front.len().saturating_add(answer.rest.len());
        let mut prepared = Prepared::of(self.alloc, answer, date)?;
        self.exchange.hand_on()?;
        self.exchange.answer(&mut prepared);
        Ok(())
    }

    /// Writes once of what is left to send. Returns how far that has come; `None` where it goes on.
    #[tactic(auto, using(crate::proofs::Writing::writes_none, crate::proofs::Writing::writes_one, crate::proofs::Writing::writes_failed))]
    fn send_some<W: Write>(&mut self, writer: &mut W) -> Option<Progress>
        ensures { Writes (W.contents writer.old) (W.contents writer.new) self.old self.new }
    {
        if !self.exchange.wants_write() {
            return Some(Progress::Whole);
        }
        match self.exchange.send(writer) {
            Ok(0) => Some(Progress::Failed),
            Ok(count) => {
                self.sent = self.sent.saturating_add(count);
                None
            }
            Err(error) => match error.kind() {
                ErrorKind::Interrupted => None,
                ErrorKind::WouldBlock => Some(Progress::Blocked),
                _ => Some(Progress::Failed),
            },
        }
    }

    /// Writes what is left to send, several times at most. Returns how far that has come.
    pub fn send<W: Write>(&mut self, writer: &mut W) -> Progress
        ensures { Writes (W.contents writer.old) (W.contents writer.new) self.old self.new }
    {
        for _ in 0..TURN {
            if let Some(progress) = self.send_some(writer) {
                return progress;
            }
        }
        Progress::Ready
    }

    /// Returns whether nothing more is to be sent or read.
    pub fn is_done(&self) -> bool {
        self.exchange.is_done()
    }

    /// Goes on to the next request, once an answer was sent: resets the counts, and releases memory where a request
    /// was large and nothing came after it.
    pub fn turn(&mut self) {
        self.received = self.exchange.unseen();
        self.sent = 0;
        self.answer = 0;
        if self.largest > LARGE && self.is_idle() && !self.exchange.is_done() {
            self.exchange = PersistentExchange::new(self.alloc, self.keys, config());
            self.largest = 0;
        }
    }
}
