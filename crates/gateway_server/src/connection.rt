//! Connections: what has come of a request, what is left of an answer, and until when; those that wait, under their
//! keys; and a request that is handed out, with what is answered to it.

ghost use Rattle.std.specs.Prelude.{◌≡◌, IfOk, IfSome, List, None, OnOk, Some, ℕ};
ghost use Rattle.spec_service.specs.Answered.{IsAnswered};
ghost use Rattle.gateway_server.specs.Handing.{AsksOver};
ghost use Rattle.spec_service.specs.Passing.{AnswersTheNext};
ghost use Rattle.gateway_requests.specs.Request.{request_of};
ghost use Rattle.gateway_requests.specs.Sizes.{IsWithin};
ghost use Rattle.spec_service.specs.declared.limits.TheConstants.{MOST_BODY};

use crate::bounds::Bounds;
use crate::staying::date;
use boxcar::tag::{Names, Tag};
use gateway_requests::{AnswerBytes, Fault, Reception, Request, Routes, Sending};
use mio::Interest;
use mio::net::TcpStream;
use persistent_exchange::RequestStream;
use slab::Slab;
use std::alloc::{AllocError, Global};
use std::marker::Model;
use std::time::{Clock, Instant};

/// The stream of a connection, and its times. Callers see it as its requests and answers, where it stays, and what was
/// received of its one request, where it does not.
#[derive(Drop)]
pub struct Connection {
    pub(crate) stream: TcpStream,
    /// Whether the request has come, and no byte after it.
    pub(crate) is_even: bool,
    /// When it was accepted.
    pub(crate) begun: Instant,
    /// When it is closed.
    pub(crate) deadline: Instant,
    /// What the system reports of it, and under which key, where it reports anything.
    pub(crate) watched: Option<(Interest, usize)>,
    /// The number of bytes that were received of the request.
    pub(crate) received: usize,
    /// The status of the answer.
    pub(crate) status: u16,
    /// The method and the path of the request, where lines are logged.
    pub(crate) line: Option<String>,
    /// The requests of a connection that stays. `None` where the connection is closed after its first answer.
    pub(crate) stays: Option<Box<RequestStream>>,
    /// The bytes of the request that was handed out, of a connection that does not stay. It takes no memory.
    pub(crate) asked_by: Tag,
    /// The number of the last reports of the system before its request was handed out.
    pub(crate) asked_at: u64,
}

impl Model for Connection {
    ghost use Rattle.std.specs.Prelude.{option_map};
    ghost use Rattle.spec_service.specs.Handing.{Handed};

    ghost Value = { Handed };

    ghost view = { λ c. record {
      stream = option_map (λ stays. stays.value) c.stays;
      received = c.asked_by.numbers;
    } };
}

impl Connection {
    /// Takes the answer to the request that was handed out. Returns the connection with what is to be sent over it. The
    /// error is that memory ran out: the connection is closed then.
    pub fn answer<R: Clock>(
        self,
        rt: &R,
        bytes: AnswerBytes,
        status: u16,
    ) -> Result<Answered, AllocError>
        ensures { IfOk result (IsAnswered self bytes) }
    {
        let mut connection = self;
        connection.status = status;
        let sending = match &mut connection.stays {
            Some(stays) => {
                pass_on(rt, stays, bytes)?;
                None
            }
            None => Some(Sending::new(bytes)),
        };
        Ok(Answered {
            connection,
            sending,
        })
    }
}

/// What a connection waits for.
#[derive(Drop)]
pub(crate) enum Stage {
    /// The rest of a request.
    Receiving(Reception),
    /// That a whole request is served.
    Whole(Reception),
    /// That the rest of an answer is taken.
    Sending(Sending),
    /// The next request of a connection that stays, or the rest of one.
    Reading,
    /// That a whole request of a connection that stays is served.
    Asking,
    /// That what is to be sent on a connection that stays is taken.
    Writing,
    /// The client's end.
    Draining,
}

impl Stage {
    /// Returns what the system has to report of a connection in this stage.
    pub(crate) fn interest(&self) -> Interest {
        match self {
            Stage::Sending(_) | Stage::Writing => Interest::WRITABLE,
            Stage::Receiving(_)
            | Stage::Whole(_)
            | Stage::Reading
            | Stage::Asking
            | Stage::Draining => Interest::READABLE,
        }
    }
}

/// A connection that is not served, and what it waits for.
#[derive(Drop)]
pub(crate) struct Waiting {
    pub(crate) connection: Connection,
    pub(crate) stage: Stage,
}

impl Waiting {
    /// Returns whether a whole request waits to be served.
    pub(crate) fn is_whole(&self) -> bool {
        matches!(self.stage, Stage::Whole(_) | Stage::Asking)
    }

    /// Returns whether nothing of a request has come since the last answer.
    fn is_idle(&self) -> bool {
        match &self.connection.stays {
            Some(stays) => stays.is_idle(),
            None => false,
        }
    }

    /// Returns the rank in which connections are closed where there are too many, the lowest first: those that were
    /// answered, then those that stay and are idle, then those whose request has not come, then whole requests, then
    /// answers that were not taken.
    pub(crate) fn rank(&self) -> u8 {
        match &self.stage {
            Stage::Draining => 0,
            Stage::Reading if self.is_idle() => 1,
            Stage::Receiving(_) | Stage::Reading => 2,
            Stage::Whole(_) | Stage::Asking => 3,
            Stage::Sending(_) | Stage::Writing => 4,
        }
    }

    /// Returns the number of bytes that it holds.
    pub(crate) fn held(&self) -> usize {
        let staged = match &self.stage {
            Stage::Receiving(reception) | Stage::Whole(reception) => reception.held(),
            Stage::Sending(sending) => sending.len(),
            Stage::Asking | Stage::Reading | Stage::Writing | Stage::Draining => 0,
        };
        match &self.connection.stays {
            Some(stays) => staged.saturating_add(stays.weight()),
            None => staged,
        }
    }
}

/// The number of bytes from which on a connection counts for the bound of bytes.
const LARGE: usize = 65_536;

/// The connections of a thread that wait.
#[derive(Drop)]
pub(crate) struct OpenConnections {
    slots: Slab<Waiting>,
    /// Before this moment no connection that waits is closed, where there is one.
    pub(crate) soonest: Option<Instant>,
}

/// Returns the earlier of two moments, where both are there.
fn earlier(one: Option<Instant>, other: Instant) -> Option<Instant> {
    Some(match one {
        Some(one) => one.min(other),
        None => other,
    })
}

impl OpenConnections {
    /// Returns a set of no connections.
    pub(crate) fn new(alloc: Global) -> OpenConnections {
        OpenConnections {
            slots: Slab::new(alloc),
            soonest: None,
        }
    }

    /// Returns whether there is none.
    pub(crate) fn is_empty(&self) -> bool {
        self.slots.is_empty()
    }

    /// Returns the key that the next connection gets.
    pub(crate) fn next_key(&self) -> usize {
        self.slots.vacant_key()
    }

    /// Takes out the connection of a key. `None` where it has none.
    pub(crate) fn take(&mut self, key: usize) -> Option<Waiting> {
        self.slots.try_remove(key)
    }

    /// Returns whether the connection of a key has a whole request.
    pub(crate) fn is_whole(&self, key: usize) -> bool {
        match self.slots.get(key) {
            Some(waiting) => waiting.is_whole(),
            None => false,
        }
    }

    /// Keeps a connection, under the next key. Where memory runs out it is closed.
    pub(crate) fn keep(&mut self, waiting: Waiting) {
        self.soonest = earlier(self.soonest, waiting.connection.deadline);
        let _ = self.slots.insert(waiting);
    }

    /// Closes others until one more connection that holds `held` bytes is within the bounds.
    pub(crate) fn make_room(&mut self, bounds: &Bounds, held: usize) {
        if self.slots.len() >= bounds.open {
            self.close_worst(0);
        }
        if held < LARGE {
            return;
        }
        for _ in 0..self.slots.len() {
            if self.held().saturating_add(held) <= bounds.bytes {
                return;
            }
            self.close_worst(LARGE);
        }
    }

    /// Returns the number of bytes of requests and answers that are held.
    fn held(&self) -> usize {
        let mut held: usize = 0;
        for (_, waiting) in self.slots.iter() {
            held = held.saturating_add(waiting.held());
        }
        held
    }

    /// Closes the connection of the lowest rank, and of those the oldest, among those that hold at least `least`
    /// bytes.
    pub(crate) fn close_worst(&mut self, least: usize) {
        let mut worst: Option<(u8, Instant, usize)> = None;
        for (key, waiting) in self.slots.iter() {
            if waiting.held() >= least {
                let candidate = (waiting.rank(), waiting.connection.begun, key);
                worst = match worst {
                    Some(worst) if worst <= candidate => Some(worst),
                    _ => Some(candidate),
                };
            }
        }
        if let Some((_, _, key)) = worst {
            let _ = self.slots.try_remove(key);
        }
    }

    /// Closes the connections whose time was up at a moment. A whole request is not closed: it waits for this service.
    pub(crate) fn close_late(&mut self, now: Instant) {
        let mut soonest: Option<Instant> = None;
        self.slots.retain(|_, waiting| {
            if waiting.is_whole() {
                return true;
            }
            if waiting.connection.deadline <= now {
                return false;
            }
            soonest = earlier(soonest, waiting.connection.deadline);
            true
        });
        self.soonest = soonest;
    }
}

/// A connection whose request is whole, or of which nothing more will come.
#[derive(Drop)]
pub(crate) struct Asked {
    pub(crate) connection: Connection,
    /// What was received. `None` where memory ran out for it, and of a connection that stays.
    pub(crate) reception: Option<Reception>,
}

/// A request that is handed out, or its first fault, and the connection that waits for the answer. Callers see it as
/// its connection.
#[derive(Drop)]
pub struct PendingRequest {
    request: Result<Request, Fault>,
    connection: Connection,
}

impl Model for PendingRequest {
    ghost use Rattle.std.specs.Prelude.{IfOk};
    ghost use Rattle.spec_service.specs.Handing.{Handed};
    ghost use Rattle.gateway_server.specs.Handing.{AsksOver};
    ghost use Rattle.gateway_requests.specs.Request.{request_of};
    ghost use Rattle.gateway_requests.specs.Sizes.{IsWithin};
    ghost use Rattle.spec_service.specs.declared.limits.TheConstants.{MOST_BODY};

    ghost Value = { Handed };

    ghost view = { λ p. p.connection };

    ghost invariant = { λ p. AsksOver p.connection p.request
        × IfOk p.request (λ request. IsWithin MOST_BODY (request_of request)) };
}

/// A connection, and the answer that is to be sent over it. Callers see it as what is to be sent.
#[derive(Drop)]
pub struct Answered {
    pub(crate) connection: Connection,
    /// What is to be sent. `None` of a connection that stays, whose requests and answers have it.
    pub(crate) sending: Option<Sending>,
}

impl Model for Answered {
    ghost use Rattle.spec_service.specs.Answered.{Answered as ToSend};

    ghost Value = { ToSend };

    ghost view = { λ a. record { stream = a.connection.stream; sending = a.sending } };
}

/// A tag of the bytes that were received.
struct ItsBytes;

impl Names<Reception> for ItsBytes {
    ghost numbers = { λ received. received.bytes };
}

/// Returns the request of a connection that does not stay, or its first fault, which is `NoMemory` where memory ran out
/// for what was received. Puts a tag of the bytes that were received into `asked_by`.
fn read_once(asked_by: &mut Tag, reception: Option<Reception>) -> Result<Request, Fault>
    ensures asks { AsksOver (record { stream = None; received = asked_by.new.numbers }) result }
    ensures tagged { IfSome reception (λ r. asked_by.new.numbers ≡ r.bytes) }
    ensures size { IfOk result (λ request. IsWithin MOST_BODY (request_of request)) }
{
    let Some(reception) = reception else {
        *asked_by = Tag::empty();
        return Err(Fault::NoMemory);
    };
    *asked_by = Tag::of::<Reception, ItsBytes>(&reception);
    reception.into_request()
}

/// Returns the next request of a connection that stays, or its first fault. `None` where none has come whole.
#[tactic(auto, using(crate::proofs::Asking::asked_next, crate::proofs::Asking::refused_over))]
fn read_next(stays: &mut RequestStream, routes: &Routes) -> Option<Result<Request, Fault>>
    ensures asks { IfSome result (λ r. (received : List ℕ)
        → AsksOver (record { stream = Some stays.new; received = received }) r) }
    ensures size { IfSome result (λ r. IfOk r (λ request. IsWithin MOST_BODY (request_of request))) }
{
    match stays.take_request(routes)? {
        Ok(request) => Some(request.into_request()),
        Err(fault) => Some(Err(fault)),
    }
}

/// Passes the answer to the next request on to the server of a connection that stays. The error is that memory ran out:
/// the connection is to be closed then.
pub(crate) fn pass_on<R: Clock>(
    rt: &R,
    stays: &mut RequestStream,
    bytes: AnswerBytes,
) -> Result<(), AllocError>
    ensures { OnOk result (AnswersTheNext bytes stays.old stays.new) }
{
    stays.answer(bytes, date(rt))
}

/// Returns the request of a connection, or its first fault. `None` where it stays and no request has come whole.
fn read(
    connection: &mut Connection,
    reception: Option<Reception>,
    routes: &Routes,
) -> Option<Result<Request, Fault>>
    ensures asks { IfSome result (AsksOver connection.new) }
    ensures received { connection.old.stream ≡ None → IfSome reception (λ r. connection.new.received ≡ r.bytes) }
    ensures closes { connection.old.stream ≡ None → connection.new.stream ≡ None }
    ensures size { IfSome result (λ r. IfOk r (λ request. IsWithin MOST_BODY (request_of request))) }
{
    if let Some(stays) = &mut connection.stays {
        drop(reception); // of a connection that stays there is none
        return read_next(stays, routes);
    }
    Some(read_once(&mut connection.asked_by, reception))
}

impl Asked {
    /// Returns the request to be handed out, or its first fault, with the connection. `None` where there is none: then
    /// the connection is closed.
    pub(crate) fn into_pending(self, routes: &Routes) -> Option<PendingRequest>
        ensures { self.connection.stream ≡ None → IfSome result (λ pending. (pending.stream ≡ None)
            × IfSome self.reception (λ r. pending.received ≡ r.bytes)) }
    {
        let Asked {
            connection,
            reception,
        } = self;
        let mut connection = connection;
        let request = read(&mut connection, reception, routes)?;
        Some(PendingRequest {
            request,
            connection,
        })
    }
}

impl PendingRequest {
    /// Returns what is asked, or the first fault of the request.
    pub fn request(&self) -> &Result<Request, Fault>
        ensures { IfOk result.now (λ request. IsWithin MOST_BODY (request_of request)) }
    {
        &self.request
    }

    /// Returns what is asked, or the first fault of the request, and the connection that waits for the answer.
    pub fn into_parts(self) -> (Result<Request, Fault>, Connection)
        ensures connection { result.1 ≡ self }
        ensures asks { AsksOver self result.0 }
        ensures size { IfOk result.0 (λ request. IsWithin MOST_BODY (request_of request)) }
    {
        let PendingRequest {
            request,
            connection,
        } = self;
        (request, connection)
    }
}
