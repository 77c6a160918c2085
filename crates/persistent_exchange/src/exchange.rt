//! The bytes of a connection that stays.

ghost use Rattle.std.specs.Prelude.{◌≡◌, ◌≢◌, ◌≤◌, ◌<◌, ◌+◌, ◌++◌, ◌↔◌, ℕ, [], false, IfErr, IfNone, IfOk, IfSome, IsTrue, OnErr, OnOk, drop, length, take};
ghost use Rattle.std.specs.Io.KnownBytes.{Appends, Keeps};
ghost use Rattle.http1.specs.Server.{new_server};
ghost use Rattle.http_server.specs.Exchange.{Calls};
ghost use Rattle.http_server.specs.History.{IsDone, IsServed, Rests, new_history};
ghost use Rattle.wire_frames.specs.Moving.{Receives};
ghost use Rattle.spec_service.specs.StreamAnswering.{AnswersNext, CallsFor, IsNext};
ghost use Rattle.persistent_exchange.specs.Persistent.{HandsOn, Sends, pending, sent};
ghost use Rattle.spec_service.specs.Persistent.{received};
ghost use Rattle.spec_service.specs.Scouting.{Finds};
ghost use Rattle.persistent_exchange.specs.Scouting.{IsWhyNone};
ghost use Rattle.spec_service.specs.Stream.{Asked, asked_of, taken};

use crate::prepared::{NoAnswer, Prepared};
use crate::scout::{Refusal, Scout, Sighting};
use crate::standing::Standing;
use bytes::BytesMut;
use http_server::{Config, Connection, Service};
use std::alloc::{AllocError, Global};
use std::hash::RandomState;
use std::io;
use std::io::{Read, Write};
use std::marker::Model;
use wire_frames::write_more;

/// The number of bytes that a read asks for at least.
const LEAST_READ: usize = 4_096;

/// The number of bytes that a read asks for at most. It asks for twice as many as the one before received, between
/// these two.
const MOST_READ: usize = 262_144;

/// The bytes of a connection that stays: those that came, of which a scout sees what they are before they are handed on
/// to the connection's server, and those that are to be sent.
#[derive(Drop)]
pub struct PersistentExchange {
    connection: Connection,
    scout: Scout,
    held: BytesMut,
    seen: usize,
    /// The number of bytes that came by the last read.
    last_read: usize,
    last: Vec<u8>,
    last_sent: usize,
    /// How the requests that were seen go with the calls of the server.
    standing: Standing,
}

impl Model for PersistentExchange {
    ghost use Rattle.std.specs.Prelude.{◌≡◌, ◌≤◌, ◌<◌, [], length};
    ghost use Rattle.http_server.specs.Connection.{config_of, history};
    ghost use Rattle.spec_service.specs.Persistent.{Persistent};
    ghost use Rattle.persistent_exchange.specs.Standing.{Holds};

    ghost Value = { Persistent };

    ghost view = { λ e. record {
      history = history e.connection;
      config = config_of e.connection;
      scouted = e.scout;
      held = e.held.items;
      seen = e.seen;
      last = e.last.items;
      last_sent = e.last_sent;
    } };

    ghost invariant = { λ e. (e.seen ≤ length e.held.items) × (e.last_sent ≤ length e.last.items)
        × (0 < e.last_sent → (history e.connection).pending ≡ [])
        × Holds e.standing (record {
          history = history e.connection;
          config = config_of e.connection;
          scouted = e.scout;
          held = e.held.items;
          seen = e.seen;
          last = e.last.items;
          last_sent = e.last_sent;
        }) };
}

impl PersistentExchange {
    /// Returns a connection over which nothing has come. The peer chooses the names of headers, so their maps take
    /// secret keys.
    pub fn new(alloc: Global, keys: RandomState, config: Config) -> PersistentExchange
        ensures { (result.history ≡ new_history) × (result.config ≡ config) × (result.held ≡ []) × (result.last ≡ [])
            × (result.scouted ≡ record {
              server = new_server config.limits;
              most = config.max_body_len;
              method = [];
              target = [];
              content = [];
            }) }
    {
        PersistentExchange {
            connection: Connection::new(alloc, keys, config),
            scout: Scout::new(alloc, config.limits, config.max_body_len),
            held: BytesMut::new(alloc),
            seen: 0,
            last_read: 0,
            last: Vec::new(alloc),
            last_sent: 0,
            standing: Standing::Even,
        }
    }

    /// Reads once, and returns the number of bytes that came, 0 only where the reader has ended.
    ///
    /// The errors are the reader's, and `OutOfMemory` where memory runs out; then what came before is as it was.
    pub fn receive<R: Read>(&mut self, reader: &mut R) -> io::Result<usize>
        ensures received { IfOk result (Receives (R.remaining reader.old) (R.remaining reader.new)
            (received self.old) (received self.new)) }
        ensures refused { OnErr result (received self.new ≡ received self.old) }
        ensures kept { OnErr result (Keeps (R.remaining reader.old) (R.remaining reader.new)) }
        ensures sent { sent self.new ≡ sent self.old }
        ensures same { (self.new.history ≡ self.old.history) × (self.new.scouted ≡ self.old.scouted)
            × (self.new.seen ≡ self.old.seen) × (self.new.last ≡ self.old.last) }
    {
        let room = self.last_read.min(MOST_READ / 2) * 2;
        self.held.reserve(room.max(LEAST_READ))?;
        let count = self.held.read_from(reader)?;
        self.last_read = count;
        self.standing = self.standing.with_more();
        Ok(count)
    }

    /// Looks at the bytes that came and were not seen, and returns what is next. The errors are the scout's.
    pub fn look(&mut self) -> Result<Sighting, Refusal>
        ensures found { IfOk result (λ sighting. (consumed : ℕ)
            × Finds self.old.scouted (drop self.old.seen self.old.held) consumed sighting self.new.scouted
            × (self.new.seen ≡ self.old.seen + consumed)) }
        ensures refused { IfErr result (IsWhyNone self.old.scouted (drop self.old.seen self.old.held)) }
        ensures sent { sent self.new ≡ sent self.old }
        ensures same { (self.new.history ≡ self.old.history) × (self.new.held ≡ self.old.held)
            × (self.new.last ≡ self.old.last) }
    {
        let standing = self.standing;
        self.standing = Standing::Lost;
        let step = self.scout.look(&self.held.as_slice()[self.seen..])?;
        self.seen += step.consumed;
        self.standing = standing.with_sighting(step.sighting);
        Ok(step.sighting)
    }

    /// Returns what has been seen of the request that comes next, or came last.
    pub fn scout(&self) -> &Scout
        ensures { result.now ≡ self.now.scouted }
    {
        &self.scout
    }

    /// Hands some of the bytes that were seen on to the server. The error is that memory ran out.
    fn hand_some_on(&mut self) -> Result<(), AllocError>
        requires { 0 < self.old.seen }
        ensures hands { HandsOn self.old self.new }
        ensures fewer { OnOk result (self.new.seen < self.old.seen) }
        ensures config { self.new.config ≡ self.old.config }
    {
        let mut bytes = &self.held.as_slice()[..self.seen];
        match self.connection.read_from(&mut bytes) {
            Ok(count) if count > 0 => {
                self.held.advance(count);
                self.seen -= count;
                Ok(())
            }
            _ => Err(AllocError),
        }
    }

    /// Hands the bytes that were seen on to the server. The error is that memory ran out; then some of them may be
    /// handed on.
    pub fn hand_on(&mut self) -> Result<(), AllocError>
        ensures hands { HandsOn self.old self.new }
        ensures all { OnOk result (self.new.seen ≡ 0) }
        ensures config { self.new.config ≡ self.old.config }
    {
        while self.seen > 0 {
            self.hand_some_on()?;
        }
        Ok(())
    }

    /// Makes the server answer what was handed on to it, by a service, unless the last answer is there.
    pub fn advance<S: Service>(&mut self, service: &mut S)
        ensures served { ∥ IsServed self.new.config self.new.history ∥₁ }
        ensures calls { Calls S.answers service.old service.new self.old.history.calls self.new.history.calls }
        ensures received { received self.new ≡ received self.old }
        ensures sent { sent self.new ≡ sent self.old }
        ensures rests { self.old.last ≡ [] → Rests self.new.config self.new.history }
        ensures last { self.old.last ≢ [] → self.new ≡ self.old }
        ensures same { (self.new.config ≡ self.old.config) × (self.new.scouted ≡ self.old.scouted)
            × (self.new.held ≡ self.old.held) × (self.new.seen ≡ self.old.seen) }
    {
        self.standing = Standing::Lost;
        if self.last.is_empty() {
            self.connection.advance(service);
        }
    }

    /// Makes the server answer the request that was taken out, by an answer that was not given yet.
    pub fn answer(&mut self, prepared: &mut Prepared)
        requires { prepared.old.is_used ≡ false }
        ensures answered { AnswersNext prepared.old.answer self.old.history.calls self.new.history.calls }
        ensures own { (asked : Asked) → IsNext self.old asked → CallsFor asked self.old self.new }
        ensures served { ∥ IsServed self.new.config self.new.history ∥₁ }
        ensures received { received self.new ≡ received self.old }
        ensures sent { sent self.new ≡ sent self.old }
    {
        let standing = self.standing;
        self.advance(prepared);
        self.standing = standing.with_answer(prepared.is_used());
    }

    /// Makes the server take what was handed on to it, which is no whole request: it has no answer.
    fn advance_unanswered(&mut self)
        ensures received { received self.new ≡ received self.old }
        ensures sent { sent self.new ≡ sent self.old }
        ensures calls { self.new.history.calls ≡ self.old.history.calls }
    {
        let standing = self.standing;
        self.advance(&mut NoAnswer);
        self.standing = standing;
    }

    /// Hands the bytes that were seen on to the server. The error is that memory ran out.
    ///
    /// Where content of their request is still to come, the server takes them: it refuses the head, or sends
    /// `100 Continue` where the client waits for that (RFC 9110, section 10.1.1).
    pub fn pass_on(&mut self) -> Result<(), AllocError>
        ensures received { received self.new ≡ received self.old }
        ensures sent { sent self.new ≡ sent self.old }
        ensures calls { self.new.history.calls ≡ self.old.history.calls }
    {
        self.hand_on()?;
        if self.scout.awaits_content() {
            self.advance_unanswered();
        }
        Ok(())
    }

    /// Takes the last answer, which follows those of the server; one after it is not taken.
    pub fn end_with(&mut self, answer: Vec<u8>)
        ensures pending { self.old.last ≡ [] → pending self.new ≡ pending self.old ++ answer.items }
        ensures sent { sent self.new ≡ sent self.old }
        ensures same { (self.new.history ≡ self.old.history) × (received self.new ≡ received self.old) }
        ensures last { self.old.last ≢ [] → self.new ≡ self.old }
    {
        if self.last.is_empty() {
            self.last = answer;
        }
    }

    /// Returns the number of bytes that came and were not seen.
    pub fn unseen(&self) -> usize
        ensures { result + self.now.seen ≡ length self.now.held }
    {
        self.held.len() - self.seen
    }

    /// Returns the number of bytes that are held of requests. No clause speaks of it: it decides which connections are
    /// closed where too much is held.
    pub fn weight(&self) -> usize {
        let content = self.scout.content().len();
        self.held.len().saturating_add(content.saturating_mul(2))
    }

    /// Returns whether the last read took all that had come: it had room for more. No clause speaks of it: it decides
    /// whether a connection is read again before the system reports more.
    pub fn is_drained(&self) -> bool {
        self.last_read < LEAST_READ
    }

    /// Takes out the content of the request whose end was seen last. `None` where that was taken out before, or more
    /// was seen since.
    pub fn take_content(&mut self, alloc: Global) -> Option<Vec<u8>>
        ensures content { IfSome result (λ content. content.items ≡ self.old.scouted.content) }
        ensures next { IfSome result (λ content. IsNext self.new (asked_of self.old.scouted)) }
        ensures rest { IfSome result (λ content. self.new ≡ record (self.old) { scouted = taken self.old.scouted }) }
        ensures none { IfNone result (self.new ≡ self.old) }
    {
        if self.standing != Standing::Whole {
            return None;
        }
        self.standing = Standing::Due;
        Some(self.scout.take_content(alloc))
    }

    /// Returns whether something is left to send.
    pub fn wants_write(&self) -> bool
        ensures { IsTrue result ↔ (0 < length (pending self.now)) }
    {
        self.connection.wants_write() || self.last_sent < self.last.len()
    }

    /// Returns whether nothing more is to be sent or read: the server has closed the connection, or the last answer is
    /// sent.
    pub fn is_done(&self) -> bool
        ensures { IsTrue result → length (pending self.now) ≡ 0 }
    {
        if self.last.is_empty() {
            self.connection.is_done()
        } else {
            !self.wants_write()
        }
    }

    /// Writes once of what is left to send, and returns the number of bytes that the writer took. The errors are the
    /// writer's.
    pub fn send<W: Write>(&mut self, writer: &mut W) -> io::Result<usize>
        ensures written { IfOk result (λ n. Appends (W.contents writer.old) (W.contents writer.new)
            (take n (pending self.old))) }
        ensures sent { IfOk result (Sends self.old self.new) }
        ensures refused { OnErr result ((self.new ≡ self.old) × Keeps (W.contents writer.old) (W.contents writer.new)) }
    {
        if self.connection.wants_write() {
            let count = write_more(writer, self.connection.output(), 0)?;
            self.connection.sent(count);
            return Ok(count);
        }
        let count = write_more(writer, &self.last, self.last_sent)?;
        self.last_sent += count;
        Ok(count)
    }
}
