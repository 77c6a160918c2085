//! What the next bytes of a connection are, before they are handed on.

ghost use Rattle.std.specs.Prelude.{◌≡◌, ◌≤◌, ◌↔◌, [], IfErr, IfOk, IsTrue, OnOk, length};
ghost use Rattle.httparse.specs.Spans.{IsWithin};
ghost use Rattle.http1.specs.Conn.{unread_size};
ghost use Rattle.http1.specs.Server.{has_codings, new_server, reading};
ghost use Rattle.spec_service.specs.Scouting.{Adds, Begins, Finds, Turns};
ghost use Rattle.persistent_exchange.specs.Scouting.{AwaitsContent, IsTaken, IsWhyNoHead, IsWhyNoPiece, IsWhyNone};
ghost use Rattle.persistent_exchange.specs.declared.scout.Refusal.TheVariants.{NoMemory};

use http_server::MAX_HEADERS;
use http1::{BodySize, Event, Limits, ReadError, Server, WriteError};
use httparse::spans::{EMPTY_HEADER_SPAN, RequestSpans};
pub use spec_service::Sighting;
use std::alloc::{AllocError, Global};
use std::marker::Model;
use std::mem;

/// Why nothing is seen in the next bytes of a connection.
#[derive(Clone, Copy, Debug, PartialEq, Eq)]
pub enum Refusal {
    /// They are no request, whatever follows.
    Unreadable(ReadError),
    /// The content is longer than the limit.
    TooLarge,
    /// Memory ran out.
    NoMemory,
}

impl From<AllocError> for Refusal {
    ghost use Rattle.persistent_exchange.specs.declared.scout.Refusal.TheVariants.{NoMemory};

    ghost from_gives = { λ e r. r ≡ NoMemory };

    fn from(_: AllocError) -> Refusal {
        Refusal::NoMemory
    }
}

/// What was found in some bytes, and how many of them it takes.
#[derive(Clone, Copy, Debug, PartialEq, Eq)]
pub struct Step {
    pub consumed: usize,
    pub sighting: Sighting,
}

/// What has been seen of the requests of a connection: the head that came last, and what has come of its content.
#[derive(Drop)]
pub struct Scout {
    server: Server,
    /// The number of bytes of a content at most.
    most: usize,
    method: Vec<u8>,
    target: Vec<u8>,
    /// The content, as far as it has come, without chunks.
    content: Vec<u8>,
    /// The answer by which the server goes on to the next request. It is not sent.
    scratch: Vec<u8>,
}

impl Model for Scout {
    ghost use Rattle.std.specs.Prelude.{◌≤◌, length};
    ghost use Rattle.spec_service.specs.Scouting.{Scouted};

    ghost Value = { Scouted };

    ghost view = { λ s. record {
      server = s.server;
      most = s.most;
      method = s.method.items;
      target = s.target.items;
      content = s.content.items;
    } };

    ghost invariant = { λ s. length s.content.items ≤ s.most };
}

/// Replaces bytes by others. The error is that memory ran out.
fn replace(kept: &mut Vec<u8>, bytes: &[u8]) -> Result<(), AllocError>
    ensures { OnOk result (kept.new.items ≡ bytes.now) }
{
    kept.clear();
    kept.extend_from_slice(bytes)?;
    Ok(())
}

/// Returns whether a server took what it was given to write. `NoMemory` where memory ran out.
fn is_taken(written: Result<(), WriteError>) -> Result<bool, Refusal>
    ensures taken { IfOk result (λ taken. IsTaken written taken) }
    ensures refused { IfErr result (λ e. e ≡ NoMemory) }
{
    match written {
        Ok(()) => Ok(true),
        Err(WriteError::OutOfMemory) => Err(Refusal::NoMemory),
        Err(_) => Ok(false),
    }
}

impl Scout {
    /// Returns a scout that has seen nothing. Heads are within the limits, and contents have `most` bytes at most.
    pub fn new(alloc: Global, limits: Limits, most: usize) -> Scout
        ensures { result
            ≡ record { server = new_server limits; most = most; method = []; target = []; content = [] } }
    {
        Scout {
            server: Server::new(limits),
            most,
            method: Vec::new(alloc),
            target: Vec::new(alloc),
            content: Vec::new(alloc),
            scratch: Vec::new(alloc),
        }
    }

    /// Returns the method of the head that was seen last.
    pub fn method(&self) -> &[u8]
        ensures { result.now ≡ self.now.method }
    {
        &self.method
    }

    /// Returns the target of the head that was seen last.
    pub fn target(&self) -> &[u8]
        ensures { result.now ≡ self.now.target }
    {
        &self.target
    }

    /// Returns the content that came after it, as far as it has come.
    pub fn content(&self) -> &[u8]
        ensures { result.now ≡ self.now.content }
    {
        &self.content
    }

    /// Takes out the content that came.
    pub fn take_content(&mut self, alloc: Global) -> Vec<u8>
        ensures content { result.items ≡ self.old.content }
        ensures rest { self.new ≡ record (self.old) { content = [] } }
    {
        mem::replace(&mut self.content, Vec::new(alloc))
    }

    /// Returns whether the content has a coding other than chunks, which is not undone here (RFC 9112, section 6.1).
    pub fn has_codings(&self) -> bool
        ensures { result ≡ has_codings self.now.server }
    {
        self.server.has_codings()
    }

    /// Returns whether content of the request that is seen is still to come (RFC 9112, section 6).
    pub fn awaits_content(&self) -> bool
        ensures { IsTrue result ↔ AwaitsContent (unread_size (reading self.now.server)) }
    {
        match self.server.unread_size() {
            BodySize::Known(left) => left > 0,
            BodySize::Unknown => true,
            BodySize::Empty => false,
        }
    }

    /// Looks at the bytes that follow those that were seen, and returns what is next, and how many of them it takes.
    /// The others are to be passed again, with more.
    ///
    /// `Unreadable` where they are no request, whatever follows; `TooLarge` where the content is longer than the
    /// limit; `NoMemory` where memory ran out. After an error nothing more is to be looked at.
    pub fn look(&mut self, input: &[u8]) -> Result<Step, Refusal>
        ensures found { IfOk result (λ step. Finds self.old input.now step.consumed step.sighting self.new) }
        ensures within { IfOk result (λ step. step.consumed ≤ length input.now) }
        ensures refused { IfErr result (IsWhyNone self.old input.now) }
    {
        let mut spans = [EMPTY_HEADER_SPAN; MAX_HEADERS];
        let read = match self.server.read(input, &mut spans) {
            Ok(read) => read,
            Err(error) => return Err(Refusal::Unreadable(error)),
        };
        let sighting = match read.event {
            Event::NeedMore => Sighting::Nothing,
            Event::Head(head) => {
                self.begin(input, &head)?;
                Sighting::Head
            }
            Event::Data(piece) => {
                self.add(piece.of(input))?;
                Sighting::Piece
            }
            Event::End(_) => {
                self.turn()?;
                Sighting::End
            }
            _ => Sighting::Over,
        };
        Ok(Step {
            consumed: read.consumed,
            sighting,
        })
    }

    /// Notes a head. `TooLarge` where it says that its content is longer than the limit.
    fn begin(&mut self, input: &[u8], head: &RequestSpans) -> Result<(), Refusal>
        requires method { IsWithin (length input.now) head.now.method }
        requires target { IsWithin (length input.now) head.now.path }
        ensures ok { OnOk result (Begins self.old input.now head.now self.new) }
        ensures refused { IfErr result (IsWhyNoHead self.old) }
    {
        replace(&mut self.method, head.method.of(input))?;
        replace(&mut self.target, head.path.of(input))?;
        self.content.clear();
        if let BodySize::Known(size) = self.server.unread_size()
            && size > self.most as u64
        {
            return Err(Refusal::TooLarge);
        }
        Ok(())
    }

    /// Notes a piece of the content. `TooLarge` where that is longer than the limit now.
    fn add(&mut self, piece: &[u8]) -> Result<(), Refusal>
        ensures ok { OnOk result (Adds self.old piece.now self.new) }
        ensures refused { IfErr result (IsWhyNoPiece self.old piece.now) }
    {
        if piece.len() > self.most - self.content().len() {
            return Err(Refusal::TooLarge);
        }
        self.content.extend_from_slice(piece)?;
        Ok(())
    }

    /// Goes on to the request after one that has ended, as after an answer.
    fn turn(&mut self) -> Result<(), Refusal>
        ensures ok { OnOk result (Turns self.old self.new) }
        ensures refused { IfErr result (λ e. e ≡ NoMemory) }
    {
        self.scratch.clear();
        let answered = self
            .server
            .write_response(&mut self.scratch, 200, b"OK", &[], BodySize::Empty);
        if is_taken(answered)? {
            is_taken(self.server.write_end(&mut self.scratch, &[]))?;
        }
        Ok(())
    }
}
