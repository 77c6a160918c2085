//! An answer that is sent part by part; and reads and writes of a stream that does not block, several in one turn.

ghost use Rattle.std.specs.Prelude.{◌++◌, ◌+◌, ◌↔◌, ◌≡◌, ◌≢◌, ◌⊎◌, IfOk, IfSome, OnErr, drop, length, true};
ghost use Rattle.std.specs.Io.KnownBytes.{IsAtEnd, WriteAppends};
ghost use Rattle.gateway_requests.specs.Exchange.{Gains, Sends};
ghost use Rattle.gateway_requests.specs.declared.sending.Progress.TheVariants.{Whole};

use crate::reception::Reception;
use crate::{AnswerBytes, Routes};
use std::io;
use std::io::{ErrorKind, Read, Write};
use std::marker::Model;
use wire_frames::write_more;

/// An answer that is sent part by part. Callers see it as its bytes, and how many of them were sent.
#[derive(Drop)]
pub struct Sending {
    bytes: AnswerBytes,
    sent: usize,
}

impl Model for Sending {
    ghost use Rattle.std.specs.Prelude.{◌≤◌, ◌+◌, ◌++◌, length};
    ghost use Rattle.spec_service.specs.Sending.{Sent};

    ghost Value = { Sent };

    ghost view = { λ s. record { bytes = s.bytes.front.items ++ s.bytes.rest.items; sent = s.sent } };

    ghost invariant = { λ s. s.sent ≤ length s.bytes.front.items + length s.bytes.rest.items };
}

impl Sending {
    /// Returns an answer of which nothing was sent.
    pub fn new(bytes: AnswerBytes) -> Sending
        ensures { result ≡ record { bytes = bytes.front.items ++ bytes.rest.items; sent = 0 } }
    {
        Sending { bytes, sent: 0 }
    }

    /// Returns the number of its bytes.
    pub fn len(&self) -> usize
        ensures { result ≡ length self.now.bytes }
    {
        self.bytes.front.len() + self.bytes.rest.len()
    }

    /// Returns the number of its bytes that were sent.
    pub fn sent(&self) -> usize
        ensures { result ≡ self.now.sent }
    {
        self.sent
    }

    /// Returns whether all its bytes were sent.
    pub fn is_sent(&self) -> bool
        ensures { (result ≡ true) ↔ (self.now.sent ≡ length self.now.bytes) }
    {
        self.sent == self.len()
    }

    /// Writes once of what is left: returns the number of bytes that the writer took. The errors are the writer's.
    pub fn send<W: Write>(&mut self, writer: &mut W) -> io::Result<usize>
        ensures written { WriteAppends (W.contents writer.old) (W.contents writer.new) result
            (drop self.old.sent self.old.bytes) }
        ensures counted { IfOk result (λ n. self.new ≡ record self.old { sent = self.old.sent + n }) }
        ensures refused { OnErr result (self.new ≡ self.old) }
    {
        let front = self.bytes.front.len();
        if self.sent < front {
            let count = write_more(writer, &self.bytes.front, self.sent)?;
            self.sent += count;
            return Ok(count);
        }
        let count = write_more(writer, &self.bytes.rest, self.sent - front)?;
        self.sent += count;
        Ok(count)
    }
}

/// The number of reads, or of writes, after which others have their turn.
const TURN: u32 = 16;

/// How far a stream has come in a turn.
#[derive(Clone, Copy, Debug, PartialEq, Eq)]
pub enum Progress {
    /// A request: no more bytes are needed, or no more will come. An answer: all of it was sent.
    Whole,
    /// The stream would block.
    Blocked,
    /// The turn is over, and the stream may be ready for more.
    Ready,
    /// The stream failed, or took no byte, or ended before a byte of a request came.
    Failed,
    /// Memory is wanting for what would come.
    NoMemory,
}

/// Returns how far a turn has come that ends with an error of its stream. `None` where it goes on.
fn progress_at(kind: ErrorKind) -> Option<Progress>
    ensures { IfSome result (λ progress. progress ≢ Whole) }
{
    match kind {
        ErrorKind::Interrupted => None,
        ErrorKind::WouldBlock => Some(Progress::Blocked),
        ErrorKind::OutOfMemory => Some(Progress::NoMemory),
        _ => Some(Progress::Failed),
    }
}

/// Reads what has come of a request, `TURN` times at most. Returns how far it has come; `Whole` where no more bytes are
/// needed, and where the stream has ended after some bytes.
pub fn receive<S: Read>(reception: &mut Reception, routes: &Routes, stream: &mut S) -> Progress
    ensures received { Gains (S.remaining stream.old) (S.remaining stream.new) reception.old.bytes reception.new.bytes }
    ensures whole { result ≡ Whole → (reception.new.is_whole ≡ true) ⊎ IsAtEnd (S.remaining stream.new) }
{
    for _ in 0..TURN {
        if reception.is_whole() {
            return Progress::Whole;
        }
        match reception.receive(routes, stream) {
            Ok(0) if reception.is_empty() => return Progress::Failed,
            Ok(0) => return Progress::Whole,
            Ok(_) => {}
            Err(error) => {
                if let Some(progress) = progress_at(error.kind()) {
                    return progress;
                }
            }
        }
    }
    if reception.is_whole() {
        Progress::Whole
    } else {
        Progress::Ready
    }
}

/// Writes what is left of an answer, `TURN` times at most. Returns how far it has come.
pub fn send<S: Write>(sending: &mut Sending, stream: &mut S) -> Progress
    ensures sent { Sends (S.contents stream.old) (S.contents stream.new) sending.old sending.new }
    ensures whole { result ≡ Whole → sending.new.sent ≡ length sending.new.bytes }
{
    for _ in 0..TURN {
        if sending.is_sent() {
            return Progress::Whole;
        }
        match sending.send(stream) {
            Ok(0) => return Progress::Failed,
            Ok(_) => {}
            Err(error) => {
                if let Some(progress) = progress_at(error.kind()) {
                    return progress;
                }
            }
        }
    }
    if sending.is_sent() {
        Progress::Whole
    } else {
        Progress::Ready
    }
}

/// Reads and lets go what follows a request, `TURN` times at most. Returns `Whole` where the stream has ended.
pub fn drain<S: Read>(stream: &mut S, room: &mut [u8]) -> Progress {
    for _ in 0..TURN {
        match stream.read(room) {
            Ok(0) => return Progress::Whole,
            Ok(_) => {}
            Err(error) => {
                if let Some(progress) = progress_at(error.kind()) {
                    return progress;
                }
            }
        }
    }
    Progress::Ready
}
