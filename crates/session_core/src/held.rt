//! A session beside the worker that holds it.

ghost use Rattle.std.specs.Prelude.{◌≡◌};
ghost use Rattle.spec_sessions.specs.Acts.{Acts};
ghost use Rattle.spec_sessions.specs.Event.{Break, Clear, Piece, Slice};
ghost use Rattle.session_core.specs.Event.{act_of};

use crate::Session;
use crate::act::Act;
use spec_sessions::{EventRefusal, EventReply};
use std::marker::Model;

/// A session, the worker that holds it, and the ids of its pair.
#[derive(Drop)]
pub(crate) struct Held<'p> {
    pub(crate) holder: u32,
    pub(crate) writer: u32,
    pub(crate) reader: u32,
    pub(crate) session: Session<'p>,
}

impl<'p> Model for Held<'p> {
    ghost use Rattle.spec_sessions.specs.World.{Held};

    ghost Value = { Held };

    ghost view = { λ h. record { holder = h.holder; writer = h.writer; reader = h.reader; session = h.session } };
}

impl<'p> Held<'p> {
    /// Applies an act to the session, and returns the reply.
    pub(crate) fn act(&mut self, act: &Act) -> EventReply
        ensures { Acts (act_of act.now) result self.old self.new }
    {
        match act {
            Act::Piece(bytes) => self.piece(bytes),
            Act::Finish => {
                self.session.finish();
                EventReply::Done
            }
            Act::Slice { worker, rows } => self.slice(*worker, *rows),
            Act::Steal(worker) => {
                self.holder = *worker;
                EventReply::Done
            }
            Act::Break(address) => self.set_break(*address),
            Act::Clear(address) => self.clear_break(*address),
            Act::Walk(rows) => EventReply::Rows(self.session.step(*rows)),
            Act::Go(rows) => EventReply::Rows(self.session.go(*rows)),
            Act::Refuse => {
                self.session.refuse();
                EventReply::Done
            }
        }
    }

    /// Appends a piece to the session's bytes, and returns the reply.
    fn piece(&mut self, bytes: &[u8]) -> EventReply
        ensures { Acts (Piece bytes.now) result self.old self.new }
    {
        match self.session.piece(bytes) {
            Ok(()) => EventReply::Done,
            Err(refusal) => EventReply::Refused(EventRefusal::from(refusal)),
        }
    }

    /// Sets the breakpoint at an address, and returns the reply.
    fn set_break(&mut self, address: u32) -> EventReply
        ensures { Acts (Break address) result self.old self.new }
    {
        match self.session.set_break(address) {
            Ok(()) => EventReply::Done,
            Err(refusal) => EventReply::Refused(EventRefusal::from(refusal)),
        }
    }

    /// Clears the breakpoint at an address, and returns the reply.
    fn clear_break(&mut self, address: u32) -> EventReply
        ensures { Acts (Clear address) result self.old self.new }
    {
        match self.session.clear_break(address) {
            Ok(()) => EventReply::Done,
            Err(refusal) => EventReply::Refused(EventRefusal::from(refusal)),
        }
    }

    /// Takes at most `rows` rows of the session, and returns how many were taken; `NotHeld` where another worker
    /// holds it.
    fn slice(&mut self, worker: u32, rows: u64) -> EventReply
        ensures { Acts (Slice worker rows) result self.old self.new }
    {
        if self.holder != worker {
            return EventReply::Refused(EventRefusal::NotHeld);
        }
        EventReply::Rows(self.session.slice(rows).rows)
    }
}
