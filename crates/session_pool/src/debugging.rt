//! What a debugger asks of a session.

ghost use Rattle.std.specs.Prelude.{◌≡◌};
ghost use Rattle.session_pool_slots.specs.Account.{has_ended};
ghost use Rattle.session_pool_slots.specs.Results.{GaveBack, HasOut};
ghost use Rattle.session_pool_slots.specs.Words.{IsWordOf};
ghost use Rattle.session_pool.specs.Obeying.{IsFitBack, IsObeyed, account_by};
ghost use Rattle.session_pool.specs.Seats.{HandsBackOne};

use crate::debug_error::DebugError;
use crate::pool::{ClientSeat, Pass, SessionPool};
use debugger::{list, show};
use session_core::{Act, Session};
use session_pool_slots::{SlotSeat, word_after};
use std::alloc::Global;

/// What a debugger asks of a session.
#[derive(Clone, Copy, Debug, PartialEq, Eq)]
pub enum DebugCommand {
    /// To set a breakpoint at an address.
    Set(u32),
    /// To clear the breakpoint at an address.
    Clear(u32),
    /// To take at most this many rows, whatever breakpoints are set.
    Step(u64),
    /// To take at most this many rows, of which the first alone may be at a breakpoint at which no content is begun.
    Go(u64),
    /// For the text of its state.
    Show,
    /// For the listing of its program.
    List,
}

/// What a debugger is answered.
#[derive(Debug, Drop, PartialEq, Eq)]
pub enum DebugReply {
    /// The command was done.
    Done,
    /// This many rows were taken.
    Rows(u64),
    /// The text.
    Text(String),
}

impl DebugCommand {
    ghost use Rattle.session_core.specs.Event.{act_of};
    ghost use Rattle.session_pool.specs.Commands.{command_of};

    /// Returns the command that an act of a session is; `None` where it is none that a debugger asks for.
    pub fn of(act: &Act) -> Option<DebugCommand>
        ensures { result ≡ command_of (act_of act.now) }
    {
        match act {
            Act::Break(address) => Some(DebugCommand::Set(*address)),
            Act::Clear(address) => Some(DebugCommand::Clear(*address)),
            Act::Walk(limit) => Some(DebugCommand::Step(*limit)),
            Act::Go(limit) => Some(DebugCommand::Go(*limit)),
            _ => None,
        }
    }
}

/// The law that a call takes one session and gives one back, which its seat lists: `HandsBack` holds of no other two.
pub fn one_session_is_handed_back()
    ensures { HandsBackOne }
{}

/// What a command came to on a session that was taken out of its slot.
#[derive(Drop)]
struct Obeyed {
    reply: Result<DebugReply, DebugError>,
    /// The word with which the session is to be given back.
    word: u64,
    /// Whether the client learns of all rows that were taken of the session.
    tells: bool,
}

/// Sets the breakpoint at an address. `found` is the word of the session's slot.
fn set(session: &mut Session<'_>, found: u64, address: u32) -> Obeyed
    requires { IsWordOf (has_ended session.old) found }
    ensures { IsObeyed (DebugCommand.Set address) found session.old session.new result }
{
    match session.set_break(address) {
        Ok(()) => Obeyed {
            reply: Ok(DebugReply::Done),
            word: found,
            tells: false,
        },
        Err(refusal) => Obeyed {
            reply: Err(DebugError::of_break(refusal)),
            word: found,
            tells: false,
        },
    }
}

/// Clears the breakpoint at an address, and lets the session go on. `found` is the word of the session's slot.
fn clear(session: &mut Session<'_>, found: u64, address: u32) -> Obeyed
    requires { IsWordOf (has_ended session.old) found }
    ensures { IsObeyed (DebugCommand.Clear address) found session.old session.new result }
{
    match session.clear_break(address) {
        Ok(()) => Obeyed {
            reply: Ok(DebugReply::Done),
            word: word_after(session),
            tells: false,
        },
        Err(refusal) => Obeyed {
            reply: Err(DebugError::of_clear(refusal)),
            word: found,
            tells: false,
        },
    }
}

/// Takes rows, at most `limit`, whatever breakpoints are set. `found` is read by the clauses alone.
fn step(session: &mut Session<'_>, found: u64, limit: u64) -> Obeyed
    ensures { IsObeyed (DebugCommand.Step limit) found session.old session.new result }
{
    let rows = session.step(limit);
    Obeyed {
        reply: Ok(DebugReply::Rows(rows)),
        word: word_after(session),
        tells: true,
    }
}

/// Takes rows, at most `limit`, of which the first alone may be at a breakpoint. `found` is read by the clauses alone.
fn go(session: &mut Session<'_>, found: u64, limit: u64) -> Obeyed
    ensures { IsObeyed (DebugCommand.Go limit) found session.old session.new result }
{
    let rows = session.go(limit);
    Obeyed {
        reply: Ok(DebugReply::Rows(rows)),
        word: word_after(session),
        tells: true,
    }
}

/// Returns the text of a session's state. `found` is the word of the session's slot.
fn shown(alloc: Global, session: &Session<'_>, found: u64) -> Obeyed
    requires { IsWordOf (has_ended session.now) found }
    ensures { IsObeyed DebugCommand.Show found session.now session.now result }
{
    match show(alloc, session) {
        Ok(text) => Obeyed {
            reply: Ok(DebugReply::Text(text)),
            word: found,
            tells: true,
        },
        Err(_) => Obeyed {
            reply: Err(DebugError::NoMemory),
            word: found,
            tells: false,
        },
    }
}

/// Returns the listing of a session's program. `found` is the word of the session's slot.
fn listed(alloc: Global, session: &Session<'_>, found: u64) -> Obeyed
    requires { IsWordOf (has_ended session.now) found }
    ensures { IsObeyed DebugCommand.List found session.now session.now result }
{
    match list(alloc, session) {
        Ok(text) => Obeyed {
            reply: Ok(DebugReply::Text(text)),
            word: found,
            tells: false,
        },
        Err(_) => Obeyed {
            reply: Err(DebugError::NoMemory),
            word: found,
            tells: false,
        },
    }
}

/// Executes a command on a session that was taken out of its slot, which had the word `found`.
fn obey(alloc: Global, session: &mut Session<'_>, found: u64, command: DebugCommand) -> Obeyed
    requires { IsWordOf (has_ended session.old) found }
    ensures { IsObeyed command found session.old session.new result }
{
    match command {
        DebugCommand::Set(address) => set(session, found, address),
        DebugCommand::Clear(address) => clear(session, found, address),
        DebugCommand::Step(limit) => step(session, found, limit),
        DebugCommand::Go(limit) => go(session, found, limit),
        DebugCommand::Show => shown(alloc, session, found),
        DebugCommand::List => listed(alloc, session, found),
    }
}

impl<'p> SessionPool<'p> {
    ghost use Rattle.session_pool_slots.specs.Seats.{HoldsEmpty, IsSeatOf, knows};
    ghost use Rattle.session_pool_slots.specs.Seats.{Rests as RestsAmongSlots};
    ghost use Rattle.session_pool.specs.Seats.{IsPassOf, KeepsOthers, Rests};
    ghost use Rattle.session_pool.specs.Debugging.{Debugs, Leaves};
    ghost use Rattle.session_pool.specs.declared.debugging.DebugCommand.{DebugCommand};

    /// Puts a session that was taken out of its slot back into it, with this word. Where `tells` is true, the client
    /// learns how many rows were taken of it in all.
    fn hand_back(
        &self,
        seat: &mut SlotSeat<'p>,
        slot: u32,
        session: Session<'p>,
        word: u64,
        tells: bool,
    )
        requires seat { IsSeatOf self.now.slots seat.old × HoldsEmpty slot seat.old }
        requires pass { HasOut (knows seat.old) slot (IsFitBack tells session) }
        requires word { IsWordOf (has_ended session) word }
        ensures seat { RestsAmongSlots self.now.slots seat.new }
        ensures gave { GaveBack (account_by tells) (knows seat.old) slot session.entry word (knows seat.new) }
    {
        if tells {
            self.slots.tell_back(seat, slot, session, word);
        } else {
            self.slots.give_back(seat, slot, session, word);
        }
    }

    /// Executes a command of a debugger on a session, and returns its reply.
    ///
    /// `Busy` where a worker has the session, `BadAddress` where an address is none of the program's, then
    /// `TooManyBreaks` where a breakpoint would be one too many; `NoMemory` for a breakpoint that is not set yet and
    /// for a text. A refusal changes nothing.
    pub fn debug(
        &self,
        seat: &mut ClientSeat<'p>,
        pass: &Pass,
        command: DebugCommand,
    ) -> Result<DebugReply, DebugError>
        requires seat { Rests self.now seat.old }
        requires pass { IsPassOf seat.old pass.now }
        ensures seat { Rests self.now seat.new }
        ensures pass { IsPassOf seat.new pass.now }
        ensures others { KeepsOthers seat.old pass.now seat.new }
        ensures debugs { Debugs command seat.old pass.now result seat.new }
        ensures left { Leaves command result seat.old pass.now seat.new }
    {
        let slot = pass.slot();
        let Ok(taken) = self.slots.take_out(&mut seat.slots, slot) else {
            return Err(DebugError::Busy);
        };
        let mut session = taken.session;
        let Obeyed { reply, word, tells } = obey(self.alloc, &mut session, taken.word, command);
        self.hand_back(&mut seat.slots, slot, session, word, tells);
        reply
    }
}
