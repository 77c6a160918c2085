//! A program run on bytes that come in pieces, with breakpoints; how many rows were taken of it, and why no more.

ghost use Rattle.std.specs.Prelude.{◌+◌, ◌<◌, ◌≡◌, ◌≢◌, ◌≤◌, IfErr, None, OnOk, Some, [], false, if◌then◌else◌, is_some, length, option_map, slice_get};
ghost use Rattle.machine.specs.Run.{IsCarry};
ghost use Rattle.machine.specs.Running.{end_of as machine_end_of};
ghost use Rattle.spec_machine.specs.Code.{code_of};
ghost use Rattle.session_core.specs.Changes.{IsPieceRefusal};
ghost use Rattle.spec_sessions.specs.Changes.{Maybe, Surely, break_refusal, clear_refusal, cleared_at, finished, piece_refusal, refused, set_at, with_piece};
ghost use Rattle.session_core.specs.SessionEnding.{EndsInOneSlice, SessionLeadsToOutcome};
ghost use Rattle.spec_sessions.specs.SessionEnding.{end_of};
ghost use Rattle.session_core.specs.SessionKept.{IsMade, IsSession};
ghost use Rattle.spec_sessions.specs.Rows.{TakesRows, go_rows, heeded, rows_under, slice_from, slice_rows, walk_rows};
ghost use Rattle.spec_sessions.specs.Session.{OutOfMemory, end_in, has_break, session_end, state_of, without_break};
ghost use Rattle.session_core.specs.Stopping.{IsStopped};
ghost use Rattle.spec_machine.specs.Row.{row_of};
ghost use Rattle.machine.specs.declared.slice.Why.TheVariants.{NoMemory};
ghost use Rattle.spec_machine.specs.Memory.{GoesOn, MayGrow};
ghost use Rattle.machine.specs.Slice.{IsWhy};

use crate::limits::{MOST_BREAKS, MOST_ROOM};
use crate::session_refusal::{BreakRefusal, ClearRefusal, PieceRefusal, RefusedPiece};
use avro_bytes::MOST_PAYLOAD;
use avro_types::Nodes;
use isa::{End, Program};
use machine::{Machine, PlannedProgram, Run, Why};
use program_correctness::runs_alone_are_counted_and_stay;
use spec_sessions::SessionEnd;
use std::alloc::Global;
use std::marker::Model;

/// Removes an address from breakpoints, where it is among them.
fn clear(breaks: &mut Vec<u32>, address: u32)
    ensures cleared { breaks.new.items ≡ without_break address breaks.old.items }
    ensures fewer { length breaks.new.items ≤ length breaks.old.items }
{
    breaks.retain(|b| *b != address);
}

/// Returns whether an address is among breakpoints.
fn is_set(breaks: &[u32], address: u32) -> bool
    ensures { result ≡ has_break address breaks.now }
{
    breaks.contains(&address)
}

/// Returns the breakpoints that count: all, or none.
fn heeded(breaks: &[u32], heeds: bool) -> &[u32]
    ensures { result.now ≡ (if heeds then breaks.now else []) }
{
    if heeds { breaks } else { &[] }
}

/// Returns how a session ended: because memory ran out, or as its machine did. `None` where it has not ended.
fn end_after(out_of_memory: bool, end: Option<End>) -> Option<SessionEnd>
    ensures { option_map end_of result
        ≡ (if out_of_memory then Some OutOfMemory else option_map session_end (option_map machine_end_of end)) }
{
    if out_of_memory {
        return Some(SessionEnd::NoMemory);
    }
    match end {
        Some(End::Out(outcome)) => Some(SessionEnd::Out(outcome)),
        Some(End::Trap(trap)) => Some(SessionEnd::Trap(trap)),
        None => None,
    }
}

/// Releases memory above what is held, and above that for `MOST_ROOM` bytes, where a run takes no more rows.
fn let_go(run: &mut Run, why: Why)
    ensures { run.new ≡ run.old }
{
    if matches!(why, Why::Ended | Why::NoMemory) {
        run.shrink_to(MOST_ROOM);
    }
}

/// A program that is run on bytes that come in pieces, with breakpoints.
///
/// Callers see how many rows were taken, and by them what its machine is: the program run alone on the bytes that
/// came, however they were cut and whoever took the rows. What takes rows returns how many; where it finds no memory
/// for one, the session has ended there, and no other has. What holds of every session is `IsSession`, and what makes
/// it `IsMade`.
#[derive(Drop)]
pub struct Session<'p> {
    run: Run<'p>,
    breaks: Vec<u32>,
    out_of_memory: bool,
}

impl<'p> Model for Session<'p> {
    ghost use Rattle.session_core.specs.SessionKept.{IsSession};
    ghost use Rattle.spec_sessions.specs.Session.{Session};

    ghost Value = { Session };

    ghost view = { λ s. record {
      program = s.run.program;
      bytes = s.run.input;
      closed = s.run.ended;
      breaks = s.breaks.items;
      count = s.run.machine.state.count;
      out_of_memory = s.out_of_memory;
    } };

    ghost invariant = { λ s. IsSession (record {
      program = s.run.program;
      bytes = s.run.input;
      closed = s.run.ended;
      breaks = s.breaks.items;
      count = s.run.machine.state.count;
      out_of_memory = s.out_of_memory;
    }) s.run.machine.state };
}

impl<'p> Session<'p> {
    ghost use Rattle.spec_machine.specs.State.{State};
    ghost use Rattle.spec_sessions.specs.Session.{begun};

    /// Returns a session before its first piece. It takes no memory.
    pub fn begin(alloc: Global, program: &'p PlannedProgram) -> Session<'p>
        ensures { result ≡ begun program.now }
    {
        let run = Run::new(alloc, program);
        run.is_alone(); // law
        Session {
            run,
            breaks: Vec::new(alloc),
            out_of_memory: false,
        }
    }

    /// Goes back to what `begin` returns for a program, in the memory that it has.
    pub fn reset(&mut self, program: &'p PlannedProgram)
        ensures { self.new ≡ begun program.now }
    {
        self.run.reset(program);
        self.run.is_alone(); // law
        self.breaks.clear();
        self.out_of_memory = false;
    }

    /// Appends bytes to the payload.
    ///
    /// `TooLarge` where all bytes would pass `MOST_PAYLOAD`, and then `Ended` where no more were to come. A session
    /// that has ended takes them too. No bytes take no memory.
    pub fn piece(&mut self, bytes: &[u8]) -> Result<(), PieceRefusal>
        ensures taken { Maybe PieceRefusal.NoMemory (piece_refusal bytes.now self.old) (with_piece bytes.now self.old)
            result self.old self.new }
        ensures memory { IfErr result (λ e. e ≡ PieceRefusal.NoMemory → 0 < length bytes.now) }
    {
        self.run.is_alone(); // law
        if bytes.len() > MOST_PAYLOAD - self.run.input().len() {
            return Err(PieceRefusal::TooLarge);
        }
        if self.run.is_closed() {
            return Err(PieceRefusal::Ended);
        }
        let pushed = self.run.push(bytes);
        self.run.is_alone(); // law
        pushed?;
        Ok(())
    }

    /// Appends bytes to the payload, as `piece` does. More than `MOST_ROOM` of them that are the first are not
    /// copied. Where they are refused, they are handed back.
    pub fn piece_owned(&mut self, bytes: Vec<u8>) -> Result<(), RefusedPiece>
        ensures ok { OnOk result ((piece_refusal bytes.items self.old ≡ None)
            × (self.new ≡ with_piece bytes.items self.old)) }
        ensures refused { IfErr result (λ refused. (self.new ≡ self.old) × (refused.piece.items ≡ bytes.items)) }
        ensures why { IfErr result (λ refused. IsPieceRefusal refused.why bytes.items self.old) }
    {
        self.run.is_alone(); // law
        if bytes.len() > MOST_PAYLOAD - self.run.input().len() {
            return Err(RefusedPiece {
                why: PieceRefusal::TooLarge,
                piece: bytes,
            });
        }
        if self.run.is_closed() {
            return Err(RefusedPiece {
                why: PieceRefusal::Ended,
                piece: bytes,
            });
        }
        let pushed = self.run.push_owned(bytes, MOST_ROOM);
        self.run.is_alone(); // law
        match pushed {
            Ok(()) => Ok(()),
            Err(piece) => Err(RefusedPiece {
                why: PieceRefusal::NoMemory,
                piece,
            }),
        }
    }

    /// Ends the payload. A second time changes nothing.
    pub fn finish(&mut self)
        ensures { self.new ≡ finished self.old }
    {
        self.run.is_alone(); // law
        self.run.close();
        self.run.is_alone(); // law
    }

    /// Sets a breakpoint. One that is there is not set again. `BadAddress` where the address is none of the program's,
    /// and then `TooManyBreaks` where `MOST_BREAKS` others are set.
    pub fn set_break(&mut self, address: u32) -> Result<(), BreakRefusal>
        ensures set { Maybe BreakRefusal.NoMemory (break_refusal address self.old) (set_at address self.old)
            result self.old self.new }
        ensures memory { IfErr result
            (λ e. e ≡ BreakRefusal.NoMemory → has_break address self.old.breaks ≡ false) }
    {
        if address as usize >= self.run.program().len() {
            return Err(BreakRefusal::BadAddress);
        }
        if is_set(&self.breaks, address) {
            return Ok(());
        }
        if self.breaks.len() >= MOST_BREAKS {
            return Err(BreakRefusal::TooManyBreaks);
        }
        self.breaks.push(address)?;
        Ok(())
    }

    /// Clears a breakpoint, where it is set. `BadAddress` where the address is none of the program's.
    pub fn clear_break(&mut self, address: u32) -> Result<(), ClearRefusal>
        ensures { Surely (clear_refusal address self.old) (cleared_at address self.old) result self.old self.new }
    {
        if address as usize >= self.run.program().len() {
            return Err(ClearRefusal::BadAddress);
        }
        clear(&mut self.breaks, address);
        Ok(())
    }

    /// Ends it as where memory ran out, if it has not ended, and releases memory above what is held, and above that
    /// for `MOST_ROOM` bytes and a 64th of that number of slots, frames and calls.
    pub fn refuse(&mut self)
        ensures { self.new ≡ refused self.old }
    {
        self.run.is_alone(); // law
        if !self.run.machine().has_ended() {
            self.out_of_memory = true;
        }
        self.run.shrink_to(MOST_ROOM);
    }

    /// Takes at most `limit` rows, under its breakpoints, or under none. Returns how many, and why no more.
    fn take_rows(&mut self, heeds_breaks: bool, limit: u64) -> Slice
        ensures rows { TakesRows (rows_under (heeded heeds_breaks self.old) limit self.old) self.old result.rows
            self.new }
        ensures most { result.rows ≤ limit }
        ensures stopped { IsStopped (heeded heeds_breaks self.old) limit result.rows result.stopped self.new }
    {
        if self.out_of_memory {
            return Slice {
                rows: 0,
                stopped: Stopped::Ended,
            };
        }
        self.run.is_alone(); // law
        let breaks = heeded(&self.breaks, heeds_breaks);
        let taken = take(&mut self.run, breaks, limit);
        let_go(&mut self.run, taken.why);
        self.run.is_alone(); // law
        self.out_of_memory = matches!(taken.why, Why::NoMemory);
        Slice {
            rows: taken.rows,
            stopped: Stopped::of(taken.why),
        }
    }

    /// Takes at most `limit` rows, and none at a breakpoint at which no content is begun. Returns how many, and why
    /// no more.
    ///
    /// With no breakpoint, a session that has an end within `limit` rows has ended then.
    pub fn slice(&mut self, limit: u64) -> Slice
        ensures rows { TakesRows (slice_rows limit self.old) self.old result.rows self.new }
        ensures most { result.rows ≤ limit }
        ensures stopped { IsStopped self.old.breaks limit result.rows result.stopped self.new }
        ensures ends { EndsInOneSlice limit self.old self.new }
    {
        runs_alone_are_counted_and_stay(); // law
        self.take_rows(true, limit)
    }

    /// Takes at most `limit` rows, whatever breakpoints are set. Returns how many.
    pub fn step(&mut self, limit: u64) -> u64
        ensures rows { TakesRows (walk_rows limit self.old) self.old result self.new }
        ensures most { result ≤ limit }
    {
        self.take_rows(false, limit).rows
    }

    /// Takes at most `limit` rows, of which the first alone may be at a breakpoint at which no content is begun.
    /// Returns how many.
    pub fn go(&mut self, limit: u64) -> u64
        ensures rows { TakesRows (go_rows limit self.old) self.old result self.new }
        ensures most { result ≤ limit }
    {
        if limit == 0 {
            return 0;
        }
        runs_alone_are_counted_and_stay(); // law
        self.run.is_alone(); // law
        if self.step(1) == 0 {
            return 0;
        }
        1 + self.slice(limit - 1).rows
    }

    /// Returns the program that is run.
    pub fn program(&self) -> &'p Program
        ensures { result.now ≡ self.now.program }
    {
        self.run.program()
    }

    /// Returns the bytes that came.
    pub fn bytes(&self) -> &[u8]
        ensures { result.now ≡ self.now.bytes }
    {
        self.run.input()
    }

    /// Returns whether no more bytes come.
    pub fn is_closed(&self) -> bool
        ensures { result ≡ self.now.closed }
    {
        self.run.is_closed()
    }

    /// Returns its breakpoints, in the order in which they were set.
    pub fn breaks(&self) -> &[u32]
        ensures { result.now ≡ self.now.breaks }
    {
        self.breaks.as_slice()
    }

    /// Returns its machine, to read the state.
    pub fn machine(&self) -> &Machine
        ensures state { state_of self.now ≡ Some result.now.state }
        ensures count { result.now.state.count ≡ self.now.count }
        ensures session { IsSession self.now result.now.state }
    {
        self.run.is_alone(); // law
        self.run.machine()
    }

    /// Returns the bytes of a character that is cut at the end of what has moved of a text; none where no character
    /// is cut.
    pub fn carry(&self) -> &[u8]
        ensures { (state : State) × (state_of self.now ≡ Some state)
            × IsCarry (slice_get self.now.program.code state.pc) self.now.bytes state.pos state.content result.now }
    {
        self.run.is_alone(); // law
        self.run.carry()
    }

    /// Returns whether it has ended because memory ran out.
    pub fn no_memory(&self) -> bool
        ensures { result ≡ self.now.out_of_memory }
    {
        self.out_of_memory
    }

    /// Returns whether it has ended.
    pub fn has_ended(&self) -> bool
        ensures { result ≡ is_some (end_in self.now) }
    {
        self.run.is_alone(); // law
        self.out_of_memory || self.run.machine().has_ended()
    }

    /// Returns how it ended; `None` where it has not.
    pub fn into_end(self) -> Option<SessionEnd>
        ensures { option_map end_of result ≡ end_in self.entry }
    {
        self.into_parts().0
    }

    /// Returns how it ended, or `None` where it has not, and the bytes that came.
    pub fn into_parts(self) -> (Option<SessionEnd>, Vec<u8>)
        ensures end { option_map end_of result.0 ≡ end_in self.entry }
        ensures bytes { result.1.items ≡ self.entry.bytes }
    {
        self.run.is_alone(); // law
        let (end, bytes) = self.run.into_parts();
        (end_after(self.out_of_memory, end), bytes)
    }

    /// Takes out how it ended; `None` where it has not. The session goes back to what `begin` returns for its
    /// program, in the memory that is left, of which it releases some as `refuse` does.
    pub fn take_end(&mut self) -> Option<SessionEnd>
        ensures end { option_map end_of result ≡ end_in self.old }
        ensures begun { self.new ≡ begun self.old.program }
    {
        self.run.is_alone(); // law
        let end = end_after(self.out_of_memory, self.run.take_end());
        self.run.shrink_to(MOST_ROOM);
        self.run.is_alone(); // law
        self.breaks.clear();
        self.out_of_memory = false;
        end
    }

    /// The law of what holds of every session: bytes and breakpoints within their limits, breakpoints distinct and of
    /// the program, its machine the program run alone, and no end of it where memory ended the session.
    pub fn is_kept(&self)
        ensures { (state : State) × IsSession self.now state }
    {
        let _opened = &self.breaks; // read for the proof
    }

    /// The law of what a session is: what one piece of its bytes, the end of the payload where it is closed, its
    /// breakpoints and a walk of as many rows as it counts make of one that has begun, or that one ended where
    /// memory ran out.
    pub fn is_made(&self)
        ensures { IsMade self.now }
    {
        runs_alone_are_counted_and_stay(); // law
        let _counted = self.run.machine().count(); // read for the proof
    }

    /// The law that where its program is that of a pair of schemas, its machine is in a state that leads to the outcome
    /// of the bytes that came: it ends with that, and where they are all, within as many rows as the row bound allows.
    /// One `slice` of that many rows without breakpoints ends it then, as `slice` says.
    pub fn ends_with_the_outcome(&self, writer: &Nodes, reader: &Nodes)
        requires { code_of writer.now reader.now ≡ Some self.now.program }
        ensures { SessionLeadsToOutcome writer.now reader.now self.now }
    {
        self.is_kept(); // law
        self.run.is_alone(); // law
        self.run.ends_with_the_outcome(writer, reader); // law
    }
}

/// Takes at most `limit` rows of a run, none at a breakpoint at which no content is begun. Returns how many, and why
/// no more.
pub(crate) fn take(run: &mut Run, breaks: &[u32], limit: u64) -> machine::Slice
    ensures all { result.why ≢ NoMemory → result.rows
        ≡ slice_from run.old.program run.old.input run.old.ended breaks.now limit run.old.machine.state }
    ensures fewer { result.why ≡ NoMemory → result.rows
        < slice_from run.old.program run.old.input run.old.ended breaks.now limit run.old.machine.state }
    ensures most { result.rows ≤ limit }
    ensures count { run.new.machine.state.count ≡ run.old.machine.state.count + result.rows }
    ensures why { IsWhy run.old.program run.old.input run.old.ended breaks.now result.why limit result.rows
        run.new.machine.state }
    ensures memory { result.why ≡ NoMemory → MayGrow (slice_get run.old.program.code run.new.machine.state.pc) }
    ensures goes_on { result.why ≡ NoMemory → GoesOn run.new.machine.state
        (row_of run.old.program run.old.input run.old.ended run.new.machine.state) }
    ensures kept { run.new ≡ record run.old { machine = run.new.machine } }
{
    runs_alone_are_counted_and_stay(); // law
    run.is_alone(); // law
    let slice = run.slice(breaks, limit);
    let _counted = run.machine().count(); // read for the proof
    slice
}

/// Why no more rows were taken of a session: the first of these that is true of what is left.
#[derive(Clone, Copy, Debug, PartialEq, Eq)]
pub enum Stopped {
    /// The session has ended, also where memory ran out.
    Ended,
    /// As many rows were taken as were asked for, or as can be counted.
    Spent,
    /// The next instruction is at a breakpoint.
    Broke,
    /// The next row needs bytes that have not come.
    Waits,
}

/// How many rows were taken of a session, and why no more.
#[derive(Clone, Copy, Debug, PartialEq, Eq)]
pub struct Slice {
    pub rows: u64,
    pub stopped: Stopped,
}

impl Stopped {
    ghost use Rattle.std.specs.Prelude.{◌≡◌};
    ghost use Rattle.session_core.specs.Stopping.{stopped_of};

    /// Returns why a session stopped whose run took no more rows for this reason: it ends where memory ran out.
    pub(crate) fn of(why: Why) -> Stopped
        ensures { result ≡ stopped_of why }
    {
        match why {
            Why::Ended | Why::NoMemory => Stopped::Ended,
            Why::Spent => Stopped::Spent,
            Why::Broke => Stopped::Broke,
            Why::Waits => Stopped::Waits,
        }
    }
}
