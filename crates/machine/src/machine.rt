//! A run of a program, as a state of the instruction table: what it asks of its store, how it ended, and how that is
//! taken out.

#![tactic(auto, using(crate::proofs::Appending::goes_on, crate::proofs::Appending::no_more, crate::proofs::Appending::stays_open, crate::proofs::Appending::same_arena))]

ghost use Rattle.std.specs.Prelude.{◌++◌, ◌+◌, ◌<◌, ◌∷◌, ◌≡◌, ◌≢◌, ◌≤◌, IfOk, None, OnErr, OnOk, Some, [], false, is_some, length, option_map, option_to_list, true, ℕ};
ghost use Rattle.spec_decoding.specs.declared.fault.Fault.TheVariants.{NoMemory};
ghost use Rattle.spec_avro.specs.declared.meter.Meter.{Meter};
ghost use Rattle.spec_machine.specs.declared.limits.TheConstants.{MOST_INSTRS};
ghost use Rattle.spec_machine.specs.State.{has_current, meter_of};
ghost use Rattle.avro_bytes.specs.Shortest.{IsTight};
ghost use Rattle.spec_avro.specs.Shortest.{shortest};
ghost use Rattle.spec_machine.specs.Table.{added, missed, next, pushed, stop, trap, with_frames};
ghost use Rattle.machine_store.specs.declared.rules.Verdict.TheVariants.{Done};
ghost use Rattle.machine_store.specs.Ending.{refused, told};
ghost use Rattle.machine_store.specs.Buffers.{is_front};
ghost use Rattle.machine.specs.Contract.{AppendsThese, OnlyAppends, Takes, closing_bytes};
ghost use Rattle.machine.specs.RowContract.{HasNext, LeadsTo};
ghost use Rattle.machine.specs.Running.{IsThere, end_of, end_view_of, ended_of, start};
ghost use Rattle.spec_avro.specs.declared.limits.TheConstants.{MOST_DEPTH};
ghost use Rattle.machine_store.specs.Frames.{FewSlots, HasSlot, frame_of, has_current_below, is_skip, is_skipped, skip_walk_of, slots_of, walk_of};
ghost use Rattle.machine_store.specs.Store.{close_blocks, close_record, leave, next_item, next_skipped, select};

use crate::feed::Feed;
use crate::slice::Foresight;
use crate::step::Step;
use avro_bytes::{BlockWalk, Fault, MalformedKind, Meter, Mismatch, Outcome, put_long};
use isa::{End, Trap};
use machine_scans::is_tight;
use machine_store::{Content, Ending, Opening, RowCount, Store, TextCheck, Verdict};
use std::alloc::{AllocError, Global};
use std::marker::Model;

/// An output of at most this many bytes is copied where the run ends, so that the arena need not grow again for the
/// next run. A longer one is handed out in the arena's memory, where it can be.
const MOST_COPIED: usize = 65_536;

/// A run of a program: callers see it as a state of the instruction table, and how that is kept.
#[derive(Drop)]
pub struct Machine {
    pub(crate) pc: usize,
    pub(crate) pos: usize,
    pub(crate) calls: Vec<usize>,
    pub(crate) store: Store,
    pub(crate) content: Option<Content>,
    pub(crate) check: TextCheck,
    pub(crate) count: RowCount,
    pub(crate) end: Option<Ended>,
    pub(crate) scratch: Vec<u8>,
    /// What was found ahead, and what is kept for finding.
    pub(crate) foresight: Foresight,
    pub(crate) alloc: Global,
}

impl Model for Machine {
    ghost use Rattle.machine.specs.Running.{IsThere, Running, running_of};

    ghost Value = { Running };

    ghost view = { λ m. running_of m.pc m.pos m.calls.items m.store m.content m.check m.count.rows m.end };

    ghost invariant = { λ m. IsThere m.store.layout m.end };
}

impl Machine {
    ghost use Rattle.machine.specs.Running.{start};

    /// Returns the state before a run. It allocates nothing.
    pub fn new(alloc: Global) -> Machine
        ensures { result ≡ start }
    {
        Machine {
            pc: 0,
            pos: 0,
            calls: Vec::new(alloc),
            store: Store::new(alloc),
            content: None,
            check: TextCheck::Unasked,
            count: RowCount { rows: 0 },
            end: None,
            scratch: Vec::new(alloc),
            foresight: Foresight::new(alloc),
            alloc,
        }
    }

    /// Goes back to the state that `new` returns, and keeps the memory.
    pub fn reset(&mut self)
        ensures { self.new ≡ start }
    {
        self.pc = 0;
        self.pos = 0;
        self.calls.clear();
        self.store.reset();
        self.content = None;
        self.check = TextCheck::Unasked;
        self.count = RowCount { rows: 0 };
        self.end = None;
    }

    /// Releases memory beyond what is held, but keeps enough for `bytes` bytes and for a 64th as many slots,
    /// frames and calls.
    pub fn shrink_to(&mut self, bytes: usize)
        ensures { self.new ≡ self.old }
    {
        self.calls.shrink_to(bytes / 64);
        self.store.shrink_to(bytes);
        self.scratch.shrink_to(bytes);
        self.foresight.shrink_to(bytes);
    }

    /// Limits how many nests that are put piece by piece plans read inside of one another, to `most`: each takes
    /// about 1 KiB of stack. What nests deeper goes by rows, which take none.
    pub fn limit_nests(&mut self, most: usize)
        ensures { self.new ≡ self.old }
    {
        self.foresight.limit_nests(most);
    }

    /// Returns the address of the next instruction.
    pub fn pc(&self) -> usize
        ensures { result ≡ self.now.state.pc }
    {
        self.pc
    }

    /// Returns how many rows were taken.
    pub fn count(&self) -> u64
        ensures { result ≡ self.now.state.count }
    {
        self.count.rows
    }

    /// Returns the offset of the next byte.
    pub fn pos(&self) -> usize
        ensures { result ≡ self.now.state.pos }
    {
        self.pos
    }

    /// Returns how many frames are open, and how many units there were.
    pub(crate) fn meter(&self) -> Meter
        ensures { result ≡ meter_of self.now.state }
    {
        self.store.meter()
    }

    /// Returns whether there is a current buffer.
    pub(crate) fn has_current(&self) -> bool
        ensures { result ≡ has_current self.now.state.store.frames }
    {
        self.store.has_current()
    }

    /// Ends the run with `end`.
    pub(crate) fn stop(&mut self, end: End) -> Step
        ensures step { result ≡ Step.Moved }
        ensures stopped { stop (end_of end) self.old.state ≡ Some self.new.state }
        ensures kept { self.new ≡ record self.old { state = self.new.state } }
    {
        self.end = Some(Ended::Told(end));
        Step::Moved
    }

    /// Ends the run with a trap.
    pub(crate) fn trap(&mut self, trap: Trap) -> Step
        ensures step { result ≡ Step.Moved }
        ensures stopped { Rattle.spec_machine.specs.Table.trap trap self.old.state ≡ Some self.new.state }
        ensures kept { self.new ≡ record self.old { state = self.new.state } }
    {
        self.stop(End::Trap(trap))
    }

    /// Returns what decides how the run ends, where it does.
    pub(crate) fn ending<'a>(&self, feed: &Feed<'a>) -> Ending<'a>
        ensures program { result.program.now ≡ feed.now.program.now }
        ensures input { result.input.now ≡ feed.now.input.now }
        ensures ended { result.ended ≡ feed.now.ended }
        ensures mark { result.mark ≡ self.now.state.store.mark }
        ensures over { result.over ≡ self.now.state.store.over }
    {
        Ending {
            program: feed.program,
            input: feed.input,
            ended: feed.ended,
            mark: self.mark(),
            over: self.is_over(),
        }
    }

    /// Returns whether the output is to be left where it lies: it is long, and is one segment with which
    /// the arena begins.
    fn leaves_output(&self) -> bool
        ensures { result ≡ true → is_front self.now.layout.out ≡ true }
    {
        match self.store.out_in_front() {
            Some(output) => output.len() > MOST_COPIED,
            None => false,
        }
    }

    /// Ends the run with the output, which is copied, or left where it lies. `NoMemory` where the copy needs
    /// more than there is.
    fn finish(&mut self) -> Step
        ensures takes { Takes (told Done self.old.state) result self.old self.new }
        ensures kept { self.new ≡ record self.old { state = record self.old.state { end = self.new.state.end } } }
    {
        if self.leaves_output() {
            self.end = Some(Ended::InStore);
            return Step::Moved;
        }
        match self.put_together() {
            Ok(output) => self.stop(End::Out(Outcome::Done(output))),
            Err(_) => Step::NoMemory,
        }
    }

    /// Ends the run or waits, as a verdict says.
    pub(crate) fn conclude(&mut self, verdict: Verdict) -> Step
        ensures takes { Takes (told verdict self.old.state) result self.old self.new }
        ensures kept { self.new ≡ record self.old { state = record self.old.state { end = self.new.state.end } } }
        ensures memory { result ≡ Step.NoMemory → verdict ≡ Done }
    {
        match verdict {
            Verdict::Waits => Step::Waits,
            Verdict::Malformed { kind, at } => self.stop(End::Out(Outcome::Malformed { kind, at })),
            Verdict::Mismatch(miss) => self.stop(End::Out(Outcome::Mismatch(miss))),
            Verdict::OutputTooLarge => self.stop(End::Out(Outcome::OutputTooLarge)),
            Verdict::Done => self.finish(),
            Verdict::Trap(trap) => self.trap(trap),
        }
    }

    /// Ends the run with a fault of the input, or waits for bytes where some are missing and more may come.
    pub(crate) fn refuse(&mut self, fault: Fault, feed: &Feed<'_>) -> Step
        requires { fault ≢ NoMemory }
        ensures takes { Takes (refused feed.now.program.now feed.now.input.now feed.now.ended fault self.old.state)
            result self.old self.new }
        ensures layout { self.new.layout ≡ self.old.layout }
        ensures pos { self.new.state.pos ≡ self.old.state.pos }
        ensures content { self.new.state.content ≡ self.old.state.content }
        ensures check { self.new.check ≡ self.old.check }
        ensures memory { result ≢ Step.NoMemory }
        ensures store { self.new.state.store ≡ self.old.state.store }
    {
        let verdict = self.ending(feed).refused(fault);
        self.conclude(verdict)
    }

    /// Goes on at the next instruction, with the bytes up to offset `to` read.
    pub(crate) fn next(&mut self, to: usize) -> Step
        requires { self.old.state.pc < MOST_INSTRS }
        ensures step { result ≡ Step.Moved }
        ensures next { self.new ≡ record self.old { state = next to self.old.state } }
    {
        self.pc += 1;
        self.pos = to;
        Step::Moved
    }

    /// Goes on at an address, with the bytes up to offset `to` read.
    pub(crate) fn jump(&mut self, address: usize, to: usize) -> Step
        ensures step { result ≡ Step.Moved }
        ensures jumped { self.new ≡ record self.old { state = record self.old.state { pc = address; pos = to } } }
    {
        self.pc = address;
        self.pos = to;
        Step::Moved
    }

    /// Returns how many calls are open.
    pub fn calls(&self) -> usize
        ensures { result ≡ length self.now.state.calls }
    {
        self.calls.len()
    }

    /// Calls the routine at an address: opens a call, and goes on there.
    pub(crate) fn push_call(&mut self, address: usize) -> Step
        requires { self.old.state.pc < MOST_INSTRS }
        ensures takes { Takes (Some (record self.old.state
            { pc = address; calls = (self.old.state.pc + 1) ∷ self.old.state.calls })) result self.old self.new }
        ensures layout { self.new.layout ≡ self.old.layout }
        ensures pos { self.new.state.pos ≡ self.old.state.pos }
        ensures content { self.new.state.content ≡ self.old.state.content }
    {
        if self.calls.push(self.pc + 1).is_err() {
            return Step::NoMemory;
        }
        self.pc = address;
        Step::Moved
    }

    /// Closes the newest call, and returns the address to return to. `None` where no call is open.
    pub(crate) fn pop_call(&mut self) -> Option<usize>
        ensures popped { option_to_list result ++ self.new.state.calls ≡ self.old.state.calls }
        ensures some { is_some result ≡ false → self.old.state.calls ≡ [] }
        ensures kept { self.new ≡ record self.old { state = record self.old.state { calls = self.new.state.calls } } }
    {
        self.calls.pop()
    }

    /// Appends bytes to the current buffer.
    pub(crate) fn add(&mut self, bytes: &[u8]) -> Result<(), AllocError>
        requires runs { self.old.state.end ≡ None }
        requires room { has_current self.old.state.store.frames ≡ true }
        ensures added { OnOk result (self.new.state ≡ added bytes.now self.old.state) }
        ensures appends { OnlyAppends self.old self.new }
        ensures check { self.new.check ≡ self.old.check }
        ensures refused { OnErr result (self.new ≡ self.old) }
    {
        self.store.add(bytes)
    }

    /// Appends the shortest encoding of `number` to the current buffer.
    pub(crate) fn add_long(&mut self, number: i64) -> Result<(), AllocError>
        requires runs { self.old.state.end ≡ None }
        requires room { has_current self.old.state.store.frames ≡ true }
        ensures added { OnOk result (self.new.state ≡ added (shortest number) self.old.state) }
        ensures appends { OnlyAppends self.old self.new }
        ensures check { self.new.check ≡ self.old.check }
        ensures refused { OnErr result (self.new ≡ self.old) }
    {
        self.scratch.clear();
        put_long(&mut self.scratch, number)?;
        self.store.add(&self.scratch)
    }

    /// Appends bytes to the current buffer, and goes on at the next instruction, with the bytes up to offset `to` read.
    pub(crate) fn move_bytes(&mut self, bytes: &[u8], to: usize) -> Step
        requires before { HasNext self.old }
        requires room { has_current self.old.state.store.frames ≡ true }
        ensures after { LeadsTo (next to (added bytes.now self.old.state)) result self.old self.new }
        ensures within { (len : ℕ) → self.old.state.pos ≤ len → to ≤ len → self.new.state.pos ≤ len }
    {
        if self.add(bytes).is_err() {
            return Step::NoMemory;
        }
        self.next(to)
    }

    /// Appends the shortest encoding of `number`, and goes on as `move_bytes` does. `spelling` is the encoding that
    /// was read; it is appended itself if it is the shortest.
    pub(crate) fn move_number(&mut self, number: i64, spelling: &[u8], to: usize) -> Step
        requires before { HasNext self.old }
        requires room { has_current self.old.state.store.frames ≡ true }
        requires tight { IsTight spelling.now → spelling.now ≡ shortest number }
        ensures after { LeadsTo (next to (added (shortest number) self.old.state)) result self.old self.new }
        ensures within { (len : ℕ) → self.old.state.pos ≤ len → to ≤ len → self.new.state.pos ≤ len }
    {
        if self.add_spelled(number, spelling).is_err() {
            return Step::NoMemory;
        }
        self.next(to)
    }

    /// Appends the shortest encoding of `number` to the current buffer. `spelling` is the encoding that was read; it
    /// is appended itself if it is the shortest.
    pub(crate) fn add_spelled(&mut self, number: i64, spelling: &[u8]) -> Result<(), AllocError>
        requires runs { self.old.state.end ≡ None }
        requires room { has_current self.old.state.store.frames ≡ true }
        requires tight { IsTight spelling.now → spelling.now ≡ shortest number }
        ensures added { OnOk result (self.new.state ≡ added (shortest number) self.old.state) }
        ensures appends { OnlyAppends self.old self.new }
        ensures check { self.new.check ≡ self.old.check }
        ensures refused { OnErr result (self.new ≡ self.old) }
    {
        if is_tight(spelling) {
            return self.add(spelling);
        }
        self.add_long(number)
    }
}

/// How a run ended, as a machine keeps it.
#[derive(Drop)]
pub(crate) enum Ended {
    /// With this end, in which an output is a copy.
    Told(End),
    /// With the output, which is in the store: one segment, with which the arena begins.
    InStore,
}

/// How a run ended, to be read.
#[derive(Clone, Copy)]
pub enum EndView<'a> {
    /// With the output.
    Done(&'a [u8]),
    /// With a value for which the reader has no place.
    Mismatch(Mismatch),
    /// With a payload that is no datum of the writer's, and the offset of the first fault.
    Malformed { kind: MalformedKind, at: usize },
    /// With an output that passed its limit.
    OutputTooLarge,
    /// With a trap.
    Trap(Trap),
}

/// Returns a view of an end.
pub(crate) fn view_of_end(end: &End) -> EndView<'_>
    ensures { end_view_of result ≡ end_of end.now }
{
    match end {
        End::Out(Outcome::Done(output)) => EndView::Done(output),
        End::Out(Outcome::Mismatch(mismatch)) => EndView::Mismatch(*mismatch),
        End::Out(Outcome::Malformed { kind, at }) => EndView::Malformed {
            kind: *kind,
            at: *at,
        },
        End::Out(Outcome::OutputTooLarge) => EndView::OutputTooLarge,
        End::Trap(trap) => EndView::Trap(*trap),
    }
}

/// Returns a view of an end that was kept beside a store.
pub(crate) fn view_of_ended<'a>(store: &'a Store, ended: &'a Ended) -> EndView<'a>
    requires { IsThere store.now.layout (Some ended.now) }
    ensures { end_view_of result ≡ ended_of store.now.store.out ended.now }
{
    match ended {
        Ended::Told(end) => view_of_end(end),
        Ended::InStore => match store.out_in_front() {
            Some(output) => EndView::Done(output),
            None => unreachable!(),
        },
    }
}

/// Returns an end that was kept beside a store, which is reset next. An output that is in the store is taken out of
/// it, in the memory in which it lies.
pub(crate) fn end_out_of(alloc: Global, store: &mut Store, ended: Ended) -> End
    requires { IsThere store.old.layout (Some ended) }
    ensures { end_of result ≡ ended_of store.old.store.out ended }
{
    match ended {
        Ended::Told(end) => end,
        Ended::InStore => match store.take_out(alloc) {
            Some(output) => End::Out(Outcome::Done(output)),
            None => unreachable!(),
        },
    }
}

impl Machine {
    /// Returns whether there is a current buffer below the newest frame.
    pub(crate) fn has_current_below(&self) -> bool
        ensures { result ≡ has_current_below self.now.state.store.frames }
    {
        self.store.has_current_below()
    }

    /// Returns how many slots the newest frame has, if it is a record.
    pub(crate) fn slots(&self) -> Option<usize>
        ensures { result ≡ slots_of self.now.state.store.frames }
    {
        self.store.slots()
    }

    /// Returns whether the newest frame is a record that is skipped.
    pub(crate) fn is_skip(&self) -> bool
        ensures { result ≡ is_skip self.now.state.store.frames }
    {
        self.store.is_skip()
    }

    /// Returns the walk of the newest frame, if it is an array or a map.
    pub(crate) fn walk(&self) -> Option<BlockWalk>
        ensures { result ≡ walk_of self.now.state.store.frames }
    {
        self.store.walk()
    }

    /// Returns the walk of the newest frame, if it is an array or a map that is skipped.
    pub(crate) fn skip_walk(&self) -> Option<BlockWalk>
        ensures { result ≡ skip_walk_of self.now.state.store.frames }
    {
        self.store.skip_walk()
    }

    /// Returns the index of the first miss. `None` where there was none.
    pub fn mark(&self) -> Option<u32>
        ensures { result ≡ self.now.state.store.mark }
    {
        self.store.mark()
    }

    /// Returns whether the output passed its limit.
    pub fn is_over(&self) -> bool
        ensures { result ≡ self.now.state.store.over }
    {
        self.store.is_over()
    }

    /// Marks a miss if it is the first, after which nothing is held any more.
    pub(crate) fn miss(&mut self, miss: u32)
        requires { self.old.state.end ≡ None }
        ensures missed { self.new.state ≡ missed miss self.old.state }
        ensures appends { OnlyAppends self.old self.new }
    {
        self.store.miss(miss);
    }

    /// Opens a frame, inside which there are as many units as `inside` says, and goes on at the next instruction.
    pub(crate) fn open(&mut self, opening: Opening, inside: Meter) -> Step
        requires before { HasNext self.old }
        requires few { FewSlots opening }
        requires deep { length self.old.state.store.frames < MOST_DEPTH }
        requires units { self.old.state.units ≤ inside.units }
        ensures after { LeadsTo (next self.old.state.pos (pushed (frame_of opening) inside self.old.state)) result
            self.old self.new }
        ensures pos { self.new.state.pos ≡ self.old.state.pos }
    {
        if self.store.open(opening, inside.units).is_err() {
            return Step::NoMemory;
        }
        self.pc += 1;
        Step::Moved
    }

    /// Selects a slot of the newest record, and goes on at the next instruction.
    pub(crate) fn select(&mut self, slot: usize) -> Step
        requires before { HasNext self.old }
        requires there { HasSlot slot (slots_of self.old.state.store.frames) }
        ensures after { LeadsTo
            (next self.old.state.pos (with_frames (select slot self.old.state.store.frames) self.old.state)) result
            self.old self.new }
        ensures pos { self.new.state.pos ≡ self.old.state.pos }
        ensures memory { result ≢ Step.NoMemory }
    {
        self.store.select(slot);
        self.pc += 1;
        Step::Moved
    }

    /// Closes the newest record, and goes on at the next instruction.
    pub(crate) fn close_record(&mut self) -> Step
        requires before { HasNext self.old }
        requires record { is_some (slots_of self.old.state.store.frames) ≡ true }
        requires below { has_current_below self.old.state.store.frames ≡ true }
        ensures after { LeadsTo (next self.old.state.pos (record self.old.state
            { store = close_record self.old.state.store.frames self.old.state.store })) result self.old self.new }
        ensures joins { AppendsThese [] self.old self.new }
        ensures pos { self.new.state.pos ≡ self.old.state.pos }
    {
        if self.store.close_record().is_err() {
            return Step::NoMemory;
        }
        self.pc += 1;
        Step::Moved
    }

    /// Leaves the newest frame, which is skipped.
    pub(crate) fn leave(&mut self)
        requires runs { self.old.state.end ≡ None }
        requires skipped { is_skipped self.old.state.store.frames ≡ true }
        ensures left { self.new.state ≡ with_frames (leave self.old.state.store.frames) self.old.state }
        ensures appends { OnlyAppends self.old self.new }
    {
        self.store.leave();
    }

    /// Goes on at the next item of the newest array or map, with the bytes up to offset `to` read.
    #[tactic(auto, using(crate::proofs::Appending::next_many, crate::proofs::Appending::same_arena))]
    pub(crate) fn gather(&mut self, walk: BlockWalk, to: usize, inside: Meter) -> Step
        requires before { HasNext self.old }
        requires blocks { is_some (walk_of self.old.state.store.frames) ≡ true }
        requires units { self.old.state.units < inside.units }
        ensures step { result ≡ Step.Moved }
        ensures appends { OnlyAppends self.old self.new }
        ensures arena { self.new.layout.arena ≡ self.old.layout.arena }
        ensures gathered { self.new.state ≡ record (next to
            (with_frames (next_item walk self.old.state.store.frames) self.old.state)) { units = inside.units } }
        ensures frames { length self.new.state.store.frames ≡ length self.old.state.store.frames }
    {
        self.store.next_item(walk, inside.units);
        self.pc += 1;
        self.pos = to;
        Step::Moved
    }

    /// Goes on at the next item of the newest array or map, which is skipped, with the bytes up to offset `to` read.
    pub(crate) fn pass(&mut self, walk: BlockWalk, to: usize, inside: Meter) -> Step
        requires before { HasNext self.old }
        requires blocks { is_some (skip_walk_of self.old.state.store.frames) ≡ true }
        requires units { self.old.state.units ≤ inside.units }
        ensures step { result ≡ Step.Moved }
        ensures appends { OnlyAppends self.old self.new }
        ensures passed { self.new.state ≡ record (next to
            (with_frames (next_skipped walk self.old.state.store.frames) self.old.state)) { units = inside.units } }
    {
        self.store.next_skipped(walk, inside.units);
        self.pc += 1;
        self.pos = to;
        Step::Moved
    }

    /// Closes the newest array or map, and goes on at an address, with the bytes up to offset `to` read.
    pub(crate) fn close_blocks(&mut self, address: usize, to: usize) -> Step
        requires runs { self.old.state.end ≡ None }
        requires blocks { is_some (walk_of self.old.state.store.frames) ≡ true }
        requires below { has_current_below self.old.state.store.frames ≡ true }
        ensures takes { Takes (Some (record self.old.state {
          pc = address;
          pos = to;
          store = close_blocks
              self.old.state.store.frames self.old.state.store;
        })) result self.old self.new }
        ensures appends { OnlyAppends self.old self.new }
        ensures joins { AppendsThese (closing_bytes self.old.state.store.frames self.new.state.store.frames)
            self.old self.new }
        ensures content { self.new.state.content ≡ self.old.state.content }
    {
        if self
            .store
            .close_blocks(self.alloc, &mut self.scratch)
            .is_err()
        {
            return Step::NoMemory;
        }
        self.pc = address;
        self.pos = to;
        Step::Moved
    }

    /// Returns a copy of the output's bytes.
    pub(crate) fn put_together(&self) -> Result<Vec<u8>, AllocError>
        ensures { IfOk result (λ out. out.items ≡ self.now.state.store.out) }
    {
        self.store.put_together(self.alloc)
    }
}

impl Machine {
    /// Returns how the run ended, to be read. `None` where it has not ended.
    pub fn end(&self) -> Option<EndView<'_>>
        ensures { option_map end_view_of result ≡ self.now.state.end }
    {
        match &self.end {
            Some(ended) => Some(view_of_ended(&self.store, ended)),
            None => None,
        }
    }

    /// Returns how the run ended, and goes back to the state that `new` returns, in the memory that is left: an
    /// output that is left in the arena takes the arena's memory along. `None` where the run has not ended.
    pub fn end_and_reset(&mut self) -> Option<End>
        ensures end { option_map end_of result ≡ self.old.state.end }
        ensures begun { self.new ≡ start }
    {
        let end = match self.end.take() {
            Some(ended) => Some(end_out_of(self.alloc, &mut self.store, ended)),
            None => None,
        };
        self.reset();
        end
    }

    /// Returns how the run ended. `None` where it has not ended.
    pub fn into_end(self) -> Option<End>
        ensures { option_map end_of result ≡ self.state.end }
    {
        let (alloc, mut store, end) = (self.alloc, self.store, self.end);
        match end {
            Some(ended) => Some(end_out_of(alloc, &mut store, ended)),
            None => None,
        }
    }
}
