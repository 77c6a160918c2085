//! The frames that are open, and the buffers that they add to.

ghost use Rattle.std.specs.Prelude.{◌≡◌, ◌+◌, ◌-◌, ◌<◌, ◌≤◌, true, false, [], ◌∷◌, length, is_some, reverse, vec_len, Some, None, OnErr, OnOk, OnSome, IfNone, IfOk, IfSome};
ghost use Rattle.spec_avro.specs.declared.limits.TheConstants.{MOST_DEPTH, MOST_OUTPUT};
ghost use Rattle.spec_machine.specs.State.{add, emptied, has_current, is_done, total};
ghost use Rattle.machine_store.specs.Buffers.{is_front};
ghost use Rattle.machine_store.specs.Frames.{FewSlots, HasSlot, HoldsBuffers, first_of, frame_of, has_current_below, is_skip, is_skipped, items_of, newest_place, opened_at, place_of, skip_walk_of, slots_of, slots_opened, walk_of};
ghost use Rattle.machine_store.specs.Store.{Appends, around_items, close_blocks, close_record, closed_between, leave, meter_of, next_item, next_skipped, select, with_frames};

use crate::buffers::{Buffers, TargetBuffer};
use crate::spell_around;
use avro_bytes::{BlockWalk, MOST_OUTPUT, Meter};
use std::alloc::{AllocError, Global};
use std::marker::Model;

/// What is open, and where its slots begin.
#[derive(Clone, Copy)]
pub enum Frame {
    /// The bottom, below all frames.
    Bottom,
    /// A record: its first slot, and the slot that is selected.
    Record {
        first: usize,
        selected: Option<usize>,
    },
    /// A record that is skipped.
    Skip,
    /// An array or a map: its slot, its walk, and how many items came.
    Blocks {
        first: usize,
        walk: BlockWalk,
        items: u32,
    },
    /// An array or a map that is skipped.
    SkipBlocks {
        walk: BlockWalk,
    },
}

/// A frame that is to be opened.
#[derive(Clone, Copy)]
pub enum Opening {
    /// A record of this many slots.
    Record(usize),
    Skip,
    Blocks(BlockWalk),
    SkipBlocks(BlockWalk),
}

impl Frame {
    /// Returns the current buffer, if this is the newest frame. `None` where it has none.
    fn place(self) -> Option<TargetBuffer>
        ensures { result ≡ place_of self }
    {
        match self {
            Frame::Bottom => Some(TargetBuffer::Out),
            Frame::Record { selected, .. } => match selected {
                Some(at) => Some(TargetBuffer::Slot(at)),
                None => None,
            },
            Frame::Blocks { first, .. } => Some(TargetBuffer::Slot(first)),
            _ => None,
        }
    }

    /// Returns the first slot of the frame. `None` where it has no slots of its own.
    pub(crate) fn first(self) -> Option<usize>
        ensures { result ≡ first_of self }
    {
        match self {
            Frame::Record { first, .. } | Frame::Blocks { first, .. } => Some(first),
            _ => None,
        }
    }
}

impl Opening {
    /// Returns how many slots it takes.
    fn slots(&self) -> usize
        ensures { result ≡ slots_opened self.now }
    {
        match self {
            Opening::Record(slots) => *slots,
            Opening::Blocks(_) => 1,
            _ => 0,
        }
    }

    /// Returns the frame that it opens, whose first slot is `first`.
    fn frame(self, first: usize) -> Frame
        ensures { result ≡ opened_at first self }
    {
        match self {
            Opening::Record(_) => Frame::Record {
                first,
                selected: None,
            },
            Opening::Skip => Frame::Skip,
            Opening::Blocks(walk) => Frame::Blocks {
                first,
                walk,
                items: 0,
            },
            Opening::SkipBlocks(walk) => Frame::SkipBlocks { walk },
        }
    }
}

/// Returns the current buffer, if the last of these frames is the newest. `None` where there is none.
fn newest_place(frames: &[Frame]) -> Option<TargetBuffer>
    ensures { result ≡ newest_place (reverse frames.now) }
{
    frames.last()?.place()
}

/// Removes the last of these frames, and returns it.
fn popped(frames: &mut Vec<Frame>) -> Frame
    requires { 0 < vec_len frames.old }
    ensures { reverse frames.old.items ≡ result ∷ reverse frames.new.items }
{
    match frames.pop() {
        Some(frame) => frame,
        None => unreachable!(),
    }
}

/// What a run holds: open frames with their buffers, the output, the first miss, and whether the output
/// passed its limit.
#[derive(Drop)]
pub struct Store {
    pub(crate) top: Frame,
    pub(crate) below: Vec<Frame>,
    pub(crate) buffers: Buffers,
    /// How many bytes of the arena no buffer holds any more.
    lost: usize,
    units: u32,
    mark: Option<u32>,
    over: bool,
}

impl Model for Store {
    ghost use Rattle.std.specs.Prelude.{◌∷◌, reverse};
    ghost use Rattle.machine_store.specs.Store.{Held, IsKept, held_of};

    ghost Value = { Held };

    ghost view = { λ s. held_of (s.top ∷ reverse s.below.items) s.buffers s.units s.mark s.over };

    ghost invariant = { λ s. IsKept (s.top ∷ reverse s.below.items) s.buffers s.lost s.units s.mark s.over };
}

impl Store {
    ghost use Rattle.machine_store.specs.Store.{start};

    /// Returns a store that holds nothing.
    pub fn new(alloc: Global) -> Store
        ensures { result ≡ start }
    {
        Store {
            top: Frame::Bottom,
            below: Vec::new(alloc),
            buffers: Buffers::new(alloc),
            lost: 0,
            units: 0,
            mark: None,
            over: false,
        }
    }

    /// Goes back to the store that `new` returns, and keeps the memory.
    pub fn reset(&mut self)
        ensures { self.new ≡ start }
    {
        self.top = Frame::Bottom;
        self.below.clear();
        self.buffers.clear();
        self.lost = 0;
        self.units = 0;
        self.mark = None;
        self.over = false;
    }

    /// Releases memory beyond what is held, but keeps enough for `bytes` bytes and for a 64th as many slots and frames.
    pub fn shrink_to(&mut self, bytes: usize)
        ensures { self.new ≡ self.old }
    {
        self.below.shrink_to(bytes / 64);
        self.buffers.shrink_to(bytes);
    }

    /// Returns how many frames are open, and how many units there were.
    pub fn meter(&self) -> Meter
        ensures { result ≡ meter_of self.now }
    {
        Meter {
            depth: self.below.len() as u32,
            units: self.units,
        }
    }

    /// Returns the index of the first miss. `None` where there was none.
    pub fn mark(&self) -> Option<u32>
        ensures { result ≡ self.now.store.mark }
    {
        self.mark
    }

    /// Returns whether the output passed its limit.
    pub fn is_over(&self) -> bool
        ensures { result ≡ self.now.store.over }
    {
        self.over
    }

    /// Returns the bytes of all buffers, and those that no buffer holds any more.
    pub fn arena(&self) -> &[u8]
        ensures { result.now ≡ self.now.layout.arena }
    {
        self.buffers.arena()
    }

    /// Returns whether there is a current buffer.
    pub fn has_current(&self) -> bool
        ensures { result ≡ has_current self.now.store.frames }
    {
        self.top.place().is_some()
    }

    /// Returns whether there is a current buffer below the newest frame.
    pub fn has_current_below(&self) -> bool
        ensures { result ≡ has_current_below self.now.store.frames }
    {
        newest_place(&self.below).is_some()
    }

    /// Returns how many slots the newest frame has, if it is a record.
    pub fn slots(&self) -> Option<usize>
        ensures { result ≡ slots_of self.now.store.frames }
    {
        match self.top {
            Frame::Record { first, .. } => Some(self.buffers.len() - first),
            _ => None,
        }
    }

    /// Returns whether the newest frame is a record that is skipped.
    pub fn is_skip(&self) -> bool
        ensures { result ≡ is_skip self.now.store.frames }
    {
        matches!(self.top, Frame::Skip)
    }

    /// Returns the walk of the newest frame, if it is an array or a map.
    pub fn walk(&self) -> Option<BlockWalk>
        ensures { result ≡ walk_of self.now.store.frames }
    {
        match self.top {
            Frame::Blocks { walk, .. } => Some(walk),
            _ => None,
        }
    }

    /// Returns the walk of the newest frame, if it is an array or a map that is skipped.
    pub fn skip_walk(&self) -> Option<BlockWalk>
        ensures { result ≡ skip_walk_of self.now.store.frames }
    {
        match self.top {
            Frame::SkipBlocks { walk } => Some(walk),
            _ => None,
        }
    }

    /// Returns whether nothing is held any more: a miss is marked, or the output passed its limit.
    fn is_done(&self) -> bool
        ensures { result ≡ is_done self.now.store.mark self.now.store.over }
    {
        self.mark.is_some() || self.over
    }

    /// Returns how many bytes the buffers have.
    fn held(&self) -> usize
        ensures held { result ≡ total self.now.store }
        ensures few { result ≤ MOST_OUTPUT }
    {
        self.buffers.arena().len() - self.lost
    }

    /// Returns how many more bytes the buffers may have.
    pub fn room(&self) -> usize
        ensures { result ≡ MOST_OUTPUT - total self.now.store }
    {
        MOST_OUTPUT - self.held()
    }

    /// Appends bytes to the current buffer. Where they would pass the limit, that is noted, and nothing
    /// is held any more.
    pub fn add(&mut self, bytes: &[u8]) -> Result<(), AllocError>
        requires { has_current self.old.store.frames ≡ true }
        ensures added { OnOk result (self.new.store ≡ add bytes.now self.old.store) }
        ensures units { self.new.units ≡ self.old.units }
        ensures arena { OnOk result (Appends bytes.now self.old self.new) }
        ensures refused { OnErr result (self.new ≡ self.old) }
    {
        if self.is_done() {
            return Ok(());
        }
        if bytes.len() > self.room() {
            self.pass_limit();
            return Ok(());
        }
        self.buffers.are_laid(); // law
        match self.top.place() {
            Some(place) => self.buffers.add(place, bytes),
            None => unreachable!(),
        }
    }

    /// Sets the number of units.
    pub fn count_units(&mut self, units: u32)
        requires { self.old.units ≤ units }
        ensures { self.new ≡ record self.old { units = units } }
    {
        self.units = units;
    }

    /// Marks a miss if it is the first, and then empties all buffers: nothing is held any more.
    pub fn miss(&mut self, miss: u32)
        ensures missed { self.new.store ≡ Rattle.spec_machine.specs.State.miss miss self.old.store }
        ensures units { self.new.units ≡ self.old.units }
    {
        match self.mark {
            None => {
                self.mark = Some(miss);
                self.buffers.empty_all();
                self.lost = 0;
            }
            Some(_) => {}
        }
    }

    /// Opens a frame, after which there are `units` units.
    pub fn open(&mut self, opening: Opening, units: u32) -> Result<(), AllocError>
        requires few { FewSlots opening }
        requires deep { length self.old.store.frames < MOST_DEPTH }
        requires units { self.old.units ≤ units }
        ensures opened { OnOk result
            (self.new.store ≡ with_frames (frame_of opening ∷ self.old.store.frames) self.old.store) }
        ensures units { OnOk result (self.new.units ≡ units) }
        ensures arena { self.new.layout.arena ≡ self.old.layout.arena }
        ensures refused { OnErr result (self.new ≡ self.old) }
    {
        let first = self.buffers.len();
        self.below.try_reserve(1)?;
        self.buffers.open(opening.slots())?;
        self.below.push(self.top)?;
        self.top = opening.frame(first);
        self.units = units;
        Ok(())
    }

    /// Selects a slot of the newest record: bytes go there from now on.
    pub fn select(&mut self, slot: usize)
        requires { HasSlot slot (slots_of self.old.store.frames) }
        ensures selected { self.new.store ≡ with_frames (select slot self.old.store.frames) self.old.store }
        ensures units { self.new.units ≡ self.old.units }
        ensures arena { self.new.layout.arena ≡ self.old.layout.arena }
    {
        let _slots = self.buffers.len(); // read for the proof
        if let Frame::Record { first, .. } = self.top {
            self.top = Frame::Record {
                first,
                selected: Some(first + slot),
            };
        }
    }

    /// Leaves the newest frame, which is skipped.
    pub fn leave(&mut self)
        requires { is_skipped self.old.store.frames ≡ true }
        ensures left { self.new.store ≡ with_frames (leave self.old.store.frames) self.old.store }
        ensures units { self.new.units ≡ self.old.units }
        ensures arena { self.new.layout.arena ≡ self.old.layout.arena }
    {
        self.top = popped(&mut self.below);
    }

    /// Moves the newest frame, which is an array or a map, to its next item. `units` is how many units there are then.
    pub fn next_item(&mut self, walk: BlockWalk, units: u32)
        requires blocks { is_some (walk_of self.old.store.frames) ≡ true }
        requires units { self.old.units < units }
        ensures next { self.new.store ≡ with_frames (next_item walk self.old.store.frames) self.old.store }
        ensures units { self.new.units ≡ units }
        ensures arena { self.new.layout.arena ≡ self.old.layout.arena }
    {
        if let Frame::Blocks { first, items, .. } = self.top {
            self.top = Frame::Blocks {
                first,
                walk,
                items: items + 1,
            };
            self.units = units;
        }
    }

    /// Moves the newest frame, which is an array or a map that is skipped, to its next item. `units` is how many
    /// units there are then.
    pub fn next_skipped(&mut self, walk: BlockWalk, units: u32)
        requires blocks { is_some (skip_walk_of self.old.store.frames) ≡ true }
        requires units { self.old.units ≤ units }
        ensures next { self.new.store ≡ with_frames (next_skipped walk self.old.store.frames) self.old.store }
        ensures units { self.new.units ≡ units }
        ensures arena { self.new.layout.arena ≡ self.old.layout.arena }
    {
        self.top = Frame::SkipBlocks { walk };
        self.units = units;
    }

    /// Notes that the output passed its limit, and empties all buffers: nothing is held any more.
    fn pass_limit(&mut self)
        ensures passed { self.new.store ≡ emptied (record self.old.store { over = true }) }
        ensures units { self.new.units ≡ self.old.units }
    {
        self.over = true;
        self.buffers.empty_all();
        self.lost = 0;
    }

    /// Closes the newest frame and drops its buffers, where nothing is held any more.
    fn drop_newest(&mut self)
        requires holds { HoldsBuffers self.old.store.frames }
        requires done { is_done self.old.store.mark self.old.store.over ≡ true }
        ensures dropped { self.new.store ≡ with_frames (leave self.old.store.frames) self.old.store }
        ensures units { self.new.units ≡ self.old.units }
    {
        let Some(first) = self.top.first() else {
            unreachable!()
        };
        self.buffers.shorten(first);
        self.top = popped(&mut self.below);
    }

    /// Closes the newest frame: moves what it holds to the current buffer below, with the first `before` bytes of
    /// `around` before it and the others after it.
    fn close(&mut self, around: &[u8], before: usize) -> Result<(), AllocError>
        requires holds { HoldsBuffers self.old.store.frames }
        requires below { has_current_below self.old.store.frames ≡ true }
        requires before { before ≤ length around.now }
        ensures closed { OnOk result
            (self.new.store ≡ closed_between around.now before self.old.store.frames self.old.store) }
        ensures units { self.new.units ≡ self.old.units }
        ensures arena { OnOk result (Appends around.now self.old self.new) }
        ensures refused { OnErr result (self.new ≡ self.old) }
    {
        if self.is_done() {
            self.drop_newest();
            return Ok(());
        }
        if around.len() > self.room() {
            self.pass_limit();
            self.drop_newest();
            return Ok(());
        }
        let Some(first) = self.top.first() else {
            unreachable!()
        };
        let Some(into) = newest_place(&self.below) else {
            unreachable!()
        };
        self.buffers.are_laid(); // law
        self.buffers.close(first, into, around, before)?;
        self.top = popped(&mut self.below);
        Ok(())
    }

    /// Closes the newest frame, which is a record: its slots, in order, go to the current buffer below it.
    pub fn close_record(&mut self) -> Result<(), AllocError>
        requires record { is_some (slots_of self.old.store.frames) ≡ true }
        requires below { has_current_below self.old.store.frames ≡ true }
        ensures closed { OnOk result (self.new.store ≡ close_record self.old.store.frames self.old.store) }
        ensures units { self.new.units ≡ self.old.units }
        ensures arena { OnOk result (Appends [] self.old self.new) }
        ensures refused { OnErr result (self.new ≡ self.old) }
    {
        self.close(&[], 0)
    }

    /// Closes the newest frame, which is an array or a map without items: `00` goes to the current buffer below it,
    /// and what its own buffer holds is dropped. `scratch` is used on the way.
    fn close_empty(&mut self, alloc: Global, scratch: &mut Vec<u8>) -> Result<(), AllocError>
        requires blocks { is_some (walk_of self.old.store.frames) ≡ true }
        requires below { has_current_below self.old.store.frames ≡ true }
        ensures closed { OnOk result
            (self.new.store ≡ add (0 ∷ []) (with_frames (leave self.old.store.frames) self.old.store)) }
        ensures units { self.new.units ≡ self.old.units }
        ensures arena { OnOk result (Appends (0 ∷ []) self.old self.new) }
        ensures refused { OnErr result (self.new ≡ self.old) }
    {
        if self.is_done() {
            self.drop_newest();
            return Ok(());
        }
        let Some(first) = self.top.first() else {
            unreachable!()
        };
        let Some(into) = newest_place(&self.below) else {
            unreachable!()
        };
        scratch.clear();
        self.buffers
            .write(alloc, TargetBuffer::Slot(first), scratch)?;
        let held = self.held() - scratch.len();
        if held == MOST_OUTPUT {
            self.pass_limit();
            self.drop_newest();
            return Ok(());
        }
        self.buffers.are_laid(); // law
        self.buffers.add(into, &[0])?;
        self.buffers.shorten(first);
        self.lost = self.buffers.arena().len() - (held + 1);
        self.top = popped(&mut self.below);
        Ok(())
    }

    /// Closes the newest frame, which is an array or a map: its items go in one block to the current buffer below it,
    /// or `00` alone where it has none. `scratch` is used on the way.
    pub fn close_blocks(&mut self, alloc: Global, scratch: &mut Vec<u8>) -> Result<(), AllocError>
        requires blocks { is_some (walk_of self.old.store.frames) ≡ true }
        requires below { has_current_below self.old.store.frames ≡ true }
        ensures closed { OnOk result (self.new.store ≡ close_blocks self.old.store.frames self.old.store) }
        ensures units { self.new.units ≡ self.old.units }
        ensures arena { OnOk result (Appends (around_items self.old.store.frames) self.old self.new) }
        ensures refused { OnErr result (self.new ≡ self.old) }
    {
        let items = self.items();
        if items == 0 {
            return self.close_empty(alloc, scratch);
        }
        let before = spell_around(scratch, items)?;
        self.close(scratch, before)
    }

    /// Returns how many items the newest frame has: 0 where it is no array or map that is added.
    fn items(&self) -> u32
        ensures { result ≡ items_of self.now.store.frames }
    {
        match self.top {
            Frame::Blocks { items, .. } => items,
            _ => 0,
        }
    }

    /// Returns the bytes of the output, if it is one segment with which the arena begins.
    pub fn out_in_front(&self) -> Option<&[u8]>
        ensures some { is_some result ≡ is_front self.now.layout.out }
        ensures bytes { IfSome result (λ out. out.now ≡ self.now.store.out) }
    {
        self.buffers.out_in_front()
    }

    /// Takes the output out, if it is one segment with which the arena begins: hands out the arena's own memory, and
    /// goes back to the store that `new` returns, in the memory that is left. `None` leaves all as it was.
    pub fn take_out(&mut self, alloc: Global) -> Option<Vec<u8>>
        ensures some { is_some result ≡ is_front self.old.layout.out }
        ensures bytes { IfSome result (λ out. out.items ≡ self.old.store.out) }
        ensures taken { OnSome result (self.new ≡ start) }
        ensures kept { IfNone result (self.new ≡ self.old) }
    {
        match self.buffers.take_out(alloc) {
            Some(out) => {
                self.top = Frame::Bottom;
                self.below.clear();
                self.lost = 0;
                self.units = 0;
                self.mark = None;
                self.over = false;
                Some(out)
            }
            None => None,
        }
    }

    /// Returns a copy of the output's bytes.
    pub fn put_together(&self, alloc: Global) -> Result<Vec<u8>, AllocError>
        ensures { IfOk result (λ out. out.items ≡ self.now.store.out) }
    {
        let mut out = Vec::with_capacity(alloc, self.buffers.arena().len())?;
        self.buffers.write(alloc, TargetBuffer::Out, &mut out)?;
        Ok(out)
    }
}
