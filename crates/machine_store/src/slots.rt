//! Slots, whose buffers take memory only once something is put there.

ghost use Rattle.std.specs.Prelude.{ℕ, ◌≡◌, ◌+◌, ◌-◌, ◌^◌, ◌<◌, ◌≤◌, [], ◌++◌, OnErr, OnOk, get_or, length, replicate, set, take, vec_capacity, vec_len};
ghost use Rattle.machine_store.specs.declared.buffers.Buffer.TheVariants.{Empty};
ghost use Rattle.machine_store.specs.Slots.{IsAbove, held_at, held_after, index_after};

use crate::buffers::Buffer;
use std::alloc::{AllocError, Global};
use std::marker::Model;

/// A buffer, and the slot that it belongs to.
#[derive(Clone, Copy)]
pub(crate) struct HeldBuffer {
    slot: usize,
    buffer: Buffer,
}

/// Returns the number that the index has for a slot: 0 where no buffer is held for it, else one more than the
/// position of its buffer.
fn number_at(index: &[u32], slot: usize) -> u32
    ensures { result ≡ get_or index.now slot 0 }
{
    match index.get(slot) {
        Some(number) => *number,
        None => 0,
    }
}

/// Returns the buffer that a number of the index refers to.
fn buffer_held(held: &[HeldBuffer], number: u32) -> Buffer
    requires { number ≤ length held.now }
    ensures { result ≡ held_at held.now number }
{
    if number == 0 {
        Buffer::Empty
    } else {
        held[number as usize - 1].buffer
    }
}

/// Returns how many buffers are left once those at the end are removed that belong to slots from `first` on.
fn left_below(held: &[HeldBuffer], first: usize) -> usize
    ensures within { result ≤ length held.now }
    ensures above { (at : ℕ) → result ≤ at → at < length held.now → IsAbove first at held.now }
{
    let mut left = held.len();
    while left > 0 && held[left - 1].slot >= first {
        left -= 1;
    }
    left
}

/// Makes room for one more buffer, and for the numbers of `slots` slots. Where there would be more buffers than
/// numbers for them, the error is that for lack of memory.
fn make_room(
    index: &mut Vec<u32>,
    held: &mut Vec<HeldBuffer>,
    slots: usize,
) -> Result<(), AllocError>
    ensures held { held.new.items ≡ held.old.items }
    ensures same { (i : ℕ) → get_or index.new.items i 0 ≡ get_or index.old.items i 0 }
    ensures short { (n : ℕ) → slots ≤ n → vec_len index.old ≤ n → vec_len index.new ≤ n }
    ensures index { OnOk result (slots ≤ vec_len index.new) }
    ensures room { OnOk result (vec_len held.new < vec_capacity held.new) }
    ensures few { OnOk result (vec_len held.new < 2 ^ 32 - 1) }
{
    if held.len() >= u32::MAX as usize {
        return Err(AllocError);
    }
    if slots > index.len() {
        index.resize(slots, 0)?;
    }
    held.try_reserve(1)
}

/// Replaces the buffer of a slot, or adds it after the others where there is none yet.
fn put(index: &mut Vec<u32>, held: &mut Vec<HeldBuffer>, slot: usize, buffer: Buffer)
    requires there { slot < vec_len index.old }
    requires known { get_or index.old.items slot 0 ≤ vec_len held.old }
    requires room { vec_len held.old < vec_capacity held.old }
    requires few { vec_len held.old < 2 ^ 32 - 1 }
    ensures index { index.new.items
        ≡ index_after slot (get_or index.old.items slot 0) (length held.old.items) index.old.items }
    ensures held { held.new.items
        ≡ held_after (record { slot = slot; buffer = buffer }) (get_or index.old.items slot 0) held.old.items }
{
    let number = index[slot];
    let entry = HeldBuffer { slot, buffer };
    if number == 0 {
        index[slot] = held.len() as u32 + 1;
        held.push_reserved(entry);
    } else {
        held[number as usize - 1] = entry;
    }
}

/// Slots with a buffer each. Callers see the list of these buffers.
#[derive(Drop)]
pub(crate) struct Slots {
    len: usize,
    /// The number of each slot's buffer, as `number_at` has it, of the records for which something came,
    /// and of those below.
    index: Vec<u32>,
    held: Vec<HeldBuffer>,
}

impl Model for Slots {
    ghost use Rattle.std.specs.Prelude.{List};
    ghost use Rattle.machine_store.specs.declared.buffers.Buffer.{Buffer};

    ghost Value = { List Buffer };

    ghost use Rattle.machine_store.specs.Slots.{AreIndexed, buffers_of};

    ghost view = { λ s. buffers_of s.len s.index.items s.held.items };

    ghost invariant = { λ s. AreIndexed s.len s.index.items s.held.items };
}

impl Slots {
    /// Returns no slots.
    pub(crate) fn new(alloc: Global) -> Slots
        ensures { result ≡ [] }
    {
        Slots {
            len: 0,
            index: Vec::new(alloc),
            held: Vec::new(alloc),
        }
    }

    /// Removes all slots, and keeps the memory.
    pub(crate) fn clear(&mut self)
        ensures { self.new ≡ [] }
    {
        self.len = 0;
        self.index.clear();
        self.held.clear();
    }

    /// Releases memory beyond what is held, but keeps enough for `slots` slots.
    pub(crate) fn shrink_to(&mut self, slots: usize)
        ensures { self.new ≡ self.old }
    {
        self.index.shrink_to(slots);
        self.held.shrink_to(slots);
    }

    /// Returns how many slots there are.
    pub(crate) fn len(&self) -> usize
        ensures { result ≡ length self.now }
    {
        self.len
    }

    /// Returns the buffer of a slot.
    pub(crate) fn get(&self, slot: usize) -> Buffer
        requires { slot < length self.now }
        ensures { result ≡ get_or self.now slot Empty }
    {
        buffer_held(&self.held, number_at(&self.index, slot))
    }

    /// Appends `more` empty slots, which take no memory. It fails only where they would be more than can be counted.
    pub(crate) fn open(&mut self, more: usize) -> Result<(), AllocError>
        ensures opened { OnOk result (self.new ≡ self.old ++ replicate more Empty) }
        ensures refused { OnErr result (self.new ≡ self.old) }
    {
        if more > usize::MAX - self.len {
            return Err(AllocError);
        }
        self.len += more;
        Ok(())
    }

    /// Removes the slots from `first` on.
    pub(crate) fn shorten(&mut self, first: usize)
        ensures { self.new ≡ take first self.old }
    {
        if first < self.len {
            let left = left_below(&self.held, first);
            self.held.truncate(left);
            self.index.truncate(first);
            self.len = first;
        }
    }

    /// Puts a buffer into a slot.
    pub(crate) fn set(&mut self, slot: usize, buffer: Buffer) -> Result<(), AllocError>
        requires { slot < length self.old }
        ensures set { OnOk result (self.new ≡ set self.old slot buffer) }
        ensures refused { OnErr result (self.new ≡ self.old) }
    {
        make_room(&mut self.index, &mut self.held, self.len)?;
        put(&mut self.index, &mut self.held, slot, buffer);
        Ok(())
    }

    /// Removes the slots from `first` on, and puts a buffer into a slot below them.
    pub(crate) fn close(
        &mut self,
        first: usize,
        slot: usize,
        buffer: Buffer,
    ) -> Result<(), AllocError>
        requires below { slot < first }
        requires first { first ≤ length self.old }
        ensures closed { OnOk result (self.new ≡ set (take first self.old) slot buffer) }
        ensures refused { OnErr result (self.new ≡ self.old) }
    {
        make_room(&mut self.index, &mut self.held, first)?;
        let left = left_below(&self.held, first);
        self.held.truncate(left);
        self.index.truncate(first);
        self.len = first;
        put(&mut self.index, &mut self.held, slot, buffer);
        Ok(())
    }

    /// Empties each slot.
    pub(crate) fn empty_all(&mut self)
        ensures { self.new ≡ replicate (length self.old) Empty }
    {
        self.index.clear();
        self.held.clear();
    }
}
