//! Buffers, as segments of one arena.

ghost use Rattle.std.specs.Prelude.{◌≡◌, ◌≢◌, ◌+◌, ◌-◌, ◌^◌, ◌<◌, ◌≤◌, [], ◌++◌, drop, is_some, length, map, slice_get, take, IfNone, IfOk, IfSome, OnErr, OnOk, OnSome};
ghost use Rattle.spec_machine.specs.declared.limits.TheConstants.{MOST_SLOTS};
ghost use Rattle.machine_store.specs.declared.buffers.Buffer.TheVariants.{Empty};
ghost use Rattle.machine_store.specs.Buffers.{AreLaid, AreRopes, IsHeld, AllHeld, IsLater, IsPlace, buffer_at, is_front, out_after, segments_at, segments_of, slots_after, with_added, with_closed, with_fewer, with_none, with_opened};
ghost use Rattle.machine_store.specs.Segments.{bytes_of, with_bytes, with_lists, with_segment, with_segments};

use crate::slots::Slots;
use crate::{Ropes, Segment};
use std::alloc::{AllocError, Global};
use std::marker::Model;
use std::mem;

/// The segments of a buffer.
#[derive(Clone, Copy)]
pub enum Buffer {
    Empty,
    One(Segment),
    /// A first and a last segment, and the index of the rope between them.
    More {
        first: Segment,
        middle: usize,
        last: Segment,
    },
}

/// Which buffer: the output, or a slot.
#[derive(Clone, Copy)]
pub enum TargetBuffer {
    Out,
    Slot(usize),
}

/// Returns the buffer with a segment appended to its own.
fn joined_segment(ropes: &mut Ropes, buffer: Buffer, segment: Segment) -> Result<Buffer, AllocError>
    requires ropes { AreRopes ropes.old }
    requires held { IsHeld ropes.old buffer }
    ensures segments { IfOk result
        (λ b. segments_of ropes.new b ≡ with_segment (segments_of ropes.old buffer) segment) }
    ensures some { IfOk result (λ b. b ≢ Empty) }
    ensures held { IfOk result (λ b. IsHeld ropes.new b) }
    ensures later { IsLater ropes.old ropes.new }
{
    match buffer {
        Buffer::Empty => Ok(Buffer::One(segment)),
        Buffer::One(last) => Ok(if last.end == segment.place {
            Buffer::One(Segment {
                place: last.place,
                end: segment.end,
            })
        } else {
            Buffer::More {
                first: last,
                middle: 0,
                last: segment,
            }
        }),
        Buffer::More {
            first,
            middle,
            last,
        } => {
            if last.end == segment.place {
                let last = Segment {
                    place: last.place,
                    end: segment.end,
                };
                return Ok(Buffer::More {
                    first,
                    middle,
                    last,
                });
            }
            let middle = ropes.join(middle, last, 0)?;
            Ok(Buffer::More {
                first,
                middle,
                last: segment,
            })
        }
    }
}

/// Returns the buffer with a segment appended to its own, unless the segment is empty.
fn joined_bytes(ropes: &mut Ropes, buffer: Buffer, segment: Segment) -> Result<Buffer, AllocError>
    requires ropes { AreRopes ropes.old }
    requires held { IsHeld ropes.old buffer }
    ensures segments { IfOk result (λ b. segments_of ropes.new b
        ≡ with_bytes (segments_of ropes.old buffer) segment) }
    ensures held { IfOk result (λ b. IsHeld ropes.new b) }
    ensures later { IsLater ropes.old ropes.new }
{
    if segment.place == segment.end {
        return Ok(buffer);
    }
    joined_segment(ropes, buffer, segment)
}

/// Returns the buffer with the segments of another one appended to its own.
fn joined_buffer(ropes: &mut Ropes, buffer: Buffer, behind: Buffer) -> Result<Buffer, AllocError>
    requires ropes { AreRopes ropes.old }
    requires held { IsHeld ropes.old buffer }
    requires behind { IsHeld ropes.old behind }
    ensures segments { IfOk result
        (λ b. segments_of ropes.new b ≡ with_segments (segments_of ropes.old buffer) (segments_of ropes.old behind)) }
    ensures held { IfOk result (λ b. IsHeld ropes.new b) }
    ensures later { IsLater ropes.old ropes.new }
{
    match behind {
        Buffer::Empty => Ok(buffer),
        Buffer::One(segment) => joined_segment(ropes, buffer, segment),
        Buffer::More {
            first,
            middle,
            last,
        } => match joined_segment(ropes, buffer, first)? {
            Buffer::Empty => unreachable!(),
            Buffer::One(first) => Ok(Buffer::More {
                first,
                middle,
                last,
            }),
            Buffer::More {
                first,
                middle: before,
                last: segment,
            } => {
                let middle = ropes.join(before, segment, middle)?;
                Ok(Buffer::More {
                    first,
                    middle,
                    last,
                })
            }
        },
    }
}

/// Returns the buffer with the segments of the slots from `first` on appended to its own, in order.
fn joined_slots(
    ropes: &mut Ropes,
    buffer: Buffer,
    slots: &Slots,
    first: usize,
) -> Result<Buffer, AllocError>
    requires ropes { AreRopes ropes.old }
    requires held { IsHeld ropes.old buffer }
    requires slots { AllHeld ropes.old slots.now }
    ensures segments { IfOk result (λ b. segments_of ropes.new b
        ≡ with_lists (segments_of ropes.old buffer) (map (segments_of ropes.old) (drop first slots.now))) }
    ensures held { IfOk result (λ b. IsHeld ropes.new b) }
    ensures later { IsLater ropes.old ropes.new }
{
    let mut joined = buffer;
    for slot in first..slots.len() {
        joined = joined_buffer(ropes, joined, slots.get(slot))?;
    }
    Ok(joined)
}

/// Returns the buffer at a place.
fn buffer_at(out: Buffer, slots: &Slots, place: TargetBuffer) -> Buffer
    requires { IsPlace (length slots.now) place }
    ensures { result ≡ buffer_at out slots.now place }
{
    match place {
        TargetBuffer::Out => out,
        TargetBuffer::Slot(number) => slots.get(number),
    }
}

/// Puts a buffer into its place.
fn put(
    out: &mut Buffer,
    slots: &mut Slots,
    place: TargetBuffer,
    buffer: Buffer,
) -> Result<(), AllocError>
    requires { IsPlace (length slots.old) place }
    ensures out { OnOk result (out.new ≡ out_after place buffer out.old) }
    ensures slots { OnOk result (slots.new ≡ slots_after place buffer slots.old) }
    ensures same_out { OnErr result (out.new ≡ out.old) }
    ensures same_slots { OnErr result (slots.new ≡ slots.old) }
{
    match place {
        TargetBuffer::Out => {
            *out = buffer;
            Ok(())
        }
        TargetBuffer::Slot(number) => slots.set(number, buffer),
    }
}

/// Removes the slots from `first` on, and puts a buffer into its place.
fn put_below(
    out: &mut Buffer,
    slots: &mut Slots,
    first: usize,
    place: TargetBuffer,
    buffer: Buffer,
) -> Result<(), AllocError>
    requires first { first ≤ length slots.old }
    requires place { IsPlace first place }
    ensures out { OnOk result (out.new ≡ out_after place buffer out.old) }
    ensures slots { OnOk result (slots.new ≡ slots_after place buffer (take first slots.old)) }
    ensures same_out { OnErr result (out.new ≡ out.old) }
    ensures same_slots { OnErr result (slots.new ≡ slots.old) }
{
    match place {
        TargetBuffer::Out => {
            slots.shorten(first);
            *out = buffer;
            Ok(())
        }
        TargetBuffer::Slot(number) => slots.close(first, number, buffer),
    }
}

/// Returns the segment with index `number` of a buffer. `None` where there is none.
fn segment_of(ropes: &Ropes, buffer: Buffer, number: usize) -> Option<Segment>
    requires held { IsHeld ropes.now buffer }
    requires few { number < 2 ^ 64 - 1 }
    ensures { result ≡ slice_get (segments_of ropes.now buffer) number }
{
    match buffer {
        Buffer::One(segment) if number == 0 => Some(segment),
        Buffer::More { first, .. } if number == 0 => Some(first),
        Buffer::More { middle, last, .. } => match ropes.segment(middle, number - 1) {
            None if ropes.len(middle) == number - 1 => Some(last),
            found => found,
        },
        _ => None,
    }
}

/// An output and slots, whose bytes are in one arena. Callers see them as the arena and the segments of each.
#[derive(Drop)]
pub struct Buffers {
    arena: Vec<u8>,
    ropes: Ropes,
    out: Buffer,
    slots: Slots,
}

impl Model for Buffers {
    ghost use Rattle.machine_store.specs.Buffers.{IsLaid, Laid, laid_of};

    ghost Value = { Laid };

    ghost view = { λ b. laid_of b.arena.items b.ropes b.out b.slots };

    ghost invariant = { λ b. IsLaid b.arena.items b.ropes b.out b.slots };
}

impl Buffers {
    /// Returns an empty output and no slots.
    pub fn new(alloc: Global) -> Buffers
        ensures { result ≡ record { arena = []; out = []; slots = [] } }
    {
        Buffers {
            arena: Vec::new(alloc),
            ropes: Ropes::new(alloc),
            out: Buffer::Empty,
            slots: Slots::new(alloc),
        }
    }

    /// Goes back to the buffers that `new` returns, and keeps the memory.
    pub fn clear(&mut self)
        ensures { self.new ≡ record { arena = []; out = []; slots = [] } }
    {
        self.arena.clear();
        self.ropes.clear();
        self.out = Buffer::Empty;
        self.slots.clear();
    }

    /// Releases memory beyond what is held, but keeps enough for `bytes` bytes and for a 64th as many slots and ropes.
    pub fn shrink_to(&mut self, bytes: usize)
        ensures { self.new ≡ self.old }
    {
        self.arena.shrink_to(bytes);
        self.ropes.shrink_to(bytes / 64);
        self.slots.shrink_to(bytes / 64);
    }

    /// Returns how many slots there are.
    pub fn len(&self) -> usize
        ensures { result ≡ length self.now.slots }
    {
        self.slots.len()
    }

    /// Returns the bytes of all buffers, and those that no buffer holds any more.
    pub fn arena(&self) -> &[u8]
        ensures { result.now ≡ self.now.arena }
    {
        &self.arena
    }

    /// The law that the segments of each buffer lie in the arena, none is empty, and of two neighbours the second
    /// does not begin where the first ends.
    pub fn are_laid(&self)
        ensures { AreLaid self.now }
    {
        let _opened = &self.arena; // read for the proof
    }

    /// Appends bytes to a buffer.
    pub fn add(&mut self, place: TargetBuffer, bytes: &[u8]) -> Result<(), AllocError>
        requires { IsPlace (length self.old.slots) place }
        ensures added { OnOk result (self.new ≡ with_added place bytes.now self.old) }
        ensures refused { OnErr result (self.new ≡ self.old) }
    {
        let from = self.arena.len();
        let segment = Segment {
            place: from,
            end: from + bytes.len(),
        };
        let buffer = buffer_at(self.out, &self.slots, place);
        let buffer = joined_bytes(&mut self.ropes, buffer, segment)?;
        self.arena.try_reserve(bytes.len())?;
        put(&mut self.out, &mut self.slots, place, buffer)?;
        self.arena.extend_from_slice(bytes)?;
        Ok(())
    }

    /// Appends `more` empty slots.
    pub fn open(&mut self, more: usize) -> Result<(), AllocError>
        requires { more ≤ MOST_SLOTS }
        ensures opened { OnOk result (self.new ≡ with_opened more self.old) }
        ensures refused { OnErr result (self.new ≡ self.old) }
    {
        self.slots.open(more)
    }

    /// Removes the slots from `first` on, and appends their bytes, in order, to a buffer, with the first `before`
    /// bytes of `around` before them and the others after them.
    pub fn close(
        &mut self,
        first: usize,
        into: TargetBuffer,
        around: &[u8],
        before: usize,
    ) -> Result<(), AllocError>
        requires first { first ≤ length self.old.slots }
        requires into { IsPlace first into }
        requires before { before ≤ length around.now }
        ensures closed { OnOk result (self.new ≡ with_closed first into around.now before self.old) }
        ensures refused { OnErr result (self.new ≡ self.old) }
    {
        let from = self.arena.len();
        let front = Segment {
            place: from,
            end: from + before,
        };
        let back = Segment {
            place: from + before,
            end: from + around.len(),
        };
        let buffer = buffer_at(self.out, &self.slots, into);
        let buffer = joined_bytes(&mut self.ropes, buffer, front)?;
        let buffer = joined_slots(&mut self.ropes, buffer, &self.slots, first)?;
        let buffer = joined_bytes(&mut self.ropes, buffer, back)?;
        self.arena.try_reserve(around.len())?;
        put_below(&mut self.out, &mut self.slots, first, into, buffer)?;
        self.arena.extend_from_slice(around)?;
        Ok(())
    }

    /// Removes the slots from `first` on.
    pub fn shorten(&mut self, first: usize)
        ensures { self.new ≡ with_fewer first self.old }
    {
        self.slots.shorten(first);
    }

    /// Empties the output and each slot.
    pub fn empty_all(&mut self)
        ensures { self.new ≡ with_none self.old }
    {
        self.arena.clear();
        self.ropes.clear();
        self.out = Buffer::Empty;
        self.slots.empty_all();
    }

    /// Appends the bytes of a buffer to `out`. After an `Err`, the bytes of `out` are not defined.
    pub fn write(
        &self,
        alloc: Global,
        place: TargetBuffer,
        out: &mut Vec<u8>,
    ) -> Result<(), AllocError>
        requires { IsPlace (length self.now.slots) place }
        ensures { OnOk result (out.new.items ≡ out.old.items
            ++ bytes_of self.now.arena (segments_at self.now place)) }
    {
        match buffer_at(self.out, &self.slots, place) {
            Buffer::Empty => Ok(()),
            Buffer::One(segment) => out.extend_from_slice(segment.bytes(&self.arena)),
            Buffer::More {
                first,
                middle,
                last,
            } => {
                out.extend_from_slice(first.bytes(&self.arena))?;
                self.ropes.write(alloc, &self.arena, middle, out)?;
                out.extend_from_slice(last.bytes(&self.arena))
            }
        }
    }

    /// Returns the bytes of the output, if it is one segment with which the arena begins.
    pub fn out_in_front(&self) -> Option<&[u8]>
        ensures some { is_some result ≡ is_front self.now.out }
        ensures bytes { IfSome result (λ out. out.now ≡ bytes_of self.now.arena self.now.out) }
    {
        match self.out {
            Buffer::One(segment) if segment.place == 0 => Some(segment.bytes(&self.arena)),
            _ => None,
        }
    }

    /// Takes the output out, if it is one segment with which the arena begins: hands out the arena's own memory, cut
    /// at the segment's end, and goes back to the buffers that `new` returns. `None` leaves all as it was.
    pub fn take_out(&mut self, alloc: Global) -> Option<Vec<u8>>
        ensures some { is_some result ≡ is_front self.old.out }
        ensures bytes { IfSome result (λ out. out.items ≡ bytes_of self.old.arena self.old.out) }
        ensures taken { OnSome result (self.new ≡ record { arena = []; out = []; slots = [] }) }
        ensures kept { IfNone result (self.new ≡ self.old) }
    {
        match self.out {
            Buffer::One(segment) if segment.place == 0 => {
                let mut arena = mem::replace(&mut self.arena, Vec::new(alloc));
                arena.truncate(segment.end);
                self.ropes.clear();
                self.out = Buffer::Empty;
                self.slots.clear();
                Some(arena)
            }
            _ => None,
        }
    }

    /// Returns the segment with index `number` of a buffer. `None` where there is none. It allocates nothing.
    pub fn segment(&self, place: TargetBuffer, number: usize) -> Option<Segment>
        requires there { IsPlace (length self.now.slots) place }
        requires few { number < 2 ^ 64 - 1 }
        ensures { result ≡ slice_get (segments_at self.now place) number }
    {
        segment_of(&self.ropes, buffer_at(self.out, &self.slots, place), number)
    }
}
