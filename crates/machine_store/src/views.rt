//! What a debugger reads from a store.

ghost use Rattle.std.specs.Prelude.{◌≡◌, ◌++◌, ◌∷◌, length, Some, reverse, slice_get, option_map, is_some, true, OnErr, OnOk};
ghost use Rattle.machine_store.specs.Segments.{AreSegments, bytes_of};
ghost use Rattle.machine_store.specs.Viewing.{buffer_of, end_below, end_over, frame_numbered, place_named, segments_of_buffer, view_at, view_in, view_of};

use crate::Segment;
use crate::buffers::TargetBuffer;
use crate::store::{Frame, Store};
use avro_bytes::{BlockWalk, MOST_OUTPUT};
use std::alloc::{AllocError, Global};

/// A view of a frame, without the bytes of its buffers.
#[derive(Clone, Copy, Debug)]
pub enum FrameView {
    /// A record: the slot that is selected, and how many slots there are.
    Record {
        selected: Option<usize>,
        slots: usize,
    },
    /// A record that is skipped.
    Skip,
    /// An array or a map, and how many items came.
    Blocks {
        walk: BlockWalk,
        items: u32,
    },
    /// An array or a map that is skipped.
    SkipBlocks {
        walk: BlockWalk,
    },
}

/// Which buffer: the output, a slot of a record, or that of an array or a map. Frames go by index; the oldest is 0.
#[derive(Clone, Copy, Debug, PartialEq, Eq)]
pub enum BufferAt {
    Out,
    Slot { frame: usize, slot: usize },
    Gathered { frame: usize },
}

/// Returns where the slots of the frames below a frame end, whose own slots end at `end`.
fn end_below(frame: Frame, end: usize) -> usize
    ensures { result ≡ end_below frame end }
{
    match frame {
        Frame::Record { first, .. } | Frame::Blocks { first, .. } => first,
        _ => end,
    }
}

/// Returns where the slots end below these frames, the oldest first, which are followed by others whose slots begin
/// at `end`: where the slots of the oldest of these frames begin that has some, or else `end`.
fn end_over(newer: &[Frame], end: usize) -> usize
    ensures { result ≡ end_over (reverse newer.now) end }
{
    for frame in newer {
        if let Some(first) = frame.first() {
            return first;
        }
    }
    end
}

/// Returns the frame with index `number`, and where its slots end. `slots` is where those of the newest frame end.
/// `None` where there is no such frame.
fn frame_numbered(
    top: Frame,
    below: &[Frame],
    slots: usize,
    number: usize,
) -> Option<(Frame, usize)>
    ensures { result ≡ frame_numbered number (top ∷ reverse below.now) slots }
{
    if number >= below.len() {
        return None;
    }
    if number + 1 == below.len() {
        return Some((top, slots));
    }
    let end = end_over(&below[number + 2..], end_below(top, slots));
    Some((below[number + 1], end))
}

/// Returns the view of a frame whose slots end at `end`. `None` for the bottom.
fn view_at(frame: Frame, end: usize) -> Option<FrameView>
    ensures { result ≡ view_at frame end }
{
    match frame {
        Frame::Bottom => None,
        Frame::Record { first, selected } => Some(FrameView::Record {
            selected: match selected {
                Some(at) => Some(at.saturating_sub(first)),
                None => None,
            },
            slots: end.saturating_sub(first),
        }),
        Frame::Skip => Some(FrameView::Skip),
        Frame::Blocks { walk, items, .. } => Some(FrameView::Blocks { walk, items }),
        Frame::SkipBlocks { walk } => Some(FrameView::SkipBlocks { walk }),
    }
}

/// Returns the view of the frame with index `number`. Where its slots end is computed only if it has some: frames
/// that are skipped have none, and all frames above them are skipped too.
fn view_numbered(top: Frame, below: &[Frame], slots: usize, number: usize) -> Option<FrameView>
    ensures { result ≡ view_in (frame_numbered number (top ∷ reverse below.now) slots) }
{
    if number >= below.len() {
        return None;
    }
    match below.get(number + 1) {
        Some(Frame::Skip) => Some(FrameView::Skip),
        Some(Frame::SkipBlocks { walk }) => Some(FrameView::SkipBlocks { walk: *walk }),
        _ => view_in(frame_numbered(top, below, slots, number)),
    }
}

/// Returns the view of a frame that was found, with where its slots end.
fn view_in(found: Option<(Frame, usize)>) -> Option<FrameView>
    ensures { result ≡ view_in found }
{
    let (frame, end) = found?;
    view_at(frame, end)
}

/// Returns where a buffer is. `None` where there is no such buffer.
fn place_named(top: Frame, below: &[Frame], slots: usize, at: BufferAt) -> Option<TargetBuffer>
    ensures { result ≡ place_named at (top ∷ reverse below.now) slots }
{
    match at {
        BufferAt::Out => Some(TargetBuffer::Out),
        BufferAt::Slot { frame, slot } => match frame_numbered(top, below, slots, frame)? {
            (Frame::Record { first, .. }, end) if slot < end.saturating_sub(first) => {
                Some(TargetBuffer::Slot(first + slot))
            }
            _ => None,
        },
        BufferAt::Gathered { frame } => match frame_numbered(top, below, slots, frame)? {
            (Frame::Blocks { first, .. }, _) => Some(TargetBuffer::Slot(first)),
            _ => None,
        },
    }
}

impl Store {
    /// Returns a view of the frame with index `number`; the oldest is 0. `None` where there is no such frame.
    pub fn frame_at(&self, number: usize) -> Option<FrameView>
        ensures { result ≡ option_map view_of (slice_get (reverse self.now.store.frames) number) }
    {
        view_numbered(self.top, &self.below, self.buffers.len(), number)
    }

    /// Returns whether there is such a buffer.
    pub fn has_buffer(&self, at: BufferAt) -> bool
        ensures { result ≡ is_some (buffer_of at self.now.store) }
    {
        place_named(self.top, &self.below, self.buffers.len(), at).is_some()
    }

    /// Appends the bytes of a buffer to `out`.
    pub fn push_buffer(
        &self,
        alloc: Global,
        at: BufferAt,
        out: &mut Vec<u8>,
    ) -> Result<(), AllocError>
        requires { is_some (buffer_of at self.now.store) ≡ true }
        ensures pushed { OnOk result
            (Some out.new.items ≡ option_map (λ bytes. out.old.items ++ bytes) (buffer_of at self.now.store)) }
        ensures refused { OnErr result (out.new.items ≡ out.old.items) }
    {
        let Some(place) = place_named(self.top, &self.below, self.buffers.len(), at) else {
            unreachable!()
        };
        let mut bytes = Vec::new(alloc);
        self.buffers.write(alloc, place, &mut bytes)?;
        out.extend_from_slice(&bytes)
    }

    /// The law that the bytes of a buffer are the arena's at its segments, joined in order, of which none is empty
    /// and none begins where the one before it ends.
    pub fn are_laid(&self, at: BufferAt)
        requires { is_some (buffer_of at self.now.store) ≡ true }
        ensures bytes { buffer_of at self.now.store
            ≡ Some (bytes_of self.now.layout.arena (segments_of_buffer at self.now.layout)) }
        ensures segments { AreSegments (length self.now.layout.arena) (segments_of_buffer at self.now.layout) }
    {
        self.buffers.are_laid(); // law
    }

    /// Returns the segment with index `number` of a buffer. `None` where there is none. It allocates nothing.
    pub fn segment(&self, at: BufferAt, number: usize) -> Option<Segment>
        requires { is_some (buffer_of at self.now.store) ≡ true }
        ensures { result ≡ slice_get (segments_of_buffer at self.now.layout) number }
    {
        let Some(place) = place_named(self.top, &self.below, self.buffers.len(), at) else {
            unreachable!()
        };
        self.buffers.are_laid(); // law
        if number >= MOST_OUTPUT {
            return None;
        }
        self.buffers.segment(place, number)
    }
}
