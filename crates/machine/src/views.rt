//! What a debugger reads from a machine.

ghost use Rattle.std.specs.Prelude.{◌++◌, ◌≡◌, None, OnErr, OnOk, Some, false, is_some, length, option_map, reverse, slice_get, true};
ghost use Rattle.machine_store.specs.Segments.{AreSegments, bytes_of};
ghost use Rattle.machine_store.specs.Viewing.{buffer_of, place_and_length, segments_of_buffer, view_of};
ghost use Rattle.machine_store.specs.Chunks.{content_of};
ghost use Rattle.machine.specs.Running.{carried};

use crate::machine::Machine;
use machine_store::{BufferAt, Content, FrameView};
use std::alloc::AllocError;

impl Machine {
    /// Returns how many units were opened.
    pub fn units(&self) -> u32
        ensures { result ≡ self.now.state.units }
    {
        self.store.meter().units
    }

    /// Returns how many frames are open.
    pub fn depth(&self) -> u32
        ensures { result ≡ length self.now.state.store.frames }
    {
        self.store.meter().depth
    }

    /// Returns the address to which the call with index `number` returns; the oldest is 0. `None` where there
    /// is no such call.
    pub fn call_at(&self, number: usize) -> Option<usize>
        ensures { result ≡ slice_get (reverse self.now.state.calls) number }
    {
        self.calls.get(number).copied()
    }

    /// Returns the content of which bytes are still to move. `None` where none is begun.
    pub fn moving(&self) -> Option<Content>
        ensures { option_map content_of result ≡ self.now.state.content }
    {
        self.content
    }

    /// Returns the bytes of a character that is cut at the end of what has moved of a text; none where no text moves,
    /// or no character is cut.
    pub fn carry(&self) -> &[u8]
        ensures { result.now ≡ carried self.now.state.content self.now.check }
    {
        match self.content {
            Some(_) => self.check.carry(),
            None => &[],
        }
    }

    /// Returns the bytes of all buffers, and those that no buffer holds any more.
    pub fn arena(&self) -> &[u8]
        ensures { result.now ≡ self.now.layout.arena }
    {
        self.store.arena()
    }

    /// Returns a view of the frame with index `number`; the oldest is 0. `None` where there is no such frame.
    pub fn frame_at(&self, number: usize) -> Option<FrameView>
        ensures { result ≡ option_map view_of (slice_get (reverse self.now.state.store.frames) number) }
    {
        self.store.frame_at(number)
    }

    /// Returns whether there is such a buffer.
    pub fn has_buffer(&self, at: BufferAt) -> bool
        ensures { result ≡ is_some (buffer_of at self.now.state.store) }
    {
        self.store.has_buffer(at)
    }

    /// Appends the bytes of a buffer to `out`.
    pub fn push_buffer(&self, at: BufferAt, out: &mut Vec<u8>) -> Result<(), AllocError>
        requires { is_some (buffer_of at self.now.state.store) ≡ true }
        ensures pushed { OnOk result
            (Some out.new.items ≡ option_map (λ bytes. out.old.items ++ bytes) (buffer_of at self.now.state.store)) }
        ensures refused { OnErr result (out.new.items ≡ out.old.items) }
    {
        self.store.push_buffer(self.alloc, at, out)
    }

    /// The law that the bytes of a buffer are the arena's at its segments, joined in order, of which none is empty
    /// and none begins where the one before it ends.
    pub fn are_laid(&self, at: BufferAt)
        requires { is_some (buffer_of at self.now.state.store) ≡ true }
        ensures bytes { buffer_of at self.now.state.store
            ≡ Some (bytes_of self.now.layout.arena (segments_of_buffer at self.now.layout)) }
        ensures segments { AreSegments (length self.now.layout.arena) (segments_of_buffer at self.now.layout) }
    {
        self.store.are_laid(at); // law
    }

    /// Returns the offset in the arena and the length of the segment with index `number` of a buffer. `None` where
    /// there is no such buffer or segment. It allocates nothing.
    pub fn segment(&self, at: BufferAt, number: usize) -> Option<(usize, usize)>
        ensures there { is_some (buffer_of at self.now.state.store) ≡ true
            → result ≡ option_map place_and_length (slice_get (segments_of_buffer at self.now.layout) number) }
        ensures none { is_some (buffer_of at self.now.state.store) ≡ false → result ≡ None }
    {
        if !self.has_buffer(at) {
            return None;
        }
        match self.store.segment(at, number) {
            Some(segment) => Some((segment.place, segment.end.saturating_sub(segment.place))),
            None => None,
        }
    }
}
