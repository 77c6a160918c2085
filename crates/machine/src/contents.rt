//! The rows that begin and move contents.

#![tactic(auto, using(crate::proofs::Appending::goes_on, crate::proofs::Appending::same_arena))]

ghost use Rattle.std.specs.Prelude.{◌≡◌, ◌≤◌, ◌<◌, ◌+◌, ◌-◌, length, pos, [], OnOk, OnErr, Some, None, false};
ghost use Rattle.spec_avro.specs.declared.limits.TheConstants.{MOST_CONTENT};
ghost use Rattle.spec_avro.specs.Shortest.{shortest};
ghost use Rattle.spec_machine.specs.declared.limits.TheConstants.{MOST_INSTRS, MOST_CHUNK};
ghost use Rattle.spec_machine.specs.Table.{begun, prefixed, ends_content, fixed, if_current, moved, moves, next};
ghost use Rattle.machine.specs.Contract.{HasRoom, asks, move_of, OnlyAppends};
ghost use Rattle.machine.specs.Memory.{MayAdd};
ghost use Rattle.machine.specs.RowContract.{ContentAfter, ContentBefore, ContentKnown};
ghost use Rattle.machine_store.specs.Chunks.{content_of};
ghost use Rattle.machine_store.specs.Text.{IsCheck, Unasked, check_of, is_asked};

use crate::feed::Feed;
use crate::machine::Machine;
use crate::step::Step;
use avro_bytes::{MalformedKind, Outcome, read_length};
use isa::{End, MOST_CHUNK, Trap};
use machine_store::{Chunk, Content, TextCheck, chunk_at};
use std::alloc::AllocError;

/// How a content moves.
#[derive(Clone, Copy)]
pub enum Moving {
    /// It is added.
    Bytes,
    /// It is added, and has to be UTF-8.
    Text,
    /// It is added, and the miss with this index is marked where it is no UTF-8.
    BytesText(u32),
    /// It is passed over.
    SkipBytes,
    /// It is passed over, and has to be UTF-8.
    SkipText,
}

impl Moving {
    /// Returns what is known of the content before its first byte.
    fn check(self) -> TextCheck
        ensures check { IsCheck (check_of result) [] }
        ensures asked { is_asked (check_of result) ≡ asks self }
    {
        match self {
            Moving::Bytes | Moving::SkipBytes => TextCheck::Unasked,
            Moving::Text | Moving::BytesText(_) | Moving::SkipText => TextCheck::empty(),
        }
    }
}

impl Machine {
    /// Appends bytes of a content to the current buffer, unless they are skipped.
    fn put(&mut self, moving: Moving, bytes: &[u8]) -> Result<(), AllocError>
        requires runs { self.old.state.end ≡ None }
        requires room { HasRoom moving self.old.state }
        ensures put { OnOk result (self.new.state ≡ (move_of moving).put bytes.now self.old.state) }
        ensures appends { OnlyAppends self.old self.new }
        ensures refused { OnErr result (self.new ≡ self.old) }
        ensures memory { OnErr result (MayAdd moving) }
    {
        match moving {
            Moving::SkipBytes | Moving::SkipText => Ok(()),
            _ => self.add(bytes),
        }
    }

    /// Appends a length to the current buffer, unless it is skipped.
    fn put_length(&mut self, moving: Moving, len: usize) -> Result<(), AllocError>
        requires runs { self.old.state.end ≡ None }
        requires room { HasRoom moving self.old.state }
        requires few { len ≤ MOST_CONTENT }
        ensures put { OnOk result (self.new.state ≡ (move_of moving).put (shortest (pos len)) self.old.state) }
        ensures appends { OnlyAppends self.old self.new }
        ensures refused { OnErr result (self.new ≡ self.old) }
        ensures memory { OnErr result (MayAdd moving) }
    {
        match moving {
            Moving::SkipBytes | Moving::SkipText => Ok(()),
            _ => self.add_long(len as i64),
        }
    }

    /// Returns what is known of the content that moves.
    pub(crate) fn check(&self) -> TextCheck
        ensures { check_of result ≡ self.now.check }
    {
        self.check
    }

    /// Goes on at offset `to` within a content. `check` is what is known of it.
    fn goes_on(&mut self, content: Content, check: TextCheck, to: usize) -> Step
        ensures step { result ≡ Step.Moved }
        ensures moved { self.new ≡ record self.old {
          state = record self.old.state { pos = to; content = Some (content_of content) };
          check = check_of check;
        } }
    {
        self.pos = to;
        self.content = Some(content);
        self.check = check;
        Step::Moved
    }

    /// Goes on at the next instruction, after a whole content that ends at offset `to`.
    fn pass_whole(&mut self, to: usize) -> Step
        requires { self.old.state.pc < MOST_INSTRS }
        ensures step { result ≡ Step.Moved }
        ensures whole { self.new
            ≡ record self.old { state = record (next to self.old.state) { content = None }; check = Unasked } }
    {
        self.pc += 1;
        self.pos = to;
        self.content = None;
        self.check = TextCheck::Unasked;
        Step::Moved
    }

    /// Moves a length that was read up to offset `to`, and begins the content, unless it is empty. `feed` is read by
    /// the clauses alone.
    fn begin(&mut self, moving: Moving, len: usize, to: usize, feed: &Feed<'_>) -> Step
        requires before { ContentBefore moving feed.now self.old }
        requires room { HasRoom moving self.old.state }
        requires few { len ≤ MOST_CONTENT }
        requires within { to ≤ length feed.now.input.now }
        requires whole { self.old.state.content ≡ None }
        ensures { ContentAfter moving feed.now (Some (begun (move_of moving) len to self.old.state)) result self.old
            self.new }
    {
        if self.put_length(moving, len).is_err() {
            return Step::NoMemory;
        }
        if len == 0 {
            return self.next(to);
        }
        self.goes_on(
            Content {
                left: len,
                from: to,
            },
            moving.check(),
            to,
        )
    }

    /// Moves a chunk of a content, after which there are more bytes. `check` is what is known of the
    /// content with the chunk.
    fn move_chunk(
        &mut self,
        moving: Moving,
        content: Content,
        check: TextCheck,
        feed: &Feed<'_>,
    ) -> Step
        requires before { ContentBefore moving feed.now self.old }
        requires room { HasRoom moving self.old.state }
        requires there { self.old.state.pos + MOST_CHUNK ≤ length feed.now.input.now }
        requires left { MOST_CHUNK < content.left }
        requires known { ContentKnown moving feed.now (self.old.state.pos + MOST_CHUNK) (check_of check)
            (content_of content) }
        ensures { ContentAfter moving feed.now
            (Some (moved feed.now.program.now feed.now.input.now feed.now.ended (move_of moving) (content_of content)
            MOST_CHUNK self.old.state)) result self.old self.new }
    {
        let pos = self.pos();
        let to = pos + MOST_CHUNK;
        if self.put(moving, &feed.input[pos..to]).is_err() {
            return Step::NoMemory;
        }
        let left = Content {
            left: content.left - MOST_CHUNK,
            from: content.from,
        };
        self.goes_on(left, check, to)
    }

    /// Moves the last bytes of a content. Ends the run where they have to be UTF-8 and are not, or marks a miss.
    fn end_content(
        &mut self,
        moving: Moving,
        content: Content,
        check: TextCheck,
        feed: &Feed<'_>,
    ) -> Step
        requires before { ContentBefore moving feed.now self.old }
        requires room { HasRoom moving self.old.state }
        requires there { self.old.state.pos + content.left ≤ length feed.now.input.now }
        requires known { ContentKnown moving feed.now self.old.state.pos (check_of check) (content_of content) }
        ensures { ContentAfter moving feed.now
            (ends_content feed.now.program.now feed.now.input.now feed.now.ended (move_of moving) (content_of content)
            self.old.state) result self.old self.new }
    {
        let pos = self.pos();
        let to = pos + content.left;
        let bytes = &feed.input[pos..to];
        match moving {
            Moving::Bytes | Moving::SkipBytes => {
                if self.put(moving, bytes).is_err() {
                    return Step::NoMemory;
                }
                self.pass_whole(to)
            }
            Moving::Text | Moving::SkipText => {
                if !check.is_text(feed.input, content.from, pos, to) {
                    return self.stop(End::Out(Outcome::Malformed {
                        kind: MalformedKind::BadText,
                        at: content.from,
                    }));
                }
                if self.put(moving, bytes).is_err() {
                    return Step::NoMemory;
                }
                self.pass_whole(to)
            }
            Moving::BytesText(miss) => {
                if self.put(moving, bytes).is_err() {
                    return Step::NoMemory;
                }
                if !check.is_text(feed.input, content.from, pos, to) {
                    self.miss(miss);
                }
                self.pass_whole(to)
            }
        }
    }

    /// Moves as many bytes of a content as a row may move. Waits where they are not there yet.
    fn move_part(
        &mut self,
        moving: Moving,
        content: Content,
        check: TextCheck,
        feed: &Feed<'_>,
    ) -> Step
        requires before { ContentBefore moving feed.now self.old }
        requires room { HasRoom moving self.old.state }
        requires known { ContentKnown moving feed.now self.old.state.pos (check_of check) (content_of content) }
        ensures { ContentAfter moving feed.now
            (moves feed.now.program.now feed.now.input.now feed.now.ended (move_of moving) (content_of content)
            self.old.state) result self.old self.new }
    {
        match chunk_at(content, check, feed.input, self.pos()) {
            Ok(Chunk::Full(check)) => self.move_chunk(moving, content, check, feed),
            Ok(Chunk::Rest) => self.end_content(moving, content, check, feed),
            Err(fault) => self.refuse(fault, feed),
        }
    }

    /// Takes a row of a content that has its length before it.
    pub(crate) fn content(&mut self, moving: Moving, feed: &Feed<'_>) -> Step
        requires before { ContentBefore moving feed.now self.old }
        requires room { HasRoom moving self.old.state }
        ensures { ContentAfter moving feed.now
            (prefixed feed.now.program.now feed.now.input.now feed.now.ended (move_of moving) self.old.state
            self.old.state.content) result self.old self.new }
    {
        match self.moving() {
            Some(content) => self.move_part(moving, content, self.check(), feed),
            None => match read_length(feed.input, self.pos(), self.meter()) {
                Ok((len, to, _)) => self.begin(moving, len, to, feed),
                Err(fault) => self.refuse(fault, feed),
            },
        }
    }

    /// Takes a row of a content of `size` bytes, without a length.
    pub(crate) fn fixed(&mut self, moving: Moving, size: usize, feed: &Feed<'_>) -> Step
        requires before { ContentBefore moving feed.now self.old }
        requires room { HasRoom moving self.old.state }
        requires plain { asks moving ≡ false }
        ensures { ContentAfter moving feed.now
            (fixed feed.now.program.now feed.now.input.now feed.now.ended (move_of moving) size self.old.state
            self.old.state.content) result self.old self.new }
    {
        match self.moving() {
            Some(content) => self.move_part(moving, content, self.check(), feed),
            None if size == 0 => self.next(self.pos()),
            None => {
                let content = Content {
                    left: size,
                    from: self.pos(),
                };
                self.move_part(moving, content, TextCheck::Unasked, feed)
            }
        }
    }

    /// Takes a row of a content that has its length before it, and that is added. A trap where there is
    /// no current buffer.
    pub(crate) fn kept_content(&mut self, moving: Moving, feed: &Feed<'_>) -> Step
        requires { ContentBefore moving feed.now self.old }
        ensures { ContentAfter moving feed.now (if_current self.old.state.store.frames self.old.state
            (prefixed feed.now.program.now feed.now.input.now feed.now.ended (move_of moving) self.old.state
            self.old.state.content)) result self.old self.new }
    {
        if !self.has_current() {
            return self.trap(Trap::NoBuffer);
        }
        self.content(moving, feed)
    }

    /// Takes a row of a content of `size` bytes that is added. A trap where there is no current buffer.
    pub(crate) fn kept_fixed(&mut self, size: usize, feed: &Feed<'_>) -> Step
        requires { ContentBefore Moving.Bytes feed.now self.old }
        ensures { ContentAfter Moving.Bytes feed.now (if_current self.old.state.store.frames self.old.state
            (fixed feed.now.program.now feed.now.input.now feed.now.ended (move_of Moving.Bytes) size self.old.state
            self.old.state.content)) result self.old self.new }
    {
        if !self.has_current() {
            return self.trap(Trap::NoBuffer);
        }
        self.fixed(Moving::Bytes, size, feed)
    }
}
