//! Walking over the blocks of an array or a map.

ghost use Rattle.std.specs.Prelude.{◌≡◌, ◌≤◌, ◌<◌, ◌+◌, length, suc, IfOk, IsTrue, false};

use crate::limits::MOST_UNITS;
use crate::meter::{Meter, enter_blocks, enter_item};
use crate::number::read_long;
use spec_avro::MalformedKind;
use spec_decoding::Fault;
use std::marker::Model;

/// A walk over the blocks of an array or a map, from one item to the next.
#[derive(Clone, Copy, Debug)]
pub struct BlockWalk {
    /// How many items of the block are still to come.
    left: u64,
    /// The offset of the block's count.
    count_at: usize,
    /// The offset where its items begin.
    items_at: usize,
    /// How many bytes the block says that its items have, where it says so.
    size: Option<i64>,
}

impl Model for BlockWalk {
    ghost use Rattle.spec_decoding.specs.Walk.{Walk};

    ghost Value = { Walk };

    ghost view = { λ w. record { left = w.left; count_at = w.count_at; items_at = w.items_at; size = w.size } };

    ghost inverse = { λ w. record { left = w.left; count_at = w.count_at; items_at = w.items_at; size = w.size } };
}

impl BlockWalk {
    ghost use Rattle.avro_bytes.specs.BlockDecoding.{Begins, Walks};
    ghost use Rattle.spec_decoding.specs.BlockDecoding.{is_met, item_at, next_block, next_item, sized_block};
    ghost use Rattle.avro_bytes.specs.Contract.{Finds};
    ghost use Rattle.spec_decoding.specs.Opening.{opened_blocks};

    /// Returns a walk over the blocks at an offset, and the meter inside them; `TooDeep` at that offset where
    /// `MOST_DEPTH` others are open.
    pub fn begin(at: usize, meter: Meter) -> Result<(BlockWalk, Meter), Fault>
        ensures { Begins at result (opened_blocks at meter) }
    {
        let walk = BlockWalk::walk_of(0, at, at, None);
        Ok((walk, enter_blocks(meter, at)?))
    }

    /// Returns the walk with these parts.
    pub fn walk_of(left: u64, count_at: usize, items_at: usize, size: Option<i64>) -> BlockWalk
        ensures { result ≡ record { left = left; count_at = count_at; items_at = items_at; size = size } }
    {
        BlockWalk {
            left,
            count_at,
            items_at,
            size,
        }
    }

    /// Returns how many items of the block are still to come.
    pub fn left(self) -> u64
        ensures { result ≡ self.left }
    {
        self.left
    }

    /// Returns the offset of the block's count.
    pub fn count_at(self) -> usize
        ensures { result ≡ self.count_at }
    {
        self.count_at
    }

    /// Returns the offset where the block's items begin.
    pub fn items_at(self) -> usize
        ensures { result ≡ self.items_at }
    {
        self.items_at
    }

    /// Returns how many bytes the block says that its items have, where it says so.
    pub fn size(self) -> Option<i64>
        ensures { result ≡ self.size }
    {
        self.size
    }

    /// Moves to the next item, and returns `true` with the offset where it begins, or `false` with the offset after
    /// the last block, and the meter there.
    ///
    /// After an `Err` the walk is where it was: `Need` where bytes are missing, `BadNumber` of a count or a size,
    /// `BadBlock` of a block that ends, `TooMany` of an item.
    #[tactic(auto, using(crate::specs::Laws::Walks::item_meter, crate::specs::Laws::Walks::end_meter, crate::specs::Laws::Walks::head_places, crate::specs::Laws::Walks::inside_keeps, crate::specs::Laws::Walks::end_takes))]
    pub fn next(
        &mut self,
        bytes: &[u8],
        at: usize,
        meter: Meter,
    ) -> Result<(bool, usize, Meter), Fault>
        requires in_bounds { at ≤ length bytes.now }
        requires deep { 0 < meter.depth }
        ensures walks { Walks result self.old self.new (next_item self.old bytes.now at meter) }
        ensures head { IfOk result (λ r. IsTrue r.0 → self.old.left ≡ 0 →
            (self.new.count_at ≡ at) × (self.new.items_at ≡ r.1)) }
        ensures inside { IfOk result (λ r. 0 < self.old.left →
            (self.old ≡ record self.new { left = suc self.new.left }) × (r.1 ≡ at)) }
        ensures within { IfOk result (λ r. r.1 ≤ length bytes.now) }
        ensures item { IfOk result (λ r. IsTrue r.0 →
            (r.2.depth ≡ meter.depth) × (r.2.units ≡ meter.units + 1) × (meter.units < MOST_UNITS)) }
        ensures end { IfOk result (λ r. r.0 ≡ false → (r.2.depth + 1 ≡ meter.depth) × (r.2.units ≡ meter.units)) }
    {
        match self.step(bytes, at, meter)? {
            (Some(walk), to, meter) => {
                *self = walk;
                Ok((true, to, meter))
            }
            (None, to, meter) => Ok((false, to, meter)),
        }
    }

    /// Returns the walk at the next item, or `None` after the last block; with it the offset and the meter there.
    #[tactic(auto, unfolding(spec_decoding::specs::BlockDecoding::next_item))]
    fn step(
        self,
        bytes: &[u8],
        at: usize,
        meter: Meter,
    ) -> Result<(Option<BlockWalk>, usize, Meter), Fault>
        requires in_bounds { at ≤ length bytes.now }
        requires deep { 0 < meter.depth }
        ensures finds { Finds (λ walk. walk) result (next_item self bytes.now at meter) }
        ensures within { IfOk result (λ r. r.1 ≤ length bytes.now) }
    {
        if self.left > 0 {
            let walk = BlockWalk::walk_of(self.left - 1, self.count_at, self.items_at, self.size);
            return walk.item(at, meter);
        }
        if !self.is_met(at) {
            return Err(Fault::Malformed {
                kind: MalformedKind::BadBlock,
                at: self.count_at,
            });
        }
        BlockWalk::next_block(bytes, at, meter)
    }

    /// Returns whether the items that end at an offset have the block's size; `true` where the block has none.
    fn is_met(self, at: usize) -> bool
        ensures { result ≡ is_met self at }
    {
        match self.size {
            None => true,
            Some(size) => size >= 0 && at.saturating_sub(self.items_at) as u64 == size as u64,
        }
    }

    /// Returns the walk inside the block at an offset, or `None` where the count there is 0 and the blocks end.
    #[tactic(auto, unfolding(spec_decoding::specs::BlockDecoding::next_block))]
    fn next_block(
        bytes: &[u8],
        at: usize,
        meter: Meter,
    ) -> Result<(Option<BlockWalk>, usize, Meter), Fault>
        requires in_bounds { at ≤ length bytes.now }
        requires deep { 0 < meter.depth }
        ensures finds { Finds (λ walk. walk) result (next_block bytes.now at meter) }
        ensures within { IfOk result (λ r. r.1 ≤ length bytes.now) }
    {
        let (count, to, meter) = read_long(bytes, at, meter)?;
        if count == 0 {
            let outside = Meter {
                depth: meter.depth - 1,
                units: meter.units,
            };
            return Ok((None, to, outside));
        }
        if count > 0 {
            return BlockWalk::walk_of(count as u64 - 1, at, to, None).item(to, meter);
        }
        BlockWalk::sized_block(bytes, at, -(count + 1) as u64, to, meter)
    }

    /// Returns the walk inside a block whose size is at an offset, with `left` items to come after the first.
    #[tactic(auto, unfolding(spec_decoding::specs::BlockDecoding::sized_block))]
    fn sized_block(
        bytes: &[u8],
        count_at: usize,
        left: u64,
        at: usize,
        meter: Meter,
    ) -> Result<(Option<BlockWalk>, usize, Meter), Fault>
        requires in_bounds { at ≤ length bytes.now }
        ensures finds { Finds (λ walk. walk) result (sized_block bytes.now count_at left at meter) }
        ensures within { IfOk result (λ r. r.1 ≤ length bytes.now) }
    {
        let (size, items_at, meter) = read_long(bytes, at, meter)?;
        BlockWalk::walk_of(left, count_at, items_at, Some(size)).item(items_at, meter)
    }

    /// Returns the walk itself at an item that begins at an offset, with the item counted; else `TooMany`.
    fn item(self, at: usize, meter: Meter) -> Result<(Option<BlockWalk>, usize, Meter), Fault>
        ensures finds { Finds (λ walk. walk) result (item_at self at meter) }
        ensures within { IfOk result (λ r. r.1 ≡ at) }
    {
        let inside = enter_item(meter, at)?;
        Ok((Some(self), at, inside))
    }
}
