//! Lists of segments of the arena, which are joined without being copied.

ghost use Rattle.std.specs.Prelude.{◌++◌, ◌-◌, ◌<◌, ◌^◌, ◌∷◌, ◌≡◌, IfOk, List, OnErr, OnOk, [], length, slice_get};
ghost use Rattle.machine_store.specs.Ropes.{counted, rope_at};
ghost use Rattle.machine_store.specs.Segments.{AreWithin, bytes_of};

use std::alloc::{AllocError, Global};
use std::marker::Model;

/// A segment between two earlier ropes.
#[derive(Clone, Copy)]
pub struct Joint {
    before: usize,
    segment: Segment,
    behind: usize,
    /// How many segments they have together, as far as can be counted.
    len: usize,
}

/// Ropes by index: lists of segments that are joined without being copied. Rope 0 is empty, and none ever changes.
#[derive(Drop)]
pub struct Ropes {
    joints: Vec<Joint>,
}

impl Model for Ropes {
    ghost use Rattle.std.specs.Prelude.{List};
    ghost use Rattle.machine_store.specs.declared.ropes.Segment.{Segment};

    ghost Value = { List (List Segment) };

    ghost use Rattle.machine_store.specs.Ropes.{IsRoped, ropes_of};

    ghost view = { λ r. ropes_of r.joints.items };

    ghost invariant = { λ r. IsRoped r.joints.items };
}

impl Ropes {
    /// Returns the empty rope alone.
    pub fn new(alloc: Global) -> Ropes
        ensures { result ≡ [] ∷ [] }
    {
        Ropes {
            joints: Vec::new(alloc),
        }
    }

    /// Goes back to the empty rope alone, and keeps the memory.
    pub fn clear(&mut self)
        ensures { self.new ≡ [] ∷ [] }
    {
        self.joints.clear();
    }

    /// Releases memory beyond what is held, but keeps enough for `ropes` ropes.
    pub fn shrink_to(&mut self, ropes: usize)
        ensures { self.new ≡ self.old }
    {
        self.joints.shrink_to(ropes);
    }

    /// Returns how many segments a rope has, as far as can be counted.
    pub fn len(&self, rope: usize) -> usize
        requires { rope < length self.now }
        ensures { result ≡ counted (rope_at self.now rope) }
    {
        if rope == 0 {
            0
        } else {
            self.joints[rope - 1].len
        }
    }

    /// Adds a rope that joins a segment between two earlier ropes. Returns its index.
    pub fn join(
        &mut self,
        before: usize,
        segment: Segment,
        behind: usize,
    ) -> Result<usize, AllocError>
        requires before { before < length self.old }
        requires behind { behind < length self.old }
        ensures number { IfOk result (λ rope. rope ≡ length self.old) }
        ensures joined { OnOk result
            (self.new ≡ self.old ++ (rope_at self.old before ++ segment ∷ rope_at self.old behind) ∷ []) }
        ensures refused { OnErr result (self.new ≡ self.old) }
    {
        let len = self
            .len(before)
            .saturating_add(1)
            .saturating_add(self.len(behind));
        self.joints.push(Joint {
            before,
            segment,
            behind,
            len,
        })?;
        Ok(self.joints.len())
    }

    /// Appends the bytes of a rope's segments to `out`. After an `Err`, the bytes of `out` are not defined.
    pub fn write(
        &self,
        alloc: Global,
        arena: &[u8],
        rope: usize,
        out: &mut Vec<u8>,
    ) -> Result<(), AllocError>
        requires there { rope < length self.now }
        requires within { AreWithin (length arena.now) (rope_at self.now rope) }
        ensures { OnOk result (out.new.items ≡ out.old.items ++ bytes_of arena.now (rope_at self.now rope)) }
    {
        let mut pending: Vec<usize> = Vec::new(alloc);
        let mut at = rope;
        loop {
            if at > 0 {
                pending.push(at)?;
                at = self.joints[at - 1].before;
            } else {
                let Some(next) = pending.pop() else {
                    return Ok(());
                };
                let joint = self.joints[next - 1];
                out.extend_from_slice(joint.segment.bytes(arena))?;
                at = joint.behind;
            }
        }
    }

    /// Returns the segment with index `number` of a rope. `None` where there is none. It allocates nothing.
    pub fn segment(&self, rope: usize, number: usize) -> Option<Segment>
        requires there { rope < length self.now }
        requires few { number < 2 ^ 64 - 1 }
        ensures { result ≡ slice_get (rope_at self.now rope) number }
    {
        let mut at = rope;
        let mut left = number;
        while at > 0 {
            let joint = self.joints[at - 1];
            let before = self.len(joint.before);
            if left == before {
                return Some(joint.segment);
            }
            if left < before {
                at = joint.before;
            } else {
                left -= before + 1;
                at = joint.behind;
            }
        }
        None
    }
}

/// The bytes of the arena from offset `place` up to offset `end`.
#[derive(Clone, Copy, Debug, PartialEq, Eq)]
pub struct Segment {
    pub place: usize,
    pub end: usize,
}

impl Segment {
    ghost use Rattle.std.specs.Prelude.{◌≡◌, ◌≤◌, length};
    ghost use Rattle.machine_store.specs.Segments.{bytes_at};

    /// Returns its bytes in the arena.
    pub fn bytes(self, arena: &[u8]) -> &[u8]
        requires ordered { self.place ≤ self.end }
        requires within { self.end ≤ length arena.now }
        ensures { result.now ≡ bytes_at arena.now self }
    {
        &arena[self.place..self.end]
    }
}
