//! Whether what refers to things by index refers to things that are there.

ghost use Rattle.std.specs.Prelude.{◌≡◌, Bool};
ghost use Rattle.spec_machine.specs.declared.sizes.Sizes.{Sizes};
ghost use Rattle.spec_machine.specs.Judging.{entry_is_in_range, first_out, first_out_in, instr_is_in_range, is_address, miss_is_in_range};

use crate::limits::{MOST_FIXED, MOST_NODES, MOST_SLOTS, MOST_SYMBOLS};
use crate::lists::Lists;
use avro_bytes::Mismatch;
pub use spec_machine::Sizes;
use spec_machine::{Entry, Instr};

/// What refers to things by index.
pub(crate) trait Ranged: Copy {
    /// Whether a program of these sizes has what it refers to.
    ghost in_range: { Sizes → Self → Bool };

    fn is_in_range(&self, sizes: &Sizes) -> bool
        ensures { result ≡ in_range sizes.now self.now };
}

impl Ranged for u32 {
    ghost in_range = { λ n a. is_address n a };

    fn is_in_range(&self, sizes: &Sizes) -> bool {
        (*self as usize) < sizes.code
    }
}

impl Ranged for Entry {
    ghost in_range = { λ n e. entry_is_in_range n e };

    fn is_in_range(&self, sizes: &Sizes) -> bool {
        match self {
            Entry::Position(position) => (*position as usize) < MOST_SYMBOLS,
            Entry::Miss(miss) => (*miss as usize) < sizes.misses,
        }
    }
}

impl Ranged for Mismatch {
    ghost in_range = { λ n m. miss_is_in_range n m };

    fn is_in_range(&self, _sizes: &Sizes) -> bool {
        self.writer_node < MOST_NODES && self.reader_node < MOST_NODES
    }
}

impl Ranged for Instr {
    ghost in_range = { λ n i. instr_is_in_range n i };

    fn is_in_range(&self, sizes: &Sizes) -> bool {
        match *self {
            Instr::BytesText(miss) | Instr::Miss(miss) => (miss as usize) < sizes.misses,
            Instr::Fixed(size) | Instr::SkipFixed(size) => size as usize <= MOST_FIXED,
            Instr::Enum(map) => (map as usize) < sizes.maps,
            Instr::SkipEnum(symbols) => symbols as usize <= MOST_SYMBOLS,
            Instr::Put(constant) => (constant as usize) < sizes.constants,
            Instr::Record(slots) => slots as usize <= MOST_SLOTS,
            Instr::Slot(slot) => (slot as usize) < MOST_SLOTS,
            Instr::Branch(jumps) => (jumps as usize) < sizes.jumps,
            Instr::Next(address)
            | Instr::SkipNext(address)
            | Instr::Call(address)
            | Instr::Jump(address) => (address as usize) < sizes.code,
            _ => true,
        }
    }
}

/// Returns the index of the first item that is out of range; `None` where all are in range.
pub(crate) fn first_out<T: Ranged>(items: &[T], sizes: &Sizes) -> Option<usize>
    ensures { result ≡ first_out (T.in_range sizes.now) items.now }
{
    items.iter().position(|item| !item.is_in_range(sizes))
}

/// Returns the index of the first list that has an item out of range, with the index of this item. Items that lists
/// share are tested once, unless one of them is out of range.
#[tactic(auto, using(crate::proofs::Turns::out_here, crate::proofs::Turns::out_later))]
pub(crate) fn first_out_in<T: Ranged>(lists: &Lists<T>, sizes: &Sizes) -> Option<(usize, usize)>
    ensures { result ≡ first_out_in (T.in_range sizes.now) lists.now }
{
    if first_out(lists.items(), sizes).is_none() {
        return None;
    }
    for number in 0..lists.len() {
        if let Some(item) = first_out(lists.list(number), sizes) {
            return Some((number, item));
        }
    }
    None
}
