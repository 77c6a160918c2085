//! Lists of lists in one piece of memory.

ghost use Rattle.std.specs.Prelude.{◌≡◌, ◌<◌, ◌++◌, ◌∷◌, [], Bool, List, length, option_map, slice_get, slice_index_or, nat_le, None, Some, OnOk, OnErr};
ghost use Rattle.spec_machine.specs.Judging.{are_within, first_empty, first_out, first_out_in};
ghost use Rattle.spec_machine.specs.Lengths.{total_length};

use std::alloc::{AllocError, Global};
use std::marker::Model;

/// Where a list is among the items: from an index up to another, which is excluded.
#[derive(Clone, Copy, Debug)]
pub struct Stretch {
    from: usize,
    to: usize,
    /// The index of the list that was pushed with these items. Only time depends on it.
    first: usize,
}

/// A list of lists, in one piece of memory. Lists may share their items. Callers see it as the lists.
#[derive(Debug, Drop)]
pub struct Lists<T> {
    items: Vec<T>,
    stretches: Vec<Stretch>,
}

impl<T> Model for Lists<T> {
    ghost use Rattle.std.specs.Prelude.{List};
    ghost use Rattle.isa.specs.Lists.{AreWithin, lists_in};

    ghost Value = { List (List T) };

    ghost view = { λ s. lists_in s.items.items s.stretches.items };

    ghost invariant = { λ s. AreWithin s.items.items s.stretches.items };
}

impl<T: Copy> Lists<T> {
    /// Returns an empty list of lists.
    pub fn new(alloc: Global) -> Lists<T>
        ensures { result ≡ [] }
    {
        Lists {
            items: Vec::new(alloc),
            stretches: Vec::new(alloc),
        }
    }

    /// Returns the number of lists.
    pub fn len(&self) -> usize
        ensures { result ≡ length self.now }
    {
        self.stretches.len()
    }

    /// Returns the list at an index; `None` where there is none.
    pub fn get(&self, number: usize) -> Option<&[T]>
        ensures { option_map (λ list. list.now) result ≡ slice_get self.now number }
    {
        match self.stretches.get(number) {
            Some(stretch) => Some(&self.items[stretch.from..stretch.to]),
            None => None,
        }
    }

    /// Returns the list at an index, which has to be below `len`.
    pub fn list(&self, number: usize) -> &[T]
        requires { number < length self.now }
        ensures { slice_get self.now number ≡ Some result.now }
    {
        let stretch = self.stretches[number];
        &self.items[stretch.from..stretch.to]
    }

    /// Appends a list after the others. An `Err` leaves the lists as they were.
    pub fn push(&mut self, list: &[T]) -> Result<(), AllocError>
        ensures pushed { OnOk result (self.new ≡ self.old ++ list.now ∷ []) }
        ensures refused { OnErr result (self.new ≡ self.old) }
    {
        self.stretches.try_reserve(1)?;
        let from = self.items.len();
        self.items.extend_from_slice(list)?;
        let to = self.items.len();
        let first = self.stretches.len();
        self.stretches.push(Stretch { from, to, first })?;
        Ok(())
    }

    /// Returns the items of all lists, shared ones once. Where none of them is out of range, nothing in a list is.
    pub(crate) fn items(&self) -> &[T]
        ensures { (test : T → Bool) → first_out test result.now ≡ None → first_out_in test self.now ≡ None }
    {
        &self.items
    }

    /// Appends the list at an index once more, after the others; the copy shares its items. An `Err` leaves the lists
    /// as they were.
    pub fn push_again(&mut self, number: usize) -> Result<(), AllocError>
        requires { number < length self.old }
        ensures pushed { OnOk result (self.new ≡ self.old ++ slice_index_or self.old number [] ∷ []) }
        ensures refused { OnErr result (self.new ≡ self.old) }
    {
        let stretch = self.stretches[number];
        self.stretches.push(stretch)?;
        Ok(())
    }

    /// Returns the index of a list with the items of the list at an index: of the one whose items it shares, if it was
    /// pushed again.
    pub fn first_like(&self, number: usize) -> usize
        requires { number < length self.now }
        ensures { slice_get self.now result ≡ slice_get self.now number }
    {
        let Stretch { from, to, first } = self.stretches[number];
        match self.stretches.get(first) {
            Some(other) if other.from == from && other.to == to => first,
            _ => number,
        }
    }

    /// Returns the index of the first list that has no items; `None` where each has one.
    #[tactic(auto, using(crate::proofs::Turns::empty_here, crate::proofs::Turns::empty_later))]
    pub fn first_empty(&self) -> Option<usize>
        ensures { result ≡ first_empty self.now }
    {
        for number in 0..self.len() {
            if self.list(number).is_empty() {
                return Some(number);
            }
        }
        None
    }

    /// Returns whether each list has at most `most` items.
    #[tactic(auto, using(crate::proofs::Turns::long_here, crate::proofs::Turns::short_here))]
    pub fn are_within(&self, most: usize) -> bool
        ensures { result ≡ are_within most self.now }
    {
        for number in 0..self.len() {
            if self.list(number).len() > most {
                return false;
            }
        }
        true
    }

    /// Returns whether all lists together have at most `most` items, shared ones counted each time.
    #[tactic(auto, using(crate::proofs::Turns::total_here))]
    pub fn total_is_within(&self, most: usize) -> bool
        ensures { result ≡ nat_le (total_length self.now) most }
    {
        let mut left = most;
        for number in 0..self.len() {
            let len = self.list(number).len();
            if len > left {
                return false;
            }
            left -= len;
        }
        true
    }
}
