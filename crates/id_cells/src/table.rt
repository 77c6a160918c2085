//! A table of what is held for ids.

ghost use Rattle.std.specs.Prelude.{◌≡◌, Some, IfOk, IfSome};
ghost use Rattle.spec_registry.specs.Path.{IsPathOf};
ghost use Rattle.id_cells.specs.declared.held_value.HeldValue.TheVariants.{Given};

use crate::bytes::byte_of;
use crate::held_value::HeldValue;
use crate::note::IdNote;
use crate::row::Row;
use std::alloc::{AllocError, Global};
use std::marker::Model;

/// What is held for ids of 32 bits: a tree of rows with four levels, one for each byte of an id. A row is made only on
/// the way to something that is held. Callers see a table as the list of the names of the cells of its first row.
#[derive(Drop)]
pub struct IdTable<T> {
    alloc: Global,
    pub(crate) first: Row<Row<Row<Row<T>>>>,
}

impl<T> Model for IdTable<T> {
    ghost use Rattle.std.specs.Prelude.{ℕ, List};

    ghost Value = { List ℕ };

    ghost view = { λ t. t.first };
}

impl<T: Drop> IdTable<T> {
    /// Returns a table that holds nothing. The error is want of memory.
    pub fn new(alloc: Global) -> Result<IdTable<T>, AllocError> {
        let first = Row::new(alloc)?;
        Ok(IdTable { alloc, first })
    }

    /// Returns what is held for an id, and its note. None where this thread sees nothing held for it. Makes no row.
    pub fn find(&self, id: u32) -> Option<(&T, IdNote<T>)>
        ensures { IfSome result (λ r. IsPathOf self.now r.1 × (r.1.id ≡ id) × (r.1.last.1 ≡ Some r.0.now)) }
    {
        let (row, second) = self.first.find(byte_of(id, 3))?;
        let (row, third) = row.find(byte_of(id, 2))?;
        let (row, fourth) = row.find(byte_of(id, 1))?;
        let (value, last) = row.find(byte_of(id, 0))?;
        let note = IdNote {
            id,
            second,
            third,
            fourth,
            last,
        };
        Some((value, note))
    }

    /// Returns what is held for the id of a note, which is never gone.
    pub fn held<'a>(&'a self, note: &mut IdNote<T>) -> &'a T
        requires { IsPathOf self.now note.old }
        ensures same { note.new ≡ note.old }
        ensures held { note.old.last.1 ≡ Some result.now }
    {
        let row = self.first.shown(byte_of(note.id, 3), &mut note.second);
        let row = row.shown(byte_of(note.id, 2), &mut note.third);
        let row = row.shown(byte_of(note.id, 1), &mut note.fourth);
        row.shown(byte_of(note.id, 0), &mut note.last)
    }

    /// Holds a value for an id, for good, where nothing is held for it. Returns what is then held, with its note, and
    /// which value that is: the one given, or the one of another call that was first, and then the one given is
    /// dropped. The error is want of memory; then nothing is held that was not before, and the value given is dropped.
    pub fn hold(&self, id: u32, value: Box<T>) -> Result<(&T, IdNote<T>, HeldValue), AllocError>
        ensures held { IfOk result (λ r. IsPathOf self.now r.1 × (r.1.id ≡ id) × (r.1.last.1 ≡ Some r.0.now)) }
        ensures given { IfOk result (λ r. r.2 ≡ Given → r.1.last.1 ≡ Some value.value) }
    {
        let (row, second) = self.first.row_at(self.alloc, byte_of(id, 3))?;
        let (row, third) = row.row_at(self.alloc, byte_of(id, 2))?;
        let (row, fourth) = row.row_at(self.alloc, byte_of(id, 1))?;
        let (value, last, which) = row.set(byte_of(id, 0), value);
        let note = IdNote {
            id,
            second,
            third,
            fourth,
            last,
        };
        Ok((value, note, which))
    }

    /// The law that two notes of one id are of one value.
    pub fn agree(&self, one: &mut IdNote<T>, two: &mut IdNote<T>)
        requires one { IsPathOf self.now one.old }
        requires two { IsPathOf self.now two.old }
        requires id { one.old.id ≡ two.old.id }
        ensures same { (one.new ≡ one.old) × (two.new ≡ two.old) }
        ensures agree { one.old.last.1 ≡ two.old.last.1 }
    {
        one.second.compare(two.second.again());
        one.third.compare(two.third.again());
        one.fourth.compare(two.fourth.again());
        one.last.compare(two.last.again());
    }
}
