//! What a note of an id says, kept where threads share it.

ghost use Rattle.std.specs.Prelude.{◌≡◌};
ghost use Rattle.spec_registry.specs.Path.{IsPathOf};

use crate::KeptNote;
use crate::note::IdNote;
use crate::row::Row;
use crate::table::IdTable;
use std::marker::Model;

/// What a note of an id says, where threads can share it. It takes the four bytes of the id. Callers see it as a
/// `Path`.
#[derive(Drop)]
pub struct KeptIdNote<T> {
    id: u32,
    second: KeptNote<Row<Row<Row<T>>>>,
    third: KeptNote<Row<Row<T>>>,
    fourth: KeptNote<Row<T>>,
    last: KeptNote<T>,
}

impl<T> Model for KeptIdNote<T> {
    ghost use Rattle.spec_registry.specs.Path.{Path};
    ghost use Rattle.id_cells.specs.Path.{path_code};

    ghost Value = { Path T };

    ghost coded = { path_code T.code };

    ghost view = { λ n. record {
      id = n.id;
      second = (n.second.cell, n.second.known);
      third = (n.third.cell, n.third.known);
      fourth = (n.fourth.cell, n.fourth.known);
      last = (n.last.cell, n.last.known);
    } };
}

impl<T> IdNote<T> {
    /// Keeps what the note says.
    pub fn keep(&mut self) -> KeptIdNote<T>
        ensures same { self.new ≡ self.old }
        ensures kept { result ≡ self.old }
    {
        KeptIdNote {
            id: self.id,
            second: KeptNote::of(&mut self.second),
            third: KeptNote::of(&mut self.third),
            fourth: KeptNote::of(&mut self.fourth),
            last: KeptNote::of(&mut self.last),
        }
    }
}

impl<T> KeptIdNote<T> {
    /// Returns the id.
    pub fn id(&self) -> u32
        ensures { result ≡ self.now.id }
    {
        self.id
    }
}

impl<T: Drop> IdTable<T> {
    /// The law that a note and one that was kept, of one id, are of one value.
    pub fn agree_with_kept(&self, note: &mut IdNote<T>, kept: &KeptIdNote<T>)
        requires note { IsPathOf self.now note.old }
        requires kept { IsPathOf self.now kept.now }
        requires id { kept.now.id ≡ note.old.id }
        ensures same { note.new ≡ note.old }
        ensures agree { kept.now.last.1 ≡ note.old.last.1 }
    {
        KeptNote::compare(&mut note.second, kept.second.again());
        KeptNote::compare(&mut note.third, kept.third.again());
        KeptNote::compare(&mut note.fourth, kept.fourth.again());
        KeptNote::compare(&mut note.last, kept.last.again());
    }
}
