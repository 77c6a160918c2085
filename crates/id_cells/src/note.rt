//! The note of what is held for an id.

ghost use Rattle.std.specs.Prelude.{◌≡◌};

use crate::row::Row;
use once_cell::race::Note;
use std::marker::Model;

/// The note of the value that is held for an id, for good and in every thread. It takes the four bytes of the id.
/// Callers see it as a `Path`: the id, and the four cells on the way with what each shows.
#[derive(Drop)]
pub struct IdNote<T> {
    pub(crate) id: u32,
    pub(crate) second: Note<Row<Row<Row<T>>>>,
    pub(crate) third: Note<Row<Row<T>>>,
    pub(crate) fourth: Note<Row<T>>,
    pub(crate) last: Note<T>,
}

impl<T> Model for IdNote<T> {
    ghost use Rattle.spec_registry.specs.Path.{Path};
    ghost use Rattle.id_cells.specs.Path.{path_code};

    ghost Value = { Path T };

    ghost coded = { path_code T.code };

    ghost view = { λ n. record {
      id = n.id;
      second = (n.second.cell, n.second.known);
      third = (n.third.cell, n.third.known);
      fourth = (n.fourth.cell, n.fourth.known);
      last = (n.last.cell, n.last.known);
    } };
}

impl<T> IdNote<T> {
    /// Returns the id.
    pub fn id(&self) -> u32
        ensures { result ≡ self.now.id }
    {
        self.id
    }

    /// Returns the note once more, as for another thread. It is no `clone`, since the proof reaches a note only by
    /// `&mut`.
    pub fn again(&mut self) -> IdNote<T>
        ensures same { self.new ≡ self.old }
        ensures note { result ≡ self.old }
    {
        IdNote {
            id: self.id,
            second: self.second.again(),
            third: self.third.again(),
            fourth: self.fourth.again(),
            last: self.last.again(),
        }
    }
}
