//! What a note knows of a once cell, where threads can share it.

ghost use Rattle.std.specs.Prelude.{◌≡◌, ℕ, IfSome, Option};
ghost use Rattle.std.specs.Coded.{coded_option};
ghost use Rattle.once_cell.specs.Once.{Agrees, noted};
ghost use denote.Sharing.{said};

use once_cell::race::Note;
use std::marker::{Model, PhantomData};

/// What a note knows of one once cell, which threads may share. It takes no bytes. A clause reads the cell's name as
/// `cell`, and the value, where it was seen, as `known`.
pub struct KeptNote<T> {
    marker: PhantomData<T>,
    pub ghost cell: { ℕ },
    pub ghost known: { Option T } by { coded_option T.code },
}

impl<T> Model for KeptNote<T> {
    ghost also_owns = { λ n. noted T.row n.cell n.known };

    ghost also_shares = { λ n _ κ. said (noted T.row n.cell n.known) κ };
}

impl<T> KeptNote<T> {
    /// Keeps what a note knows.
    pub fn of(note: &mut Note<T>) -> KeptNote<T>
        ensures { (note.new ≡ note.old) × (result.cell ≡ note.old.cell) × (result.known ≡ note.old.known) }
    {
        let _ = note;
        KeptNote {
            marker: PhantomData,
        }
    }

    /// Returns what is kept a second time.
    pub fn again(&self) -> KeptNote<T>
        ensures { (result.cell ≡ self.now.cell) × (result.known ≡ self.now.known) }
    {
        KeptNote {
            marker: PhantomData,
        }
    }

    /// The law that what is kept of a cell and a note of it that both know a value know the same one.
    pub fn compare(note: &mut Note<T>, kept: KeptNote<T>)
        requires { kept.cell ≡ note.old.cell }
        ensures { (note.new ≡ note.old) × IfSome kept.known (Agrees note.old.known) }
    {
        let KeptNote { marker: _ } = kept;
    }
}

impl<T> Drop for KeptNote<T> {
    fn drop(self) {
        let KeptNote { marker: _ } = self;
    }
}

unsafe impl<T> Send for KeptNote<T> {}

unsafe impl<T> Sync for KeptNote<T> {}
