//! Taking back the line that was appended last.

ghost use Rattle.std.specs.Prelude.{◌≡◌, ◌⊎◌, ◌++◌, ◌+◌, ◌<◌, ◌^◌, [], ◌∷◌, List, ℕ, true, false, None, IsTrue, OnOk, OnErr};
ghost use Rattle.line_journal.specs.Lines.{Line};

use crate::journal::Journal;
use crate::layout::GATE;
use sqlite_disk::Disk;
use std::io;

impl<D: Disk> Journal<D> {
    ghost use Rattle.line_journal.specs.Journal.{IsAtRest, IsBeforeOrAfter, EndsWith};
    ghost use Rattle.line_journal.specs.Cause.{IsDisksFault};

    /// Takes back the line that was appended last: closes its gate again, and then cuts it off. Where anything fails,
    /// or where no line may be taken back, the journal is closed.
    pub fn take_back(&mut self)
        ensures taken { self.new.is_open ≡ true → (lines : List Line) (line : Line)
            → IsAtRest D.seen D.may_leave self.old (lines ++ line ∷ [])
            → IsAtRest D.seen D.may_leave self.new lines }
        ensures crash { (lines : List Line) (line : Line)
            → IsAtRest D.seen D.may_leave self.old (lines ++ line ∷ [])
            → (c : List ℕ) → D.may_leave self.new.disk c → IsBeforeOrAfter lines line c }
        ensures last { self.new.last ≡ None }
        ensures open { self.new.is_open ≡ true → self.old.is_open ≡ true }
        // An open journal whose last line may be taken back is closed only by a fault of its disk.
        ensures why { self.old.is_open ≡ true → IsTrue (D.is_usable self.old.disk)
            → (at : ℕ) → self.old.last ≡ Some at → at + 2 < self.old.gate
            → self.new.is_open ≡ false → IsDisksFault D.is_mixing D.faults self.old.disk self.new.disk }
        ensures clean { D.is_clean self.new.disk ≡ D.is_clean self.old.disk }
    {
        let last = self.last.take();
        let was_open = self.is_open;
        self.is_open = false;
        if !was_open || !self.disk.may_be_used() {
            return;
        }
        let Some(at) = last else {
            return;
        };
        if self.gate.saturating_sub(at) <= GATE {
            return;
        }
        let cut = self.cut_last(at);
        self.is_open = cut.is_ok();
    }

    /// Closes the gate at offset `at`, which is that of the last line, and cuts that line off.
    fn cut_last(&mut self, at: usize) -> io::Result<()>
        requires usable { IsTrue (D.is_usable self.old.disk) }
        requires room { at + 2 < 2 ^ 64 }
        requires last { self.old.last ≡ None }
        ensures last { self.new.last ≡ None }
        ensures clean { D.is_clean self.new.disk ≡ D.is_clean self.old.disk }
        ensures why { OnErr result (IsDisksFault D.is_mixing D.faults self.old.disk self.new.disk) }
        ensures taken { OnOk result ((lines : List Line) (line : Line)
            → EndsWith D.seen D.may_leave self.old lines line at
            → IsAtRest D.seen D.may_leave self.new lines) }
        ensures crash { (lines : List Line) (line : Line)
            → EndsWith D.seen D.may_leave self.old lines line at
            → (c : List ℕ) → D.may_leave self.new.disk c → IsBeforeOrAfter lines line c }
    {
        self.close_gate(at)?;
        self.cut_rest()
    }
}
