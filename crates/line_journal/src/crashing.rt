//! What a crash leaves of a line that is being added, over a whole run.

ghost use Rattle.std.specs.Prelude.{◌≡◌, ◌⊎◌, ◌++◌, [], ◌∷◌, List, IsTrue, IsOk, IfOk, IfErr};
ghost use Rattle.line_journal.specs.Lines.{Line, lines_of};
ghost use Rattle.line_journal.specs.declared.error.Damage.{Damage as DamageIn};

use crate::error::{AppendError, OpenError};
use crate::journal::Journal;
use sqlite_disk::Crash;
use std::alloc::Global;

/// What was answered to a line that was added, and what was found in the file after the crash.
pub struct Aftermath<D: Crash> {
    pub answer: Result<(), AppendError>,
    pub found: Result<(Journal<D>, Vec<Vec<u8>>), (OpenError, D)>,
}

impl<D: Crash> Journal<D> {
    ghost use Rattle.line_journal.specs.Journal.{IsAtRest};

    /// Adds a line to a file whose machine then crashes, and opens the file again.
    ///
    /// Over a `Fuse` the machine stops at any call of the disk that the fuse names. The file has the lines from
    /// before, with the new one or without, and with it where `append` returned `Ok`. It is never damaged.
    pub fn append_and_crash(self, alloc: Global, line: Vec<u8>) -> Aftermath<D>
        ensures before_or_after { IfOk result.found (λ r. IsTrue (D.Disk.is_clean r.0.disk) → (lines : List Line)
            → IsAtRest D.Disk.seen D.Disk.may_leave self lines
            → (lines_of r.1.items ≡ lines) ⊎ (lines_of r.1.items ≡ lines ++ line.items ∷ [])) }
        ensures answered { IsOk result.answer → IfOk result.found (λ r. IsTrue (D.Disk.is_clean r.0.disk)
            → (lines : List Line)
            → IsAtRest D.Disk.seen D.Disk.may_leave self lines
            → lines_of r.1.items ≡ lines ++ line.items ∷ []) }
        ensures whole { IfErr result.found (λ e. (damage : DamageIn) → e.0 ≡ OpenError.Damaged damage
            → IsTrue (D.Disk.is_clean e.1)
            → (lines : List Line) → IsAtRest D.Disk.seen D.Disk.may_leave self lines → ⊥) }
    {
        let mut journal = self;
        let answer = journal.append(line);
        let mut disk = journal.disk;
        disk.crash();
        let found = Journal::open(alloc, disk);
        Aftermath { answer, found }
    }
}
