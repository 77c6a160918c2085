//! Opening a file that a crash may have left, and making one of no lines.

ghost use Rattle.std.specs.Prelude.{◌≡◌, ◌≤◌, ℕ, List, [], true, length, Ok, Err, IsTrue, IfOk, IfErr};
ghost use Rattle.sqlite_disk.specs.Disk.{Only, MoreFaults};
ghost use Rattle.std.specs.declared.io.Error.{Error};
ghost use Rattle.line_journal.specs.Lines.{lines_in, lines_of};
ghost use Rattle.line_journal.specs.declared.error.Damage.{Damage as DamageIn};

use crate::error::{OpenError, ReadError};
use crate::journal::Journal;
use crate::layout::CLOSED;
use crate::reading::{read_all, read_lines};
use sqlite_disk::Disk;
use std::alloc::Global;
use std::io;

impl<D: Disk> Journal<D> {
    ghost use Rattle.line_journal.specs.Journal.{IsAtRest};
    ghost use Rattle.line_journal.specs.Cause.{IsDisksFault};

    /// Opens a file that a crash may have left, repairs it, and returns the journal and the lines.
    ///
    /// A half open gate of the last line is opened, and the rest of a line after the closed gate is cut off. A crash
    /// meanwhile leaves a file of the lines that it had. An `Err` hands the disk back.
    pub fn open(alloc: Global, disk: D) -> Result<(Journal<D>, Vec<Vec<u8>>), (OpenError, D)>
        requires { IsTrue (D.is_usable disk) }
        // After a restart, what is read is what is on the disk.
        ensures lines { IfOk result (λ r. IsTrue (D.is_clean r.0.disk)
            → lines_in (D.seen disk) ≡ Ok (lines_of r.1.items)) }
        ensures at_rest { IfOk result (λ r. IsTrue (D.is_clean r.0.disk) → Only (D.seen disk) (D.may_leave disk)
            → IsAtRest D.seen D.may_leave r.0 (lines_of r.1.items)) }
        ensures open { IfOk result (λ r. r.0.is_open ≡ true) }
        ensures damaged { IfErr result (λ e. (damage : DamageIn) → e.0 ≡ OpenError.Damaged damage
            → IsTrue (D.is_clean e.1) → lines_in (D.seen disk) ≡ Err damage) }
        ensures failed { IfErr result (λ e. (error : Error) → e.0 ≡ OpenError.Failed error
            → IsDisksFault D.is_mixing D.faults disk e.1) }
        ensures clean { IfOk result (λ r. IsTrue (D.is_clean r.0.disk) → IsTrue (D.is_clean disk)) }
        ensures clean_err { IfErr result (λ e. IsTrue (D.is_clean e.1) → IsTrue (D.is_clean disk)) }
        ensures crash { IfErr result (λ e. IsTrue (D.is_clean e.1) → Only (D.seen disk) (D.may_leave disk)
            → (c : List ℕ) → D.may_leave e.1 c → lines_in c ≡ lines_in (D.seen disk)) }
    {
        let mut disk = disk;
        let bytes = match read_all(alloc, &mut disk) {
            Ok(bytes) => bytes,
            Err(error) => return Err((error, disk)),
        };
        let found = match read_lines(alloc, &bytes) {
            Ok(found) => found,
            Err(ReadError::NoMemory) => return Err((OpenError::NoMemory, disk)),
            Err(ReadError::Damaged(damage)) => return Err((OpenError::Damaged(damage), disk)),
        };
        let mut journal = Journal {
            disk,
            gate: found.gate,
            last: None,
            is_open: true,
        };
        if let Err(error) = journal.repair(found.half_open) {
            return Err((OpenError::Failed(error), journal.disk));
        }
        Ok((journal, found.lines))
    }

    /// Makes an empty file one of no lines. A crash meanwhile leaves at most a gate of some bytes, and no line. An
    /// `Err` hands the disk back.
    pub fn create(disk: D) -> Result<Journal<D>, (io::Error, D)>
        requires { IsTrue (D.is_usable disk) }
        ensures at_rest { IfOk result (λ journal. D.seen disk ≡ [] → IsAtRest D.seen D.may_leave journal []) }
        ensures open { IfOk result (λ journal. journal.is_open ≡ true) }
        ensures failed { IfErr result (λ e. MoreFaults (D.faults disk) (D.faults e.1)) }
        ensures crash { IfErr result (λ e. D.seen disk ≡ [] → Only (D.seen disk) (D.may_leave disk)
            → (c : List ℕ) → D.may_leave e.1 c → length c ≤ 2) }
    {
        let mut disk = disk;
        if let Err(error) = disk.write_at(0, &[CLOSED, CLOSED]) {
            return Err((error, disk));
        }
        if let Err(error) = disk.sync() {
            return Err((error, disk));
        }
        Ok(Journal {
            disk,
            gate: 0,
            last: None,
            is_open: true,
        })
    }
}
