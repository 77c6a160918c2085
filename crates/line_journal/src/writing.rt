//! The steps in which a journal changes its file. Each ends with a sync.

ghost use Rattle.std.specs.Prelude.{◌≡◌, ◌++◌, ◌+◌, ◌<◌, ◌^◌, [], ◌∷◌, List, ℕ, None, false, length, Ok, IsTrue, IfSome, OnOk, OnErr};
ghost use Rattle.sqlite_disk.specs.Disk.{CountsFault, Follows, Only};
ghost use Rattle.line_journal.specs.Lines.{Line, IsNewLine, line_and_gate, lines_in};

use crate::journal::Journal;
use crate::layout::{CLOSED, GATE, OPEN};
use sqlite_disk::Disk;
use std::io;

impl<D: Disk> Journal<D> {
    ghost use Rattle.line_journal.specs.Journal.{IsAtRest, IsShut, IsTorn, IsStaged, IsBeforeOrAfter, IsGateWrite, EndsWith};
    ghost use Rattle.line_journal.specs.Cause.{IsDisksFault};

    /// Writes a line, its newline and the next closed gate after the closed gate.
    pub(crate) fn stage(&mut self, bytes: &[u8]) -> io::Result<()>
        requires usable { IsTrue (D.is_usable self.old.disk) }
        requires room { self.old.gate + 2 < 2 ^ 64 }
        ensures stays { (self.new.gate ≡ self.old.gate) × (self.new.last ≡ self.old.last)
            × (self.new.is_open ≡ self.old.is_open) }
        ensures clean { D.is_clean self.new.disk ≡ D.is_clean self.old.disk }
        ensures usable { OnOk result (IsTrue (D.is_usable self.new.disk)) }
        ensures faults { CountsFault result (D.faults self.old.disk) (D.faults self.new.disk) }
        ensures staged { OnOk result ((lines : List Line) (line : Line) → bytes.now ≡ line_and_gate line
            → IsNewLine line
            → IsAtRest D.seen D.may_leave self.old lines
            → IsStaged D.seen D.may_leave self.new lines line) }
        ensures shut { OnErr result ((lines : List Line) (line : Line) → bytes.now ≡ line_and_gate line
            → IsNewLine line
            → IsAtRest D.seen D.may_leave self.old lines
            → IsShut D.may_leave self.new lines) }
    {
        self.disk.write_at(self.gate + GATE, bytes)?;
        self.disk.sync()
    }

    /// Writes this byte twice over the gate at offset `at`. A crash meanwhile may leave one of the two as it was.
    fn write_gate(&mut self, at: usize, byte: u8) -> io::Result<()>
        requires usable { IsTrue (D.is_usable self.old.disk) }
        requires room { at + 2 < 2 ^ 64 }
        ensures stays { (self.new.gate ≡ self.old.gate) × (self.new.last ≡ self.old.last)
            × (self.new.is_open ≡ self.old.is_open) }
        ensures clean { D.is_clean self.new.disk ≡ D.is_clean self.old.disk }
        ensures usable { OnOk result (IsTrue (D.is_usable self.new.disk)) }
        ensures faults { OnOk result (D.faults self.new.disk ≡ D.faults self.old.disk) }
        ensures why { OnErr result (IsDisksFault D.is_mixing D.faults self.old.disk self.new.disk) }
        ensures written { OnOk result ((front rest : List ℕ) (first second : ℕ) → at ≡ length front
            → D.seen self.old.disk ≡ front ++ first ∷ second ∷ rest
            → D.seen self.new.disk ≡ front ++ byte ∷ byte ∷ rest) }
        ensures durable { OnOk result (Only (D.seen self.new.disk) (D.may_leave self.new.disk)) }
        ensures crash { Follows (IsGateWrite at byte) (D.may_leave self.old.disk) (D.may_leave self.new.disk) }
    {
        check_mixing(&self.disk)?;
        self.disk.write_at(at, &[byte, byte])?;
        self.disk.sync()
    }

    /// Opens the gate before the line that was staged. `next` is the offset of the next closed gate.
    pub(crate) fn open_gate(&mut self, next: usize) -> io::Result<()>
        requires usable { IsTrue (D.is_usable self.old.disk) }
        requires room { self.old.gate + 2 < 2 ^ 64 }
        ensures open { self.new.is_open ≡ self.old.is_open }
        ensures stays { OnErr result (self.new.last ≡ self.old.last) }
        ensures next { OnOk result ((self.new.gate ≡ next) × (self.new.last ≡ Some self.old.gate)) }
        ensures clean { D.is_clean self.new.disk ≡ D.is_clean self.old.disk }
        ensures why { OnErr result (IsDisksFault D.is_mixing D.faults self.old.disk self.new.disk) }
        ensures counted { OnOk result ((lines : List Line) (line : Line)
            → IsStaged D.seen D.may_leave self.old lines line
            → next ≡ self.old.gate + length line + 3
            → IsAtRest D.seen D.may_leave self.new (lines ++ line ∷ [])) }
        ensures crash { (lines : List Line) (line : Line)
            → IsStaged D.seen D.may_leave self.old lines line
            → (c : List ℕ) → D.may_leave self.new.disk c → IsBeforeOrAfter lines line c }
    {
        self.write_gate(self.gate, OPEN)?;
        self.last = Some(self.gate);
        self.gate = next;
        Ok(())
    }

    /// Closes the gate at offset `at` again, which is that of the last line.
    pub(crate) fn close_gate(&mut self, at: usize) -> io::Result<()>
        requires usable { IsTrue (D.is_usable self.old.disk) }
        requires room { at + 2 < 2 ^ 64 }
        ensures stays { self.new.last ≡ self.old.last }
        ensures gate { OnOk result (self.new.gate ≡ at) }
        ensures clean { D.is_clean self.new.disk ≡ D.is_clean self.old.disk }
        ensures usable { OnOk result (IsTrue (D.is_usable self.new.disk)) }
        ensures why { OnErr result (IsDisksFault D.is_mixing D.faults self.old.disk self.new.disk) }
        ensures faults { OnOk result (D.faults self.new.disk ≡ D.faults self.old.disk) }
        ensures closed { OnOk result ((lines : List Line) (line : Line)
            → EndsWith D.seen D.may_leave self.old lines line at
            → IsStaged D.seen D.may_leave self.new lines line) }
        ensures crash { (lines : List Line) (line : Line)
            → EndsWith D.seen D.may_leave self.old lines line at
            → (c : List ℕ) → D.may_leave self.new.disk c → IsBeforeOrAfter lines line c }
    {
        self.write_gate(at, CLOSED)?;
        self.gate = at;
        Ok(())
    }

    /// Undoes what a crash left of a line: opens the half open gate at this offset, or, with `None`, cuts off
    /// whatever comes after the closed gate.
    pub(crate) fn repair(&mut self, half_open: Option<usize>) -> io::Result<()>
        requires usable { IsTrue (D.is_usable self.old.disk) }
        requires room { self.old.gate + 2 < 2 ^ 64 }
        requires half { IfSome half_open (λ at. at + 2 < 2 ^ 64) }
        ensures stays { (self.new.gate ≡ self.old.gate) × (self.new.last ≡ self.old.last)
            × (self.new.is_open ≡ self.old.is_open) }
        ensures clean { D.is_clean self.new.disk ≡ D.is_clean self.old.disk }
        ensures why { OnErr result (IsDisksFault D.is_mixing D.faults self.old.disk self.new.disk) }
        ensures repaired { OnOk result ((lines : List Line)
            → IsTorn D.may_leave half_open self.old lines
            → IsAtRest D.seen D.may_leave self.new lines) }
        ensures crash { (lines : List Line)
            → IsTorn D.may_leave half_open self.old lines
            → (c : List ℕ) → D.may_leave self.new.disk c → lines_in c ≡ Ok lines }
    {
        match half_open {
            Some(at) => self.write_gate(at, OPEN),
            None => self.cut_rest(),
        }
    }

    /// Cuts off whatever comes after the closed gate.
    pub(crate) fn cut_rest(&mut self) -> io::Result<()>
        requires usable { IsTrue (D.is_usable self.old.disk) }
        requires room { self.old.gate + 2 < 2 ^ 64 }
        ensures stays { (self.new.gate ≡ self.old.gate) × (self.new.last ≡ self.old.last)
            × (self.new.is_open ≡ self.old.is_open) }
        ensures clean { D.is_clean self.new.disk ≡ D.is_clean self.old.disk }
        ensures faults { CountsFault result (D.faults self.old.disk) (D.faults self.new.disk) }
        ensures mended { OnOk result ((lines : List Line)
            → IsShut D.may_leave self.old lines
            → IsAtRest D.seen D.may_leave self.new lines) }
        ensures shut { (lines : List Line)
            → IsShut D.may_leave self.old lines
            → IsShut D.may_leave self.new lines }
    {
        self.disk.set_len(self.gate + GATE)?;
        self.disk.sync()
    }
}

/// Returns `Ok` where a crash leaves each byte that is written over as it was or as it was to be.
fn check_mixing<D: Disk>(disk: &D) -> io::Result<()>
    ensures mixing { OnOk result (IsTrue (D.is_mixing disk.now)) }
    ensures why { OnErr result (D.is_mixing disk.now ≡ false) }
{
    if !disk.mixes() {
        return Err(io::ErrorKind::Unsupported.into());
    }
    Ok(())
}
