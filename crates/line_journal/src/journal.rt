//! A journal: a file of lines that is open for more.

ghost use Rattle.std.specs.Prelude.{◌≡◌, ◌⊎◌, ◌++◌, ◌+◌, ◌<◌, ◌≤◌, ◌^◌, [], ◌∷◌, List, ℕ, true, false, length, OnOk, OnErr, IfOk, IfErr};
ghost use Rattle.line_journal.specs.Lines.{Line, IsLine, IsNewLine, line_and_gate};

use crate::error::AppendError;
use crate::layout::{CLOSED, GATE, LAST_GATE, LONGEST, NEWLINE};
use sqlite_disk::Disk;
use std::alloc::AllocError;

/// A file of lines, open for more.
#[derive(Drop)]
pub struct Journal<D: Disk> {
    pub(crate) disk: D,
    /// The offset of the closed gate.
    pub(crate) gate: usize,
    /// The offset of the gate before the line that was appended last, where that may be taken back.
    pub(crate) last: Option<usize>,
    /// No write was left in doubt.
    pub(crate) is_open: bool,
}

impl<D: Disk> Journal<D> {
    ghost use Rattle.line_journal.specs.Journal.{IsAtRest, IsShut, IsBeforeOrAfter, takes_lines};
    ghost use Rattle.line_journal.specs.Cause.{HasCause, MayClose};

    /// Returns whether the journal may be asked for one more line: it is open, its disk may be used, and its file is
    /// not too long.
    pub fn takes_lines(&self) -> bool
        ensures { result ≡ takes_lines D.is_usable self.now }
    {
        self.is_open && self.disk.may_be_used() && self.gate <= LAST_GATE
    }

    /// Returns the disk. The journal is used up, and takes no more lines.
    pub fn into_disk(self) -> D
        ensures { result ≡ self.disk }
    {
        self.disk
    }

    /// Adds a line.
    ///
    /// At `Ok` it is on the disk: from then on each crash leaves a file that has it. At `Err` the journal is as it
    /// was, or it is closed and takes no more lines. Whatever is returned, only the line of this call may be taken
    /// back.
    pub fn append(&mut self, line: Vec<u8>) -> Result<(), AppendError>
        ensures kept { OnOk result ((lines : List Line)
            → IsAtRest D.seen D.may_leave self.old lines
            → IsAtRest D.seen D.may_leave self.new (lines ++ line.items ∷ [])) }
        ensures refused { OnErr result ((lines : List Line)
            → IsAtRest D.seen D.may_leave self.old lines
            → self.new.is_open ≡ true
            → IsAtRest D.seen D.may_leave self.new lines) }
        ensures crash { (lines : List Line)
            → IsAtRest D.seen D.may_leave self.old lines
            → (c : List ℕ) → D.may_leave self.new.disk c → IsBeforeOrAfter lines line.items c }
        ensures open { OnOk result ((self.old.is_open ≡ true) × (self.new.is_open ≡ true)) }
        ensures closed { self.old.is_open ≡ false
            → (self.new.is_open ≡ false) × ((c : List ℕ) → D.may_leave self.new.disk c → D.may_leave self.old.disk c) }
        ensures stays { IfErr result (λ e. (self.new.is_open ≡ self.old.is_open) ⊎ MayClose e) }
        ensures line { OnOk result (IsNewLine line.items) }
        ensures last { OnOk result ((self.new.last ≡ Some self.old.gate) × (self.old.gate + 2 < self.new.gate)) }
        ensures no_last { OnErr result (self.new.last ≡ None) }
        ensures why { IfErr result (HasCause D.is_usable D.is_mixing D.faults self.old self.new line.items) }
        ensures clean { D.is_clean self.new.disk ≡ D.is_clean self.old.disk }
    {
        self.last = None;
        if !self.takes_lines() {
            return Err(AppendError::Closed);
        }
        if let Err(error) = check_line(&line) {
            return Err(error);
        }
        let next = self.gate + GATE + line.len() + 1;
        let bytes = with_gate(line)?;
        if let Err(error) = self.stage(&bytes) {
            self.unstage();
            return Err(AppendError::Failed(error));
        }
        if let Err(error) = self.open_gate(next) {
            self.is_open = false;
            return Err(AppendError::Failed(error));
        }
        Ok(())
    }

    /// Cuts off a line that was not written to its end. Where that fails too, the journal is closed.
    fn unstage(&mut self)
        requires open { self.old.is_open ≡ true }
        requires room { self.old.gate + 2 < 2 ^ 64 }
        ensures clean { D.is_clean self.new.disk ≡ D.is_clean self.old.disk }
        ensures faults { D.faults self.old.disk ≤ D.faults self.new.disk }
        ensures last { self.new.last ≡ self.old.last }
        ensures mended { self.new.is_open ≡ true → (lines : List Line)
            → IsShut D.may_leave self.old lines
            → IsAtRest D.seen D.may_leave self.new lines }
        ensures shut { (lines : List Line)
            → IsShut D.may_leave self.old lines
            → IsShut D.may_leave self.new lines }
    {
        if !self.disk.may_be_used() {
            self.is_open = false;
            return;
        }
        let mended = self.cut_rest();
        self.is_open = mended.is_ok();
    }
}

/// Returns `Ok` for bytes that may be a new line: at most `LONGEST`, and no newline among them.
fn check_line(line: &[u8]) -> Result<(), AppendError>
    ensures is_line { OnOk result (IsNewLine line.now) }
    ensures too_long { result ≡ Err AppendError.TooLong → LONGEST < length line.now }
    ensures has_newline { result ≡ Err AppendError.HasNewline → ¬ IsLine line.now }
    ensures others { IfErr result (λ e. (e ≡ AppendError.TooLong) ⊎ (e ≡ AppendError.HasNewline)) }
{
    if line.len() > LONGEST {
        return Err(AppendError::TooLong);
    }
    if line.contains(&NEWLINE) {
        return Err(AppendError::HasNewline);
    }
    Ok(())
}

/// Returns the bytes that are written after the closed gate: the line, its newline, and the next closed gate.
fn with_gate(line: Vec<u8>) -> Result<Vec<u8>, AllocError>
    ensures { IfOk result (λ bytes. bytes.items ≡ line_and_gate line.items) }
{
    let mut bytes = line;
    bytes.push(NEWLINE)?;
    bytes.extend_from_slice(&[CLOSED, CLOSED])?;
    Ok(bytes)
}
