//! A registry's file, open for more commands.

ghost use Rattle.std.specs.Prelude.{◌≡◌, ◌≢◌, ◌⊎◌, ◌++◌, [], ◌∷◌, List, ℕ, true, false, IsTrue, IfErr, OnErr, OnOk};
ghost use Rattle.std.specs.Option.{option_copied};
ghost use Rattle.registry_store.specs.Cause.{SaysSame};
ghost use Rattle.registry_store.specs.Line.{IsOneLine, line_of};
ghost use Rattle.registry_store.specs.Stored.{LevelSet, MayBeStored, Registered, Stored};

use crate::store_fault::StoreFault;
use crate::writing::{level_line, registration_line};
use line_journal::{AppendError, Journal};
use sqlite_disk::Disk;
use std::alloc::Global;

/// A file of the commands that changed a registry, each of them one line, open for more.
#[derive(Drop)]
pub struct CommandStore<D: Disk> {
    pub(crate) alloc: Global,
    pub(crate) journal: Journal<D>,
}

impl<D: Disk> CommandStore<D> {
    ghost use Rattle.registry_store.specs.Cause.{HasCause, MayClose};
    ghost use Rattle.registry_store.specs.Store.{Keeps, Leaves, LeavesNoMore, LeavesOneOf, MayTakeBack, disk_of, is_open};
    ghost use Rattle.line_journal.specs.Cause.{IsDisksFault};
    ghost use Rattle.line_journal.specs.Journal.{takes_lines};

    /// Returns whether the store may be asked for one more command: it is open, its disk may be used, and its file is
    /// not too long.
    pub fn takes_commands(&self) -> bool
        ensures { result ≡ takes_lines D.is_usable self.now.journal }
    {
        self.journal.takes_lines()
    }

    /// Adds a registration: a schema's text got this id under a subject.
    ///
    /// At `Ok` it is on the disk, and each crash from then on leaves a file that has it. At `Err` the store is as it
    /// was, or it is closed.
    pub fn keep_registration(
        &mut self,
        id: u32,
        subject: &str,
        text: &str,
    ) -> Result<(), StoreFault>
        ensures kept { OnOk result ((commands : List Stored)
            → Keeps D.seen D.may_leave D.is_clean self.old commands
            → Keeps D.seen D.may_leave D.is_clean self.new (commands ++ Registered id subject.now text.now ∷ [])) }
        ensures refused { OnErr result (is_open self.new ≡ true → (commands : List Stored)
            → Keeps D.seen D.may_leave D.is_clean self.old commands
            → Keeps D.seen D.may_leave D.is_clean self.new commands) }
        ensures crash { (commands : List Stored) → Keeps D.seen D.may_leave D.is_clean self.old commands
            → (left : List Stored) → Leaves D.may_leave D.is_clean self.new left
            → (left ≡ commands) ⊎ (left ≡ commands ++ Registered id subject.now text.now ∷ []) }
        ensures files { (commands : List Stored) → Keeps D.seen D.may_leave D.is_clean self.old commands
            → LeavesOneOf D.may_leave D.is_clean self.new commands (Registered id subject.now text.now) }
        ensures open { OnOk result ((is_open self.old ≡ true) × (is_open self.new ≡ true)) }
        ensures closed { is_open self.old ≡ false → (is_open self.new ≡ false)
            × ((left : List Stored) → Leaves D.may_leave D.is_clean self.new left
            → Leaves D.may_leave D.is_clean self.old left)
            × LeavesNoMore D.may_leave D.is_clean self.old self.new }
        ensures stays { IfErr result (λ fault. (is_open self.new ≡ is_open self.old) ⊎ MayClose fault) }
        ensures last { OnOk result (MayTakeBack self.new) }
        ensures clean { D.is_clean (disk_of self.new) ≡ D.is_clean (disk_of self.old) }
        ensures why { IfErr result (HasCause D.is_usable D.is_mixing D.faults self.old self.new
            (Registered id subject.now text.now)) }
    {
        let line = registration_line(self.alloc, id, subject, text)?;
        self.append(line)
    }

    /// Adds a level that was set, of a subject or, without one, the global level. `Ok` and `Err` are as for a
    /// registration.
    pub fn keep_level(&mut self, subject: Option<&str>, level: &str) -> Result<(), StoreFault>
        ensures kept { OnOk result ((commands : List Stored)
            → Keeps D.seen D.may_leave D.is_clean self.old commands
            → Keeps D.seen D.may_leave D.is_clean self.new
            (commands ++ LevelSet (option_copied subject.entry) level.now ∷ [])) }
        ensures refused { OnErr result (is_open self.new ≡ true → (commands : List Stored)
            → Keeps D.seen D.may_leave D.is_clean self.old commands
            → Keeps D.seen D.may_leave D.is_clean self.new commands) }
        ensures crash { (commands : List Stored) → Keeps D.seen D.may_leave D.is_clean self.old commands
            → (left : List Stored) → Leaves D.may_leave D.is_clean self.new left
            → (left ≡ commands) ⊎ (left ≡ commands ++ LevelSet (option_copied subject.entry) level.now ∷ []) }
        ensures files { (commands : List Stored) → Keeps D.seen D.may_leave D.is_clean self.old commands
            → LeavesOneOf D.may_leave D.is_clean self.new commands (LevelSet (option_copied subject.entry) level.now) }
        ensures open { OnOk result ((is_open self.old ≡ true) × (is_open self.new ≡ true)) }
        ensures closed { is_open self.old ≡ false → (is_open self.new ≡ false)
            × ((left : List Stored) → Leaves D.may_leave D.is_clean self.new left
            → Leaves D.may_leave D.is_clean self.old left)
            × LeavesNoMore D.may_leave D.is_clean self.old self.new }
        ensures stays { IfErr result (λ fault. (is_open self.new ≡ is_open self.old) ⊎ MayClose fault) }
        ensures last { OnOk result (MayTakeBack self.new) }
        ensures clean { D.is_clean (disk_of self.new) ≡ D.is_clean (disk_of self.old) }
        ensures why { IfErr result (HasCause D.is_usable D.is_mixing D.faults self.old self.new
            (LevelSet (option_copied subject.entry) level.now)) }
    {
        let line = level_line(self.alloc, subject, level)?;
        self.append(line)
    }

    /// Adds the line of a command.
    fn append(&mut self, line: Vec<u8>) -> Result<(), StoreFault>
        requires { IsOneLine line.items }
        ensures kept { OnOk result ((command : Stored) → MayBeStored command → line.items ≡ line_of command
            → (commands : List Stored) → Keeps D.seen D.may_leave D.is_clean self.old commands
            → Keeps D.seen D.may_leave D.is_clean self.new (commands ++ command ∷ [])) }
        ensures refused { OnErr result (is_open self.new ≡ true → (commands : List Stored)
            → Keeps D.seen D.may_leave D.is_clean self.old commands
            → Keeps D.seen D.may_leave D.is_clean self.new commands) }
        ensures files { (command : Stored) → MayBeStored command → line.items ≡ line_of command
            → (commands : List Stored) → Keeps D.seen D.may_leave D.is_clean self.old commands
            → LeavesOneOf D.may_leave D.is_clean self.new commands command }
        ensures open { OnOk result ((is_open self.old ≡ true) × (is_open self.new ≡ true)) }
        ensures closed { is_open self.old ≡ false → (is_open self.new ≡ false)
            × ((left : List Stored) → Leaves D.may_leave D.is_clean self.new left
            → Leaves D.may_leave D.is_clean self.old left)
            × LeavesNoMore D.may_leave D.is_clean self.old self.new }
        ensures stays { IfErr result (λ fault. (is_open self.new ≡ is_open self.old) ⊎ MayClose fault) }
        ensures last { OnOk result (MayTakeBack self.new) }
        ensures clean { D.is_clean (disk_of self.new) ≡ D.is_clean (disk_of self.old) }
        ensures why { IfErr result (λ fault. (command : Stored) → line.items ≡ line_of command
            → HasCause D.is_usable D.is_mixing D.faults self.old self.new command fault) }
    {
        match self.journal.append(line) {
            Ok(()) => Ok(()),
            Err(error) => Err(fault_of(error)),
        }
    }

    /// Takes back the command that was added last. Where anything fails, or where no command may be taken back, the
    /// store is closed.
    pub fn take_back(&mut self)
        ensures taken { is_open self.new ≡ true → (commands : List Stored) (command : Stored)
            → Keeps D.seen D.may_leave D.is_clean self.old (commands ++ command ∷ [])
            → Keeps D.seen D.may_leave D.is_clean self.new commands }
        ensures crash { (commands : List Stored) (command : Stored)
            → Keeps D.seen D.may_leave D.is_clean self.old (commands ++ command ∷ [])
            → (left : List Stored) → Leaves D.may_leave D.is_clean self.new left
            → (left ≡ commands) ⊎ (left ≡ commands ++ command ∷ []) }
        ensures files { (commands : List Stored) (command : Stored)
            → Keeps D.seen D.may_leave D.is_clean self.old (commands ++ command ∷ [])
            → LeavesOneOf D.may_leave D.is_clean self.new commands command }
        ensures open { is_open self.new ≡ true → is_open self.old ≡ true }
        ensures clean { D.is_clean (disk_of self.new) ≡ D.is_clean (disk_of self.old) }
        // An open store whose last command may be taken back is closed only by a fault of its disk.
        ensures why { is_open self.old ≡ true → IsTrue (D.is_usable (disk_of self.old)) → MayTakeBack self.old
            → is_open self.new ≡ false → IsDisksFault D.is_mixing D.faults (disk_of self.old) (disk_of self.new) }
    {
        self.journal.take_back();
    }

    /// Returns the disk. The store is used up, and takes no more commands.
    pub fn into_disk(self) -> D
        ensures { result ≡ disk_of self }
    {
        self.journal.into_disk()
    }
}

/// Returns the fault of the store for an error of its journal.
fn fault_of(error: AppendError) -> StoreFault
    requires { error ≢ AppendError.HasNewline }
    ensures { SaysSame error result }
{
    match error {
        AppendError::NoMemory => StoreFault::NoMemory,
        AppendError::Closed => StoreFault::Closed,
        AppendError::TooLong => StoreFault::TooLong,
        AppendError::HasNewline => unreachable!(),
        AppendError::Failed(error) => StoreFault::Failed(error),
    }
}
