//! Opening a registry's file, and making one of no commands.

ghost use Rattle.std.specs.Prelude.{◌≡◌, ◌≤◌, ℕ, List, [], true, length, IsTrue, IfErr, IfOk};
ghost use Rattle.std.specs.List.{AllByRecursion};
ghost use Rattle.sqlite_disk.specs.Disk.{MoreFaults, Only};
ghost use Rattle.line_journal.specs.Lines.{lines_in, lines_of};
ghost use Rattle.registry_store.specs.Cause.{HasReadCause, bad_line, open_fault};
ghost use Rattle.registry_store.specs.Store.{commands_of, lines_for};
ghost use Rattle.registry_store.specs.Stored.{MayBeStored};

use crate::fault::LineFault;
use crate::reading::parse;
use crate::store::CommandStore;
use crate::store_fault::OpenFault;
use crate::stored::StoredCommand;
use line_journal::{Journal, OpenError};
use sqlite_disk::Disk;
use std::alloc::Global;
use std::io;

impl<D: Disk> CommandStore<D> {
    ghost use Rattle.registry_store.specs.Cause.{HasOpenCause};
    ghost use Rattle.registry_store.specs.Store.{HasCommands, Keeps, disk_of, is_open};

    /// Opens a file that a crash may have left, and returns the store and the commands. A crash meanwhile leaves a
    /// file of the lines that it had. An `Err` hands the disk back.
    pub fn open(
        alloc: Global,
        disk: D,
    ) -> Result<(CommandStore<D>, Vec<StoredCommand>), (OpenFault, D)>
        requires { IsTrue (D.is_usable disk) }
        ensures commands { IfOk result (λ r. IsTrue (D.is_clean (disk_of r.0))
            → HasCommands (D.seen disk) (commands_of r.1.items)) }
        // After a restart, what is read is what is on the disk.
        ensures keeps { IfOk result (λ r. Only (D.seen disk) (D.may_leave disk)
            → Keeps D.seen D.may_leave D.is_clean r.0 (commands_of r.1.items)) }
        ensures open { IfOk result (λ r. is_open r.0 ≡ true) }
        ensures why { IfErr result (λ e. HasOpenCause D.seen D.is_clean D.is_mixing D.faults disk e.1 e.0) }
        ensures clean { IfOk result (λ r. IsTrue (D.is_clean r.0.journal.disk) → IsTrue (D.is_clean disk)) }
        ensures clean_err { IfErr result (λ e. IsTrue (D.is_clean e.1) → IsTrue (D.is_clean disk)) }
        ensures crash { IfErr result (λ e. IsTrue (D.is_clean e.1) → Only (D.seen disk) (D.may_leave disk)
            → (c : List ℕ) → D.may_leave e.1 c → lines_in c ≡ lines_in (D.seen disk)) }
    {
        let (journal, lines) = match Journal::open(alloc, disk) {
            Ok(found) => found,
            Err((error, disk)) => return Err((fault_of(error), disk)),
        };
        match read_commands(alloc, &lines) {
            Ok(commands) => Ok((CommandStore { alloc, journal }, commands)),
            Err(fault) => Err((fault, journal.into_disk())),
        }
    }

    /// Makes an empty file one of no commands. A crash meanwhile leaves at most two bytes. An `Err` hands the disk
    /// back.
    pub fn create(alloc: Global, disk: D) -> Result<CommandStore<D>, (io::Error, D)>
        requires { IsTrue (D.is_usable disk) }
        ensures keeps { IfOk result (λ store. D.seen disk ≡ []
            → Keeps D.seen D.may_leave D.is_clean store []) }
        ensures open { IfOk result (λ store. is_open store ≡ true) }
        ensures failed { IfErr result (λ e. MoreFaults (D.faults disk) (D.faults e.1)) }
        ensures crash { IfErr result (λ e. D.seen disk ≡ [] → Only (D.seen disk) (D.may_leave disk)
            → (c : List ℕ) → D.may_leave e.1 c → length c ≤ 2) }
    {
        match Journal::create(disk) {
            Ok(journal) => Ok(CommandStore { alloc, journal }),
            Err(error) => Err(error),
        }
    }
}

/// Returns the fault of a file that its journal did not open.
fn fault_of(error: OpenError) -> OpenFault
    ensures { result ≡ open_fault error }
{
    match error {
        OpenError::NoMemory => OpenFault::NoMemory,
        OpenError::Damaged(damage) => OpenFault::Damaged(damage),
        OpenError::Failed(error) => OpenFault::Failed(error),
    }
}

/// Reads the lines of a file as commands, in their order.
fn read_commands(alloc: Global, lines: &[Vec<u8>]) -> Result<Vec<StoredCommand>, OpenFault>
    ensures value { IfOk result (λ commands. lines_of lines.now ≡ lines_for (commands_of commands.items)) }
    ensures may { IfOk result (λ commands. AllByRecursion MayBeStored (commands_of commands.items)) }
    ensures why { IfErr result (HasReadCause (lines_of lines.now)) }
{
    let mut commands = Vec::new(alloc);
    for (at, line) in lines.iter().enumerate() {
        match parse(alloc, line) {
            Ok(command) => commands.push(command)?,
            Err(fault) => return Err(bad_line(at + 1, fault)),
        }
    }
    Ok(commands)
}

/// Returns the fault of a file whose line with this number, from 1, was not read.
fn bad_line(number: usize, fault: LineFault) -> OpenFault
    ensures { result ≡ bad_line number fault }
{
    match fault {
        LineFault::NoMemory => OpenFault::NoMemory,
        LineFault::BadCheck | LineFault::BadLine => OpenFault::BadLine { number, fault },
    }
}
