//! A registry that starts from its file.

ghost use Rattle.std.specs.Prelude.{◌≡◌, ◌≤◌, [], true, length, List, ℕ, IfErr, IfOk, IsTrue};
ghost use Rattle.sqlite_disk.specs.Disk.{MoreFaults, Only};

use super::KeptRegistry;
use crate::registry::{Progress, Registry, UnreplayedLine, replayed};
use registry_store::{CommandStore, OpenFault};
use sqlite_disk::Disk;
use std::alloc::Global;
use std::io;
use thiserror::Error;

/// Why a registry does not start from a file.
#[derive(Clone, Copy, Debug, Error)]
pub enum StartFault {
    /// The file was not read, or is not one of commands.
    #[error("{0}")]
    File(OpenFault),
    /// A command in it is not done again.
    #[error("{0}")]
    Line(UnreplayedLine),
}

/// A registry that has done again what is in a file, and the store of that file.
#[derive(Drop)]
pub struct Started<D: Disk> {
    pub store: CommandStore<D>,
    pub registry: Registry,
}

impl<D: Disk> Started<D> {
    ghost use Rattle.registry_store.specs.Store.{HasCommands, Keeps, is_open};
    ghost use Rattle.schema_registry.specs.Replaying.{stored_in};
    ghost use Rattle.schema_registry.specs.Storing.{IsOfFile, IsOfNoRegistry};

    /// Starts from a file that a crash may have left: reads its commands and does each of them again, in their order.
    ///
    /// The commands of the file are then those that are kept of the registry's, with the ids that they have in it. At
    /// `Err` the disk is handed back. What is reported to `progress` has no effect.
    pub fn from_disk<P: Progress>(
        alloc: Global,
        disk: D,
        progress: &mut P,
    ) -> Result<Started<D>, (StartFault, D)>
        requires { IsTrue (D.is_usable disk) }
        ensures commands { IfOk result (λ r. IsTrue (D.is_clean r.store.journal.disk)
            → HasCommands (D.seen disk) (stored_in r.registry)) }
        ensures keeps { IfOk result (λ r. Only (D.seen disk) (D.may_leave disk)
            → Keeps D.seen D.may_leave D.is_clean r.store (stored_in r.registry)) }
        ensures clean { IfOk result (λ r. IsTrue (D.is_clean r.store.journal.disk) → IsTrue (D.is_clean disk)) }
        ensures open { IfOk result (λ r. is_open r.store ≡ true) }
        ensures why { IfErr result (λ e. IsOfFile e.0 → IsTrue (D.is_clean e.1) → IsOfNoRegistry (D.seen disk)) }
        ensures clean_err { IfErr result (λ e. IsTrue (D.is_clean e.1) → IsTrue (D.is_clean disk)) }
    {
        let (store, commands) = match CommandStore::open(alloc, disk) {
            Ok(found) => found,
            Err((fault, disk)) => return Err((StartFault::File(fault), disk)),
        };
        match replayed(alloc, commands, progress) {
            Ok(registry) => Ok(Started { store, registry }),
            Err(line) => Err((StartFault::Line(line), store.into_disk())),
        }
    }
}

impl<D: Disk> KeptRegistry<CommandStore<D>> {
    ghost use Rattle.registry_store.specs.Store.{HasCommands, is_open};
    ghost use Rattle.schema_registry.specs.Replaying.{stored_in};
    ghost use Rattle.schema_registry.specs.Storing.{IsOfFile, IsOfNoRegistry};

    /// Starts from a file that is on the disk as it reads, and goes on in it. At `Err` the disk is handed back.
    pub fn open<P: Progress>(
        alloc: Global,
        disk: D,
        progress: &mut P,
    ) -> Result<KeptRegistry<CommandStore<D>>, (StartFault, D)>
        requires usable { IsTrue (D.is_usable disk) }
        requires settled { Only (D.seen disk) (D.may_leave disk) }
        ensures commands { IfOk result (λ r. IsTrue (D.is_clean r.keeper.journal.disk)
            → HasCommands (D.seen disk) (stored_in r.registry)) }
        ensures open { IfOk result (λ r. is_open r.keeper ≡ true) }
        ensures why { IfErr result (λ e. IsOfFile e.0 → IsTrue (D.is_clean e.1) → IsOfNoRegistry (D.seen disk)) }
    {
        let started = Started::from_disk(alloc, disk, progress)?;
        Ok(KeptRegistry::over(started.registry, started.store))
    }

    /// Makes an empty file that of an empty registry. At `Err` the disk is handed back.
    pub fn create(alloc: Global, disk: D) -> Result<KeptRegistry<CommandStore<D>>, (io::Error, D)>
        requires usable { IsTrue (D.is_usable disk) }
        requires empty { D.seen disk ≡ [] }
        ensures registry { IfOk result (λ r. r.registry ≡ []) }
        ensures open { IfOk result (λ r. is_open r.keeper ≡ true) }
        ensures failed { IfErr result (λ e. MoreFaults (D.faults disk) (D.faults e.1)) }
    {
        match CommandStore::create(alloc, disk) {
            Ok(store) => Ok(KeptRegistry::over(Registry::new(alloc), store)),
            Err(error) => Err(error),
        }
    }
}
