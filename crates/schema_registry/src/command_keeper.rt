//! A store of commands in a file, as the keeper of a registry.

ghost use Rattle.std.specs.Prelude.{◌≡◌, ◌≢◌};
ghost use Rattle.schema_registry.specs.Storing.{FailsStored, KeepsStored, LeavesStored, Spoils};

use crate::keeper::{KeepFault, Keeper};
use crate::level::Level;
use registry_store::{CommandStore, StoreFault};
use sqlite_disk::Disk;

/// Returns why a command was not kept that the store refused.
fn keep_fault(fault: StoreFault) -> KeepFault
    ensures { result ≡ KeepFault.NotStored → fault ≢ StoreFault.NoMemory }
{
    match fault {
        StoreFault::NoMemory => KeepFault::NoMemory,
        StoreFault::Closed | StoreFault::TooLong | StoreFault::Failed(_) => KeepFault::NotStored,
    }
}

impl<D: Disk> Keeper for CommandStore<D> {
    ghost use Rattle.registry_store.specs.Store.{is_open};

    ghost keeps = { KeepsStored D.seen D.may_leave D.is_clean };

    ghost leaves = { LeavesStored D.may_leave D.is_clean };

    ghost spoils = { Spoils D.may_leave D.is_clean };

    ghost is_open = { is_open };

    ghost fails = { FailsStored D.is_usable D.is_mixing D.faults };

    fn keep_registration(&mut self, id: u32, subject: &str, text: &str) -> Result<(), KeepFault> {
        match CommandStore::keep_registration(self, id, subject, text) {
            Ok(()) => Ok(()),
            Err(fault) => Err(keep_fault(fault)),
        }
    }

    fn keep_level(&mut self, subject: &Option<String>, level: Level) -> Result<(), KeepFault> {
        match CommandStore::keep_level(self, subject.as_deref(), level.name()) {
            Ok(()) => Ok(()),
            Err(fault) => Err(keep_fault(fault)),
        }
    }

    fn take_back(&mut self) {
        CommandStore::take_back(self);
    }

    fn leaves_what_it_has(&self) {}
}
