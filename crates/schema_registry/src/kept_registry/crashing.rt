//! What a start finds after a crash, as a theorem over a whole run.

ghost use Rattle.std.specs.Prelude.{◌++◌, [], ◌∷◌, IfErr, IfOk, IsTrue, OnErr, OnOk};
ghost use Rattle.schema_registry.specs.Command.{command_of};
ghost use Rattle.spec_registry.specs.Storing.{IsFoundAfter};
ghost use Rattle.schema_registry.specs.Storing.{IsOfFile};

use super::KeptRegistry;
use super::opening::{StartFault, Started};
use crate::command::Command;
use crate::registry::Unwatched;
use crate::reply::Reply;
use registry_store::CommandStore;
use spec_registry::Refusal;
use sqlite_disk::Crash;
use std::alloc::Global;

/// What was replied to a command, and what a start found after a crash.
pub struct Aftermath<D: Crash> {
    pub answer: Result<Reply, Refusal>,
    pub found: Result<Started<D>, (StartFault, D)>,
}

impl<D: Crash> KeptRegistry<CommandStore<D>> {
    /// Executes a command; then the machine crashes, and a registry starts from the file.
    ///
    /// Over a `Fuse` the machine stops before any call of the disk that the fuse names. The start finds each command
    /// that was accepted before, and this command where it was accepted, with the ids that were returned, and at most
    /// one command more; and it reports no fault of the file.
    pub fn apply_and_crash(self, alloc: Global, command: Command) -> Aftermath<D>
        ensures answered { OnOk result.answer (IfOk result.found (λ r. IsTrue (D.Disk.is_clean r.store.journal.disk)
            → IsFoundAfter (self.registry ++ command_of command ∷ []) r.registry)) }
        ensures refused { OnErr result.answer (IfOk result.found (λ r. IsTrue (D.Disk.is_clean r.store.journal.disk)
            → IsFoundAfter self.registry r.registry)) }
        ensures whole { IfErr result.found (λ e. IsTrue (D.Disk.is_clean e.1) → ¬ (IsOfFile e.0)) }
    {
        let mut kept = self;
        let answer = kept.apply(command);
        kept.is_kept(); // law
        kept.registry().is_accepted(); // law
        let mut disk = kept.keeper.into_disk();
        disk.crash();
        let found = Started::from_disk(alloc, disk, &mut Unwatched);
        Aftermath { answer, found }
    }
}
