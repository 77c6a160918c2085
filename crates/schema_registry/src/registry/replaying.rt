//! Doing again what was kept.

ghost use Rattle.std.specs.Prelude.{◌≡◌, ◌≢◌, ◌≤◌, ◌++◌, [], ◌∷◌, IfErr, IfOk, OnOk, OnErr, option_map, string_bytes, vec_len};
ghost use Rattle.registry_store.specs.Stored.{stored_of};
ghost use Rattle.spec_registry.specs.Accepting.{registry_after};
ghost use Rattle.spec_registry.specs.Command.{RegisterCommand, SetLevelCommand};
ghost use Rattle.schema_registry.specs.Keeping.{KeptCommand, KeptLevel, KeptRegistration, kept_in};
ghost use Rattle.schema_registry.specs.Replaying.{AreOfNoRegistry, IsWhyNotReplayed, stored_all, stored_as, stored_in};

use super::Registry;
use super::registering::schema_for;
use crate::candidate::Candidate;
use crate::command::Command;
use crate::decision::Decision;
use crate::level::{Level, parse_level};
use registry_store::StoredCommand;
use spec_registry::Refusal;
use std::alloc::Global;
use thiserror::Error;

/// Why a command that was kept is not done again.
#[derive(Clone, Copy, Debug, PartialEq, Eq, Error)]
pub enum ReplayFault {
    /// The registry refuses it, or memory ran out.
    #[error("{0}")]
    Refused(Refusal),
    /// The schema gets another id than it had, which is this.
    #[error("the schema would get the id {0}")]
    OtherId(u32),
    /// A version of the subject has the schema.
    #[error("the subject has the schema")]
    KnownAlready,
}

impl From<Refusal> for ReplayFault {
    ghost use Rattle.std.specs.Prelude.{◌≡◌};
    ghost use Rattle.schema_registry.specs.declared.registry.replaying.ReplayFault.TheVariants.{Refused};

    ghost from_gives = { λ refusal fault. fault ≡ Refused refusal };

    fn from(refusal: Refusal) -> ReplayFault {
        ReplayFault::Refused(refusal)
    }
}

impl Registry {
    /// Executes again a command that was stored. At `Err` nothing changes.
    fn replay(&mut self, command: StoredCommand) -> Result<(), ReplayFault>
        ensures kept { OnOk result (stored_in self.new ≡ stored_in self.old ++ stored_of command ∷ []) }
        ensures err { OnErr result (self.new ≡ self.old) }
        ensures why { IfErr result (λ fault. (k : KeptCommand) → stored_as k ≡ stored_of command
            → IsWhyNotReplayed (registry_after self.old) k fault) }
    {
        match command {
            StoredCommand::Registration { id, subject, text } => {
                self.replay_registration(id, subject, text)
            }
            StoredCommand::Level { subject, level } => {
                let level = parse_level(&level)?;
                self.replay_level(subject, level)
            }
        }
    }

    /// Registers the schema of a text again, which makes it a version of the subject under the id that it had. At `Err`
    /// nothing changes.
    pub(crate) fn replay_registration(
        &mut self,
        id: u32,
        subject: String,
        text: String,
    ) -> Result<(), ReplayFault>
        ensures ok { OnOk result (self.new ≡ self.old
            ++ RegisterCommand (string_bytes subject) (string_bytes text) ∷ []) }
        ensures kept { OnOk result (kept_in self.new ≡ kept_in self.old
            ++ KeptRegistration id (string_bytes subject) (string_bytes text) ∷ []) }
        ensures err { OnErr result (self.new ≡ self.old) }
        ensures why { IfErr result (IsWhyNotReplayed (registry_after self.old)
            (KeptRegistration id (string_bytes subject) (string_bytes text))) }
    {
        let schema = Candidate::new(self.alloc, schema_for(self.alloc, &subject, &text)?);
        let Decision::New(next) = self.decide(&subject, &schema)? else {
            return Err(ReplayFault::KnownAlready);
        };
        if next != id {
            return Err(ReplayFault::OtherId(next));
        }
        let command = Command::Register { subject, text };
        self.register_decided(Decision::New(next), command, &schema)?;
        Ok(())
    }

    /// Sets a level again. At `Err` nothing changes.
    pub(crate) fn replay_level(
        &mut self,
        subject: Option<String>,
        level: Level,
    ) -> Result<(), ReplayFault>
        ensures ok { OnOk result (self.new ≡ self.old
            ++ SetLevelCommand (option_map string_bytes subject) level ∷ []) }
        ensures kept { OnOk result (kept_in self.new ≡ kept_in self.old
            ++ KeptLevel (option_map string_bytes subject) level ∷ []) }
        ensures err { OnErr result (self.new ≡ self.old) }
        ensures why { IfErr result (IsWhyNotReplayed (registry_after self.old)
            (KeptLevel (option_map string_bytes subject) level)) }
    {
        self.apply(Command::SetLevel { subject, level })?;
        Ok(())
    }
}

/// A receiver of reports on how far a start has come.
pub trait Progress {
    /// Receives the report that `number` commands of `all` are done again.
    fn done(&mut self, number: usize, all: usize);
}

/// A receiver of reports that does nothing with them.
#[derive(Drop)]
pub struct Unwatched;

impl Progress for Unwatched {
    fn done(&mut self, _number: usize, _all: usize) {}
}

/// A command that was stored is not done again: which one, and why.
#[derive(Clone, Copy, Debug, PartialEq, Eq, Error)]
#[error("line {number}: {fault}")]
pub struct UnreplayedLine {
    /// Its number in the order in which the commands were stored, from 1.
    pub number: usize,
    pub fault: ReplayFault,
}

/// Returns a registry that has done again what was stored, in its order; or the first command that is not done again.
pub(crate) fn replayed<P: Progress>(
    alloc: Global,
    commands: Vec<StoredCommand>,
    progress: &mut P,
) -> Result<Registry, UnreplayedLine>
    ensures kept { IfOk result (λ registry. stored_in registry ≡ stored_all commands.items) }
    ensures number { IfErr result (λ line. (1 ≤ line.number) × (line.number ≤ vec_len commands)) }
    ensures why { IfErr result (λ line. line.fault ≢ ReplayFault.Refused Refusal.NoMemory
        → AreOfNoRegistry (stored_all commands.items)) }
{
    let mut registry = Registry::new(alloc);
    let all = commands.len();
    let mut number = 0;
    for command in commands {
        number += 1;
        if let Err(fault) = registry.replay(command) {
            return Err(UnreplayedLine { number, fault });
        }
        progress.done(number, all);
    }
    Ok(registry)
}
