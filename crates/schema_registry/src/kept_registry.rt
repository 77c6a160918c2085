//! A registry whose commands are kept, so that they are there after a restart.

ghost use Rattle.std.specs.Prelude.{◌≡◌, ◌≢◌, ◌<◌, ◌≤◌, ◌⊎◌, ◌++◌, [], ◌∷◌, ℕ, IfErr, IfOk, Some, None, Ok, Err, OnOk, OnErr, option_map, string_bytes};
ghost use Rattle.spec_registry.specs.declared.limits.TheConstants.{MOST_SCHEMAS};
ghost use Rattle.spec_registry.specs.Accepting.{id_for, registry_after};
ghost use Rattle.schema_registry.specs.Answer.{Gives};
ghost use Rattle.spec_registry.specs.Answer.{IsAnswer};
ghost use Rattle.spec_registry.specs.Answers.{GivesId, Grows, answer_to};
ghost use Rattle.spec_registry.specs.Command.{IsQuestion, RegisterCommand, SetLevelCommand};
ghost use Rattle.schema_registry.specs.Command.{command_of, subject_in};
ghost use Rattle.schema_registry.specs.Keeping.{IsDecision, KeptLevel, KeptRegistration, MayAdd, MayFail};
ghost use Rattle.spec_registry.specs.Reply.{LevelReply};
ghost use Rattle.schema_registry.specs.Tables.{AsksToRegister};

mod crashing;
mod opening;

use crate::candidate::Candidate;
use crate::command::Command;
use crate::decision::Decision;
use crate::keeper::{KeepFault, Keeper};
use crate::level::Level;
use crate::registry::Registry;
use crate::registry::registering::schema_for;
use crate::reply::Reply;
pub use crashing::Aftermath;
pub use opening::{StartFault, Started};
use spec_registry::Refusal;
use std::marker::Model;

/// Returns the refusal of a level that was not kept.
///
/// A registry needs no memory for the global level, so where memory ran out while that was kept, it is `NotStored`.
fn level_refusal(fault: KeepFault, subject: &Option<String>) -> Refusal
    ensures memory { result ≡ Refusal.NoMemory → option_map string_bytes subject.now ≢ None }
    ensures stored { result ≡ Refusal.NotStored
        → (fault ≡ KeepFault.NotStored) ⊎ (option_map string_bytes subject.now ≡ None) }
    ensures only { result ≢ Refusal.NotStored → result ≡ Refusal.NoMemory }
{
    match (fault, subject) {
        (KeepFault::NoMemory, Some(_)) => Refusal::NoMemory,
        _ => Refusal::NotStored,
    }
}

/// A registry, and where its commands are kept: the keeper has what is to be kept of the commands that were accepted,
/// unless it takes no more; and a crash leaves that, or one command more that would have been accepted.
#[derive(Drop)]
pub struct KeptRegistry<K: Keeper> {
    pub(crate) registry: Registry,
    pub(crate) keeper: K,
}

impl<K: Keeper> Model for KeptRegistry<K> {
    ghost use Rattle.schema_registry.specs.Keeping.{IsKept, WithKeeper};

    ghost Value = { WithKeeper K };

    ghost view = { λ r. record { registry = r.registry; keeper = r.keeper } };

    ghost invariant = { λ r. IsKept K.keeps K.leaves K.spoils K.is_open r.keeper r.registry };
}

impl<K: Keeper> KeptRegistry<K> {
    ghost use Rattle.schema_registry.specs.Keeping.{IsKept, kept_in};

    /// Returns a registry with its keeper, which has what is to be kept of its commands.
    pub fn over(registry: Registry, keeper: K) -> KeptRegistry<K>
        requires { K.keeps keeper (kept_in registry) }
        ensures registry { result.registry ≡ registry }
        ensures keeper { result.keeper ≡ keeper }
    {
        keeper.leaves_what_it_has(); // law
        KeptRegistry { registry, keeper }
    }

    /// Returns this registry with an optional keeper, which is its own.
    pub fn into_optional(self) -> KeptRegistry<Option<K>>
        ensures registry { result.registry ≡ self.registry }
        ensures keeper { result.keeper ≡ Some self.keeper }
    {
        KeptRegistry {
            registry: self.registry,
            keeper: Some(self.keeper),
        }
    }

    /// The law of what the keeper has of the registry's commands, and what a crash leaves of them.
    pub fn is_kept(&self)
        ensures { IsKept K.keeps K.leaves K.spoils K.is_open self.now.keeper self.now.registry }
    {
        let _opened = &self.registry; // read for the proof
    }

    /// Returns the registry without its keeper, for commands that change nothing.
    pub(crate) fn registry(&self) -> &Registry
        ensures { result.now ≡ self.now.registry }
    {
        &self.registry
    }

    /// Executes a command and returns its reply, or returns why it is refused.
    ///
    /// At `Ok` the command is kept, where it changed something. `NotStored` where it would be accepted, and the
    /// keeper failed. A refusal changes no command.
    pub fn apply(&mut self, command: Command) -> Result<Reply, Refusal>
        ensures answer { IfOk result (λ reply. Gives (answer_to (registry_after self.old.registry)
            (command_of command)) (Ok reply)) }
        ensures refused { IfErr result (λ e. e ≢ Refusal.NotStored
            → Gives (answer_to (registry_after self.old.registry) (command_of command)) (Err e)) }
        ensures unstored { IfErr result (λ e. e ≡ Refusal.NotStored → MayFail K.fails (registry_after self.old.registry)
            (command_of command) self.old.keeper self.new.keeper) }
        ensures ok { OnOk result (self.new.registry ≡ self.old.registry ++ command_of command ∷ []) }
        ensures err { OnErr result (self.new.registry ≡ self.old.registry) }
    {
        match command {
            Command::Register { subject, text } => {
                let alloc = self.registry.alloc();
                let schema = Candidate::new(alloc, schema_for(alloc, &subject, &text)?);
                Ok(Reply::Id(self.register(subject, text, &schema)?))
            }
            Command::SetLevel { subject, level } => self.set_level(subject, level),
            question => self.ask(question),
        }
    }

    /// Registers the schema of a text, which was parsed from it, for a subject, and returns its id.
    ///
    /// At `Ok` it is kept. `NotStored` where it would be accepted, and the keeper failed; else the refusal is that of
    /// a registry. A refusal changes no command.
    pub(crate) fn register(
        &mut self,
        subject: String,
        text: String,
        schema: &Candidate<'_>,
    ) -> Result<u32, Refusal>
        requires { AsksToRegister (RegisterCommand (string_bytes subject) (string_bytes text))
            (string_bytes subject) schema.now }
        ensures answer { IfOk result (λ id. GivesId (registry_after self.old.registry) (string_bytes subject)
            schema.now (Ok id)) }
        ensures known { IfOk result (λ id. (0 < id) × (id ≤ MOST_SCHEMAS)) }
        ensures refused { IfErr result (λ e. e ≢ Refusal.NotStored
            → GivesId (registry_after self.old.registry) (string_bytes subject) schema.now (Err e)) }
        ensures unstored { IfErr result (λ e. e ≡ Refusal.NotStored
            → MayAdd (registry_after self.old.registry) (string_bytes subject) schema.now
            × K.fails self.old.keeper self.new.keeper (KeptRegistration
            (id_for schema.now (registry_after self.old.registry).schemas) (string_bytes subject)
            (string_bytes text))) }
        ensures ok { OnOk result (self.new.registry ≡ self.old.registry
            ++ RegisterCommand (string_bytes subject) (string_bytes text) ∷ []) }
        ensures err { OnErr result (self.new.registry ≡ self.old.registry) }
    {
        match self.registry.decide(&subject, schema)? {
            Decision::New(id) => self.register_new(id, subject, text, schema),
            known => self.register_known(known, Command::Register { subject, text }, schema),
        }
    }

    /// Registers a schema that the subject lacks, under the id that it gets.
    fn register_new(
        &mut self,
        id: u32,
        subject: String,
        text: String,
        schema: &Candidate<'_>,
    ) -> Result<u32, Refusal>
        requires asks { AsksToRegister (RegisterCommand (string_bytes subject) (string_bytes text))
            (string_bytes subject) schema.now }
        requires decided { IsDecision (registry_after self.old.registry) (string_bytes subject) schema.now
            (Decision.New id) }
        ensures answer { IfOk result (λ id. GivesId (registry_after self.old.registry) (string_bytes subject)
            schema.now (Ok id)) }
        ensures known { IfOk result (λ id. (0 < id) × (id ≤ MOST_SCHEMAS)) }
        ensures refused { IfErr result (λ e. e ≢ Refusal.NotStored → e ≡ Refusal.NoMemory) }
        ensures unstored { IfErr result (λ e. e ≡ Refusal.NotStored → K.fails self.old.keeper self.new.keeper
            (KeptRegistration id (string_bytes subject) (string_bytes text))) }
        ensures ok { OnOk result (self.new.registry ≡ self.old.registry
            ++ RegisterCommand (string_bytes subject) (string_bytes text) ∷ []) }
        ensures err { OnErr result (self.new.registry ≡ self.old.registry) }
    {
        self.keeper.keep_registration(id, &subject, &text)?;
        let command = Command::Register { subject, text };
        match self
            .registry
            .register_decided(Decision::New(id), command, schema)
        {
            Ok(id) => {
                self.keeper.leaves_what_it_has(); // law
                Ok(id)
            }
            Err(refusal) => {
                self.keeper.take_back();
                Err(refusal)
            }
        }
    }

    /// Registers a schema that the subject has, of which nothing is kept.
    fn register_known(
        &mut self,
        decision: Decision,
        command: Command,
        schema: &Candidate<'_>,
    ) -> Result<u32, Refusal>
        requires asks { AsksToRegister (command_of command) (subject_in (command_of command)) schema.now }
        requires decided { IsDecision (registry_after self.old.registry) (subject_in (command_of command)) schema.now
            decision }
        requires known { (id : ℕ) → decision ≢ Decision.New id }
        ensures answer { GivesId (registry_after self.old.registry) (subject_in (command_of command)) schema.now
            result }
        ensures known { IfOk result (λ id. (0 < id) × (id ≤ MOST_SCHEMAS)) }
        ensures ok { OnOk result (self.new.registry ≡ self.old.registry ++ command_of command ∷ []) }
        ensures err { OnErr result (self.new.registry ≡ self.old.registry) }
        ensures memory { IfErr result (λ e. e ≡ Refusal.NoMemory) }
    {
        self.registry.register_decided(decision, command, schema)
    }

    /// Sets the level of a subject, or the global one.
    ///
    /// At `Ok` it is kept. `NotStored` where it would be set, and the keeper failed, or memory ran out while the
    /// global level was kept, for which a registry needs none; else the refusal is that of a registry. A refusal
    /// changes no command.
    pub(crate) fn set_level(
        &mut self,
        subject: Option<String>,
        level: Level,
    ) -> Result<Reply, Refusal>
        ensures answer { IfOk result (λ reply. Gives (answer_to (registry_after self.old.registry)
            (SetLevelCommand (option_map string_bytes subject) level)) (Ok reply)) }
        ensures refused { IfErr result (λ e. e ≢ Refusal.NotStored
            → Gives (answer_to (registry_after self.old.registry)
            (SetLevelCommand (option_map string_bytes subject) level)) (Err e)) }
        ensures unstored { IfErr result (λ e. e ≡ Refusal.NotStored
            → IsAnswer (answer_to (registry_after self.old.registry)
            (SetLevelCommand (option_map string_bytes subject) level)) (Ok (LevelReply level))
            × (K.fails self.old.keeper self.new.keeper (KeptLevel (option_map string_bytes subject) level)
            ⊎ (option_map string_bytes subject ≡ None))) }
        ensures memory { IfErr result (λ e. e ≡ Refusal.NoMemory → Grows (registry_after self.old.registry)
            (SetLevelCommand (option_map string_bytes subject) level)) }
        ensures ok { OnOk result (self.new.registry ≡ self.old.registry
            ++ SetLevelCommand (option_map string_bytes subject) level ∷ []) }
        ensures err { OnErr result (self.new.registry ≡ self.old.registry) }
    {
        if let Some(refusal) = self.registry.refusal_to_set(&subject) {
            return Err(refusal);
        }
        self.set_free_level(subject, level)
    }

    /// Sets the level of a subject, or the global one, where nothing but memory and the keeper can be a reason to
    /// refuse it.
    fn set_free_level(&mut self, subject: Option<String>, level: Level) -> Result<Reply, Refusal>
        requires { IsAnswer (answer_to (registry_after self.old.registry)
            (SetLevelCommand (option_map string_bytes subject) level)) (Ok (LevelReply level)) }
        ensures answer { IfOk result (λ reply. Gives (answer_to (registry_after self.old.registry)
            (SetLevelCommand (option_map string_bytes subject) level)) (Ok reply)) }
        ensures refused { IfErr result (λ e. e ≢ Refusal.NotStored → e ≡ Refusal.NoMemory) }
        ensures unstored { IfErr result (λ e. e ≡ Refusal.NotStored
            → K.fails self.old.keeper self.new.keeper (KeptLevel (option_map string_bytes subject) level)
            ⊎ (option_map string_bytes subject ≡ None)) }
        ensures memory { IfErr result (λ e. e ≡ Refusal.NoMemory → Grows (registry_after self.old.registry)
            (SetLevelCommand (option_map string_bytes subject) level)) }
        ensures ok { OnOk result (self.new.registry ≡ self.old.registry
            ++ SetLevelCommand (option_map string_bytes subject) level ∷ []) }
        ensures err { OnErr result (self.new.registry ≡ self.old.registry) }
    {
        if let Err(fault) = self.keeper.keep_level(&subject, level) {
            return Err(level_refusal(fault, &subject));
        }
        match self.registry.apply(Command::SetLevel { subject, level }) {
            Ok(reply) => {
                self.keeper.leaves_what_it_has(); // law
                Ok(reply)
            }
            Err(refusal) => {
                self.keeper.take_back();
                Err(refusal)
            }
        }
    }

    /// Returns the reply to a command that only asks, of which nothing is kept.
    pub(crate) fn ask(&mut self, question: Command) -> Result<Reply, Refusal>
        requires { IsQuestion (command_of question) }
        ensures answer { Gives (answer_to (registry_after self.old.registry) (command_of question)) result }
        ensures memory { IfErr result (λ e. e ≡ Refusal.NoMemory
            → Grows (registry_after self.old.registry) (command_of question)) }
        ensures ok { OnOk result (self.new.registry ≡ self.old.registry ++ command_of question ∷ []) }
        ensures err { OnErr result (self.new.registry ≡ self.old.registry) }
    {
        self.registry.apply(question)
    }
}
