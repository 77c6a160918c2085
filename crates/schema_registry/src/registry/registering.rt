//! Registering a schema.

ghost use Rattle.std.specs.Prelude.{◌≡◌, ◌<◌, ◌≢◌, ◌↔◌, ◌≤◌, [], ◌∷◌, ◌++◌, Ok, Err, Some, None, true, false, IfErr, IfOk, IsTrue, MatchResult, OnOk, OnErr, length, option_map, string_bytes};
ghost use Rattle.spec_schema.specs.declared.schema_error.SchemaError.{SchemaError};
ghost use Rattle.spec_avro.specs.declared.limits.TheConstants.{MOST_TEXT};
ghost use Rattle.spec_schema.specs.Schema.{Declaration};
ghost use Rattle.spec_registry.specs.declared.limits.TheConstants.{MOST_SCHEMAS};
ghost use Rattle.spec_registry.specs.Accepting.{declaration_of, id_for, registry_after};
ghost use Rattle.spec_registry.specs.Answer.{Answer, AreSafe, IsAnswer, where_declared};
ghost use Rattle.schema_registry.specs.Answer.{Gives};
ghost use Rattle.spec_registry.specs.Answers.{AreAccepted, GivesId, Grows, answer_to, is_full, pairs_of};
ghost use Rattle.spec_registry.specs.Command.{RegisterCommand};
ghost use Rattle.schema_registry.specs.Command.{command_of, subject_in};
ghost use Rattle.schema_registry.specs.Keeping.{IsDecision};
ghost use Rattle.spec_registry.specs.Lists.{level_of, versions_of, with_text};
ghost use Rattle.spec_registry.specs.Subject.{is_subject};
ghost use Rattle.schema_registry.specs.Tables.{AddsRegistration, AsksToRegister, entry_of};

use super::Registry;
use crate::candidate::Candidate;
use crate::command::Command;
use crate::decision::Decision;
use crate::history::History;
use crate::known_version::KnownVersion;
use crate::limits::MOST_SUBJECTS;
use crate::reply::Reply;
use crate::room::has_no_room;
use crate::subject::is_subject;
use avro_schema::{Schema, SchemaError};
use spec_registry::Refusal;
use std::alloc::{AllocError, Global};

/// Returns the schema that a text declares; `BadSchema` where it declares none.
pub(crate) fn parse_schema(alloc: Global, text: &str) -> Result<Schema, Refusal>
    ensures schema { MatchResult result (λ s. declaration_of text.now ≡ Ok s)
        (λ e. e ≢ Refusal.NoMemory
        → (f : SchemaError) × (e ≡ Refusal.BadSchema f) × (declaration_of text.now ≡ Err f)) }
    ensures memory { IfErr result (λ e. e ≡ Refusal.NoMemory → length text.now ≤ MOST_TEXT) }
    ensures stored { IfErr result (λ e. e ≢ Refusal.NotStored) }
{
    match Schema::parse(alloc, text) {
        Ok(schema) => Ok(schema),
        Err(SchemaError::NoMemory) => Err(Refusal::NoMemory),
        Err(error) => Err(Refusal::BadSchema(error)),
    }
}

/// Returns the schema that a text declares, which is to be a version of a subject; `BadSubject` where the subject has
/// no valid name.
pub(crate) fn schema_for(alloc: Global, subject: &str, text: &str) -> Result<Schema, Refusal>
    ensures ok { IfOk result (λ s. (is_subject subject.now ≡ true) × (declaration_of text.now ≡ Ok s)) }
    ensures err { IfErr result (λ e. e ≢ Refusal.NoMemory → (answer : Declaration → Answer)
        → IsAnswer (where_declared subject.now text.now answer) (Err e)) }
    ensures memory { IfErr result (λ e. e ≡ Refusal.NoMemory
        → (is_subject subject.now ≡ true) × (length text.now ≤ MOST_TEXT)) }
    ensures stored { IfErr result (λ e. e ≢ Refusal.NotStored) }
{
    if !is_subject(subject) {
        return Err(Refusal::BadSubject);
    }
    parse_schema(alloc, text)
}

impl Registry {
    /// Returns the version of a subject that has a schema; `None` where there is none.
    pub(super) fn version_with(&self, subject: &str, schema: &Schema) -> Option<KnownVersion>
        ensures { option_map (λ known. entry_of subject.now known.number known.id) result
            ≡ with_text schema.now.text (registry_after self.now).schemas
            (versions_of subject.now (registry_after self.now).entries) }
    {
        let id = self.schemas.id_of(schema.text())?;
        let number = self.subjects.get(subject)?.number_of(id)?;
        Some(KnownVersion { number, id })
    }

    /// Returns whether a schema goes together with those of a subject's versions that the level names, by what was
    /// found of them, or else by comparing it with them.
    fn is_compatible(&self, subject: &str, schema: &Candidate<'_>) -> Result<bool, AllocError>
        ensures { IfOk result (λ b. IsTrue b ↔ AreSafe (pairs_of (registry_after self.now)
            (level_of (Some subject.now) (registry_after self.now).levels) schema.now
            (versions_of subject.now (registry_after self.now).entries))) }
    {
        let level = self.level_of(Some(subject));
        schema.goes_with_all(
            self.alloc,
            level,
            &self.schemas,
            self.ids_compared(subject, level),
        )
    }

    /// Returns whether there is no room for a schema, or for a subject.
    fn is_full(&self, subject: &str, schema: &Schema) -> bool
        ensures { result ≡ is_full (registry_after self.now) schema.now subject.now }
    {
        self.schemas.has_no_id(schema.text()) || has_no_room(&self.subjects, subject, MOST_SUBJECTS)
    }

    /// Returns `Ok` where a schema that a subject lacks may be a version of it, or else why not: `Incompatible` or
    /// `Full`, or `NoMemory`.
    fn may_add(&self, subject: &str, schema: &Candidate<'_>) -> Result<(), Refusal>
        ensures ok { OnOk result (AreSafe (pairs_of (registry_after self.now)
            (level_of (Some subject.now) (registry_after self.now).levels) schema.now
            (versions_of subject.now (registry_after self.now).entries))
            × (is_full (registry_after self.now) schema.now subject.now ≡ false)) }
        ensures err { IfErr result (λ e. with_text schema.now.text (registry_after self.now).schemas
            (versions_of subject.now (registry_after self.now).entries) ≡ None
            → GivesId (registry_after self.now) subject.now schema.now (Err e)) }
    {
        if !self.is_compatible(subject, schema)? {
            return Err(Refusal::Incompatible);
        }
        if self.is_full(subject, schema.schema()) {
            return Err(Refusal::Full);
        }
        Ok(())
    }

    /// Adds a version that the subject lacks, and returns its id. At `Ok` the history becomes the given one.
    fn add(&mut self, subject: String, schema: Schema, history: History) -> Result<u32, Refusal>
        requires command { AddsRegistration self.old (string_bytes subject) schema history.commands }
        requires lacking { with_text schema.text (registry_after self.old).schemas
            (versions_of (string_bytes subject) (registry_after self.old).entries) ≡ None }
        requires compatible { AreSafe (pairs_of (registry_after self.old)
            (level_of (Some (string_bytes subject)) (registry_after self.old).levels) schema
            (versions_of (string_bytes subject) (registry_after self.old).entries)) }
        requires room { is_full (registry_after self.old) schema (string_bytes subject) ≡ false }
        ensures id { IfOk result (λ id. id ≡ id_for schema (registry_after self.old).schemas) }
        ensures ok { OnOk result (self.new ≡ history.commands) }
        ensures err { OnErr result (self.new ≡ self.old) }
        ensures memory { IfErr result (λ e. e ≡ Refusal.NoMemory) }
    {
        let id = self
            .schemas
            .add_version(self.alloc, &mut self.subjects, subject, schema)?;
        self.history = history;
        Ok(id)
    }

    /// Decides what becomes of a schema that is to be a version of a subject, or why it may not be one. Nothing
    /// changes.
    pub(crate) fn decide(&self, subject: &str, schema: &Candidate<'_>) -> Result<Decision, Refusal>
        ensures ok { IfOk result (IsDecision (registry_after self.now) subject.now schema.now) }
        ensures err { IfErr result (λ e. GivesId (registry_after self.now) subject.now schema.now (Err e)) }
    {
        if let Some(known) = self.version_with(subject, schema.schema()) {
            return Ok(Decision::Known(known.id));
        }
        self.may_add(subject, schema)?;
        Ok(Decision::New(self.schemas.id_to_be(schema.schema().text())))
    }

    /// Registers a schema for a subject as was decided, and returns its id. At `Ok` the history becomes the given
    /// one. Only memory can fail.
    fn register_as(
        &mut self,
        decision: Decision,
        subject: String,
        schema: &Candidate<'_>,
        history: History,
    ) -> Result<u32, Refusal>
        requires command { AddsRegistration self.old (string_bytes subject) schema.now history.commands }
        requires decided { IsDecision (registry_after self.old) (string_bytes subject) schema.now decision }
        ensures answer { GivesId (registry_after self.old) (string_bytes subject) schema.now result }
        ensures ok { OnOk result (self.new ≡ history.commands) }
        ensures err { OnErr result (self.new ≡ self.old) }
        ensures memory { IfErr result (λ e. e ≡ Refusal.NoMemory) }
    {
        match decision {
            Decision::Known(id) => {
                self.history = history;
                Ok(id)
            }
            Decision::New(_id) => {
                let copy = schema.schema().copy()?;
                self.add(subject, copy, history)
            }
        }
    }

    /// Registers a schema, which makes it a version of the subject, and returns its id. At `Ok` the history becomes
    /// the given one.
    pub(crate) fn register(
        &mut self,
        subject: String,
        schema: &Candidate<'_>,
        history: History,
    ) -> Result<u32, Refusal>
        requires { AddsRegistration self.old (string_bytes subject) schema.now history.commands }
        ensures answer { GivesId (registry_after self.old) (string_bytes subject) schema.now result }
        ensures ok { OnOk result (self.new ≡ history.commands) }
        ensures err { OnErr result (self.new ≡ self.old) }
    {
        let decision = self.decide(&subject, schema)?;
        self.register_as(decision, subject, schema, history)
    }

    /// Executes a command that registers a schema, which was parsed from its text, as was decided, and returns the
    /// id. Only memory can fail.
    pub(crate) fn register_decided(
        &mut self,
        decision: Decision,
        command: Command,
        schema: &Candidate<'_>,
    ) -> Result<u32, Refusal>
        requires asks { AsksToRegister (command_of command) (subject_in (command_of command)) schema.now }
        requires decided { IsDecision (registry_after self.old) (subject_in (command_of command)) schema.now decision }
        ensures answer { GivesId (registry_after self.old) (subject_in (command_of command)) schema.now result }
        ensures known { IfOk result (λ id. (0 < id) × (id ≤ MOST_SCHEMAS)) }
        ensures ok { OnOk result (self.new ≡ self.old ++ command_of command ∷ []) }
        ensures err { OnErr result (self.new ≡ self.old) }
        ensures memory { IfErr result (λ e. e ≡ Refusal.NoMemory) }
    {
        let history = self.history.and(&command);
        self.register_asked(decision, command, schema, history)
    }

    /// Executes a command that registers a schema, as was decided, and returns the id. At `Ok` the history becomes
    /// the given one.
    fn register_asked(
        &mut self,
        decision: Decision,
        command: Command,
        schema: &Candidate<'_>,
        history: History,
    ) -> Result<u32, Refusal>
        requires asks { AsksToRegister (command_of command) (subject_in (command_of command)) schema.now }
        requires decided { IsDecision (registry_after self.old) (subject_in (command_of command)) schema.now decision }
        requires new { history.commands ≡ self.old ++ command_of command ∷ [] }
        ensures answer { GivesId (registry_after self.old) (subject_in (command_of command)) schema.now result }
        ensures ok { OnOk result (self.new ≡ history.commands) }
        ensures err { OnErr result (self.new ≡ self.old) }
        ensures memory { IfErr result (λ e. e ≡ Refusal.NoMemory) }
    {
        match command {
            Command::Register {
                subject,
                text: _text,
            } => self.register_as(decision, subject, schema, history),
            _other => unreachable!(),
        }
    }

    /// Registers the schema of a text, and returns its id as a reply.
    pub(super) fn register_text(
        &mut self,
        subject: String,
        text: String,
        history: History,
    ) -> Result<Reply, Refusal>
        requires { history.commands ≡ self.old ++ RegisterCommand (string_bytes subject) (string_bytes text) ∷ [] }
        ensures answer { Gives (answer_to (registry_after self.old)
            (RegisterCommand (string_bytes subject) (string_bytes text))) result }
        ensures ok { OnOk result (self.new ≡ history.commands) }
        ensures err { OnErr result (self.new ≡ self.old) }
        ensures memory { IfErr result (λ e. e ≡ Refusal.NoMemory
            → Grows (registry_after self.old) (RegisterCommand (string_bytes subject) (string_bytes text))) }
    {
        let schema = Candidate::new(self.alloc, schema_for(self.alloc, &subject, &text)?);
        Ok(Reply::Id(self.register(subject, &schema, history)?))
    }
}
