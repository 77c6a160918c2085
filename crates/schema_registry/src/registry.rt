//! A registry: schemas under ids, versions of subjects, levels.

ghost use Rattle.std.specs.Prelude.{◌≡◌, ℕ, List, [], ◌∷◌, ◌++◌, length, map, OnOk, OnErr, IfErr, option_map};
ghost use Rattle.spec_registry.specs.Accepting.{registry_after};
ghost use Rattle.schema_registry.specs.Answer.{Gives};
ghost use Rattle.spec_registry.specs.Answers.{AreAccepted, Grows, answer_to};
ghost use Rattle.spec_registry.specs.Command.{IsQuestion};
ghost use Rattle.schema_registry.specs.Command.{command_of};
ghost use Rattle.spec_registry.specs.Lists.{versions_of, numbered};
ghost use Rattle.schema_registry.specs.Tables.{numbers_from};

pub(crate) mod asking;
mod levels;
pub(crate) mod registering;
mod replaying;
mod requiring;

use crate::command::Command;
use crate::history::History;
use crate::level::Level;
use crate::reply::Reply;
use crate::schemas::SchemaTable;
use avro_schema::Schema;
pub(crate) use replaying::replayed;
pub use replaying::{Progress, ReplayFault, UnreplayedLine, Unwatched};
use schema_registry_maps::Versions;
use spec_registry::Refusal;
use std::alloc::Global;
use std::collections::BTreeMap;
use std::marker::Model;

/// Schemas under ids, the versions of subjects, and levels. Callers see it as the list of the commands that it has
/// accepted.
#[derive(Drop)]
pub struct Registry {
    alloc: Global,
    schemas: SchemaTable,
    subjects: BTreeMap<String, Versions>,
    levels: BTreeMap<String, Level>,
    global: Level,
    history: History,
}

impl Model for Registry {
    ghost use Rattle.std.specs.Prelude.{List};
    ghost use Rattle.spec_registry.specs.Command.{Command};
    ghost use Rattle.spec_registry.specs.Accepting.{registry_after};
    ghost use Rattle.spec_registry.specs.Answers.{AreAccepted};
    ghost use Rattle.schema_registry.specs.Tables.{Holds};

    ghost Value = { List Command };

    ghost view = { λ r. r.history.commands };

    ghost invariant = { λ r.
        Holds r.schemas r.subjects r.levels r.global (registry_after r.history.commands)
        × AreAccepted r.history.commands };
}

impl Registry {
    /// Returns an empty registry, whose global level is `Backward`.
    pub fn new(alloc: Global) -> Registry
        ensures { result ≡ [] }
    {
        Registry {
            alloc,
            schemas: SchemaTable::new(alloc),
            subjects: BTreeMap::new(alloc),
            levels: BTreeMap::new(alloc),
            global: Level::Backward,
            history: History::new(),
        }
    }

    /// Returns the allocator of its contents.
    pub(crate) fn alloc(&self) -> Global {
        self.alloc
    }

    /// Executes a command and returns its reply, or returns why it is refused; then nothing changes.
    pub fn apply(&mut self, command: Command) -> Result<Reply, Refusal>
        ensures answer { Gives (answer_to (registry_after self.old) (command_of command)) result }
        ensures ok { OnOk result (self.new ≡ self.old ++ command_of command ∷ []) }
        ensures err { OnErr result (self.new ≡ self.old) }
        ensures memory { IfErr result (λ e. e ≡ Refusal.NoMemory
            → Grows (registry_after self.old) (command_of command)) }
    {
        let history = self.history.and(&command);
        self.apply_and_keep(command, history)
    }

    /// Executes a command and returns its reply. At `Ok` the history becomes the given one, else nothing changes.
    fn apply_and_keep(&mut self, command: Command, history: History) -> Result<Reply, Refusal>
        requires { history.commands ≡ self.old ++ command_of command ∷ [] }
        ensures answer { Gives (answer_to (registry_after self.old) (command_of command)) result }
        ensures ok { OnOk result (self.new ≡ history.commands) }
        ensures err { OnErr result (self.new ≡ self.old) }
        ensures memory { IfErr result (λ e. e ≡ Refusal.NoMemory
            → Grows (registry_after self.old) (command_of command)) }
    {
        match command {
            Command::Register { subject, text } => self.register_text(subject, text, history),
            Command::SetLevel { subject, level } => self.set_level(subject, level, history),
            question => {
                let reply = self.answer(question)?;
                self.history = history;
                Ok(reply)
            }
        }
    }

    /// Returns the reply to a command that only asks.
    fn answer(&self, question: Command) -> Result<Reply, Refusal>
        requires { IsQuestion (command_of question) }
        ensures answer { Gives (answer_to (registry_after self.now) (command_of question)) result }
        ensures memory { IfErr result (λ e. e ≡ Refusal.NoMemory
            → Grows (registry_after self.now) (command_of question)) }
    {
        match question {
            Command::Lookup { subject, text } => self.lookup(subject, &text),
            Command::Check {
                subject,
                version,
                text,
            } => self.check(&subject, version, &text),
            Command::Versions { subject } => self.versions(&subject),
            Command::Version { subject, version } => self.version(subject, version),
            Command::Subjects => self.subjects(),
            Command::Schema { id } => self.schema(id),
            Command::Level { subject } => self.level(subject),
            Command::Register { .. } | Command::SetLevel { .. } => unreachable!(),
        }
    }

    /// Returns the schema of an id; `None` where no schema has it.
    pub fn find(&self, id: u32) -> Option<&Schema>
        ensures { option_map (λ s. s.now) result ≡ numbered (registry_after self.now).schemas id }
    {
        self.schemas.get(id)
    }

    /// The law that each of its commands was accepted after those before it.
    pub fn is_accepted(&self)
        ensures { AreAccepted self.now }
    {
        let _opened = &self.global; // read for the proof
    }

    /// The law that the versions of each subject are 1, 2, 3 .. without gaps.
    pub fn versions_have_no_gaps(&self)
        ensures { (subject : List ℕ) → map (λ e. e.version) (versions_of subject (registry_after self.now).entries)
            ≡ numbers_from 1 (length (versions_of subject (registry_after self.now).entries)) }
    {
        let _opened = &self.global; // read for the proof
    }
}
