//! Setting and reading levels.

ghost use Rattle.std.specs.Prelude.{◌≡◌, ◌≢◌, ◌∷◌, [], ◌++◌, Some, IfErr, IfSome, OnOk, OnErr, option_map, string_bytes};
ghost use Rattle.spec_registry.specs.Accepting.{registry_after};
ghost use Rattle.schema_registry.specs.Answer.{Gives, unless_refused};
ghost use Rattle.spec_registry.specs.Answers.{Grows, answer_to};
ghost use Rattle.spec_registry.specs.Command.{SetLevelCommand};
ghost use Rattle.spec_registry.specs.Lists.{level_of};
ghost use Rattle.spec_registry.specs.Reply.{LevelReply};

use super::Registry;
use crate::history::History;
use crate::level::Level;
use crate::limits::MOST_LEVELS;
use crate::reply::Reply;
use crate::room::has_no_room;
use crate::subject::is_subject;
use schema_registry_maps::{put, set_for};
use spec_registry::Refusal;

impl Registry {
    /// Returns the level of a subject, which is its own or else the global one; without a subject the global one.
    pub(super) fn level_of(&self, subject: Option<&str>) -> Level
        ensures { result ≡ level_of (option_map (λ s. s.now) subject.entry) (registry_after self.now).levels }
    {
        set_for(&self.levels, self.global, subject)
    }

    /// Returns why no level can be set for a subject, unless memory runs out; `None` where one can.
    pub fn level_refusal(&self, subject: &str) -> Option<Refusal>
        ensures answer { (level : Level)
            → answer_to (registry_after self.now) (SetLevelCommand (Some subject.now) level)
            ≡ unless_refused result (LevelReply level) }
        ensures memory { IfSome result (λ e. e ≢ Refusal.NoMemory) }
        ensures stored { IfSome result (λ e. e ≢ Refusal.NotStored) }
    {
        if !is_subject(subject) {
            return Some(Refusal::BadSubject);
        }
        if has_no_room(&self.levels, subject, MOST_LEVELS) {
            return Some(Refusal::Full);
        }
        None
    }

    /// Returns why no level can be set for a subject, or for all of them, unless memory runs out; `None` where one
    /// can.
    pub(crate) fn refusal_to_set(&self, subject: &Option<String>) -> Option<Refusal>
        ensures answer { (level : Level)
            → answer_to (registry_after self.now) (SetLevelCommand (option_map string_bytes subject.now) level)
            ≡ unless_refused result (LevelReply level) }
        ensures memory { IfSome result (λ e. e ≢ Refusal.NoMemory) }
        ensures stored { IfSome result (λ e. e ≢ Refusal.NotStored) }
    {
        match subject {
            Some(subject) => self.level_refusal(subject),
            None => None,
        }
    }

    /// Sets the level of a subject, or the global one. At `Ok` the history becomes the given one.
    pub(super) fn set_level(
        &mut self,
        subject: Option<String>,
        level: Level,
        history: History,
    ) -> Result<Reply, Refusal>
        requires { history.commands ≡ self.old ++ SetLevelCommand (option_map string_bytes subject) level ∷ [] }
        ensures answer { Gives (answer_to (registry_after self.old)
            (SetLevelCommand (option_map string_bytes subject) level)) result }
        ensures ok { OnOk result (self.new ≡ history.commands) }
        ensures err { OnErr result (self.new ≡ self.old) }
        ensures memory { IfErr result (λ e. e ≡ Refusal.NoMemory
            → Grows (registry_after self.old) (SetLevelCommand (option_map string_bytes subject) level)) }
    {
        let Some(subject) = subject else {
            self.global = level;
            self.history = history;
            return Ok(Reply::LevelIs(level));
        };
        if let Some(refusal) = self.level_refusal(&subject) {
            return Err(refusal);
        }
        put(&mut self.levels, subject, level)?;
        self.history = history;
        Ok(Reply::LevelIs(level))
    }
}
