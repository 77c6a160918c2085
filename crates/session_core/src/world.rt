//! Sessions beside a registry, on one thread.

ghost use Rattle.std.specs.Prelude.{◌≡◌, ◌≢◌, ℕ, IfOk, IfSome, IsSome, OnErr, option_map, slice_get, string_bytes};
ghost use Rattle.spec_registry.specs.Accepting.{registry_after};
ghost use Rattle.schema_registry.specs.Answer.{unless_refused};
ghost use Rattle.spec_registry.specs.Answers.{answer_to};
ghost use Rattle.spec_registry.specs.Command.{RegisterCommand, SetLevelCommand};
ghost use Rattle.schema_registry.specs.Command.{command_of};
ghost use Rattle.spec_registry.specs.Reply.{LevelReply};
ghost use Rattle.session_core.specs.Ending.{SessionEndsWithOutcome};
ghost use Rattle.spec_sessions.specs.Event.{Begin, On, Publish, Register, SetLevel};
ghost use Rattle.session_core.specs.Event.{act_of, event_of};
ghost use Rattle.session_core.specs.Happening.{Adds, level_reply};
ghost use Rattle.spec_sessions.specs.Happening.{Happens};
ghost use Rattle.session_core.specs.World.{IsCodeOf};
ghost use Rattle.spec_sessions.specs.World.{no_world, program_at};

use crate::Session;
use crate::act::Act;
use crate::event::Event;
use crate::held::Held;
use crate::programs::Programs;
use crate::published::Published;
use avro_schema::SchemaError;
use avro_types::MOST_TEXT;
use machine::PlannedProgram;
use schema_registry::{Command, Level, Refusal, Registry, Reply, is_subject};
use spec_sessions::{EventRefusal, EventReply, PublishError};
use std::alloc::{AllocError, Global};
use std::marker::Model;

/// Sessions beside a registry, on one thread.
#[derive(Drop)]
pub struct World<'p> {
    alloc: Global,
    registry: Registry,
    published: Vec<Published<'p>>,
    sessions: Vec<Held<'p>>,
}

impl<'p> Model for World<'p> {
    ghost use Rattle.session_core.specs.Kept.{IsKept};
    ghost use Rattle.spec_sessions.specs.World.{World};

    ghost Value = { World };

    ghost view = { λ w. record { commands = w.registry; published = w.published.items; sessions = w.sessions.items } };

    ghost invariant = { λ w.
        IsKept (record { commands = w.registry; published = w.published.items; sessions = w.sessions.items }) };
}

/// Returns the command that registers the schema of a text.
fn registration(subject: &String, text: &String) -> Result<Command, AllocError>
    ensures { IfOk result (λ c. command_of c ≡ RegisterCommand (string_bytes subject.now) (string_bytes text.now)) }
{
    Ok(Command::Register {
        subject: subject.clone()?,
        text: text.clone()?,
    })
}

/// Returns the command that sets a level.
fn level_command(subject: &Option<String>, level: Level) -> Result<Command, AllocError>
    ensures command { IfOk result (λ c. command_of c ≡ SetLevelCommand (option_map string_bytes subject.now) level) }
    ensures memory { OnErr result (IsSome (option_map string_bytes subject.now)) }
{
    let subject = match subject {
        Some(subject) => Some(subject.clone()?),
        None => None,
    };
    Ok(Command::SetLevel { subject, level })
}

/// Returns the reply to a level that was to be set, by the registry's answer.
fn level_reply(answer: Result<Reply, Refusal>) -> EventReply
    ensures { result ≡ level_reply answer }
{
    match answer {
        Ok(_) => EventReply::Done,
        Err(refusal) => EventReply::Refused(EventRefusal::OfRegistry(refusal)),
    }
}

impl<'p> World<'p> {
    /// Returns a world before any event. It takes no memory.
    pub fn new(alloc: Global) -> World<'p>
        ensures { result ≡ no_world }
    {
        World {
            alloc,
            registry: Registry::new(alloc),
            published: Vec::new(alloc),
            sessions: Vec::new(alloc),
        }
    }

    /// The law that the program of a session is that of its pair, and that where its machine has ended, it is with the
    /// outcome of its own bytes.
    pub fn ends_with_the_outcome(&self, session: usize)
        ensures { SessionEndsWithOutcome self.now session }
    {
        let Some(held) = self.sessions.get(session) else {
            return;
        };
        let (Some(w), Some(r)) = (
            self.registry.find(held.writer),
            self.registry.find(held.reader),
        ) else {
            return;
        };
        held.session.ends_with_the_outcome(w.nodes(), r.nodes()); // law
    }

    /// The law that this holds of each session.
    pub(crate) fn sessions_end_with_their_outcomes(&self)
        ensures { (session : ℕ) → SessionEndsWithOutcome self.now session }
    {
        for session in 0..self.sessions.len() {
            self.ends_with_the_outcome(session); // law
        }
    }

    /// Returns a session by its index; `None` where there is none.
    pub fn session(&self, session: usize) -> Option<&Session<'p>>
        ensures { option_map (λ s. s.now) result
            ≡ option_map (λ held. held.session) (slice_get self.now.sessions session) }
    {
        let held = self.sessions.get(session)?;
        Some(&held.session)
    }

    /// Registers a schema, and returns the reply.
    fn register(&mut self, subject: &String, text: &String) -> EventReply
        ensures { Happens (Register (string_bytes subject.now) (string_bytes text.now)) result self.old self.new }
    {
        if !is_subject(subject) {
            return EventReply::Refused(EventRefusal::OfRegistry(Refusal::BadSubject));
        }
        if text.len() > MOST_TEXT {
            let refusal = Refusal::BadSchema(SchemaError::TooLarge);
            return EventReply::Refused(EventRefusal::OfRegistry(refusal));
        }
        let Ok(command) = registration(subject, text) else {
            return EventReply::Refused(EventRefusal::OfRegistry(Refusal::NoMemory));
        };
        match self.registry.apply(command) {
            Ok(Reply::Id(id)) => EventReply::Id(id),
            Ok(_) => unreachable!(),
            Err(refusal) => EventReply::Refused(EventRefusal::OfRegistry(refusal)),
        }
    }

    /// Returns why no level can be set for a subject, unless memory runs out; `None` where one can. The global one
    /// can always be set.
    fn level_refusal(&self, subject: &Option<String>) -> Option<Refusal>
        ensures answer { (level : Level) → answer_to (registry_after self.now.commands)
            (SetLevelCommand (option_map string_bytes subject.now) level) ≡ unless_refused result (LevelReply level) }
        ensures memory { IfSome result (λ e. e ≢ Refusal.NoMemory) }
    {
        self.registry.level_refusal(subject.as_deref()?)
    }

    /// Sets a level, and returns the reply.
    fn set_level(&mut self, subject: &Option<String>, level: Level) -> EventReply
        ensures { Happens (SetLevel (option_map string_bytes subject.now) level) result self.old self.new }
    {
        if let Some(refusal) = self.level_refusal(subject) {
            return EventReply::Refused(EventRefusal::OfRegistry(refusal));
        }
        let Ok(command) = level_command(subject, level) else {
            return EventReply::Refused(EventRefusal::OfRegistry(Refusal::NoMemory));
        };
        level_reply(self.registry.apply(command))
    }

    /// Returns the program of a published pair, by the ids of its schemas; `None` where the pair is not published.
    fn program_at(&self, writer: u32, reader: u32) -> Option<&'p PlannedProgram>
        ensures { option_map (λ p. p.now) result ≡ program_at writer reader self.now }
    {
        let published = self
            .published
            .iter()
            .find(|p| p.writer == writer && p.reader == reader)?;
        Some(published.program)
    }

    /// Publishes a pair, by the ids of its schemas, and returns the reply.
    fn publish<P: Programs>(&mut self, programs: &'p P, writer: u32, reader: u32) -> EventReply
        ensures { Happens (Publish writer reader) result self.old self.new }
    {
        let (Some(w), Some(r)) = (self.registry.find(writer), self.registry.find(reader)) else {
            return EventReply::Refused(EventRefusal::NoSchema);
        };
        if self.program_at(writer, reader).is_some() {
            return EventReply::Done;
        }
        match programs.publish(w, r) {
            Ok(program) => self.add_publication(writer, reader, program),
            Err(error) => EventReply::Refused(EventRefusal::OfPublication(error)),
        }
    }

    /// Begins a session of a published pair, by the ids of its schemas, and returns the reply. Worker 0 holds it.
    fn begin(&mut self, writer: u32, reader: u32) -> EventReply
        ensures { Happens (Begin writer reader) result self.old self.new }
    {
        let Some(program) = self.program_at(writer, reader) else {
            return EventReply::Refused(EventRefusal::NotPublished);
        };
        let held = Held {
            holder: 0,
            writer,
            reader,
            session: Session::begin(self.alloc, program),
        };
        match self.sessions.push(held) {
            Ok(()) => EventReply::SessionIs(self.sessions.len() - 1),
            Err(_) => EventReply::Refused(EventRefusal::NoMemory),
        }
    }

    /// Applies an act to the session at an index, and returns the reply; `NoSession` where there is none.
    fn act(&mut self, session: usize, act: &Act) -> EventReply
        ensures { Happens (On session (act_of act.now)) result self.old self.new }
    {
        if session >= self.sessions.len() {
            return EventReply::Refused(EventRefusal::NoSession);
        }
        self.sessions[session].act(act)
    }

    /// Adds a pair and its program, and returns the reply.
    fn add_publication(
        &mut self,
        writer: u32,
        reader: u32,
        program: &'p PlannedProgram,
    ) -> EventReply
        requires { IsCodeOf self.old.commands writer reader program.now }
        ensures { Adds writer reader program.now result self.old self.new }
    {
        let published = Published {
            writer,
            reader,
            program,
        };
        match self.published.push(published) {
            Ok(()) => EventReply::Done,
            Err(_) => EventReply::Refused(EventRefusal::OfPublication(PublishError::NoMemory)),
        }
    }

    /// Applies an event to the world, and returns the reply.
    pub fn event<P: Programs>(&mut self, programs: &'p P, event: &Event) -> EventReply
        ensures { Happens (event_of event.now) result self.old self.new }
    {
        match event {
            Event::Register { subject, text } => self.register(subject, text),
            Event::Level { subject, level } => self.set_level(subject, *level),
            Event::Publish { writer, reader } => self.publish(programs, *writer, *reader),
            Event::Begin { writer, reader } => self.begin(*writer, *reader),
            Event::On { session, act } => self.act(*session, act),
        }
    }
}
