//! What is done before the lock is taken: texts are parsed, and schemas compared with those that the cells show.

ghost use Rattle.std.specs.Prelude.{◌≡◌, string_bytes};
ghost use Rattle.spec_registry.specs.Command.{CheckCommand, LookupCommand};
ghost use Rattle.schema_registry.specs.Reply.{answer_of};
ghost use Rattle.spec_registry.specs.Shared.{IsSomeAnswer};

use super::SharedRegistry;
use crate::candidate::Candidate;
use crate::command::Version;
use crate::level::Level;
use crate::registry::asking::schema_beside;
use crate::registry::registering::schema_for;
use crate::reply::Reply;
use crate::requirement::Requirement;
use spec_registry::Refusal;
use std::alloc::AllocError;
use std::sync::Wait;

/// How often a schema is compared with what is required before the lock is taken. Versions that others add meanwhile
/// are compared in the next round, and after the last one under the lock.
const MOST_ROUNDS: u32 = 8;

impl SharedRegistry {
    /// Compares a schema with those of some ids at a level, as the cells show them, up to the first with which it does
    /// not go together, or whose cell shows nothing.
    fn compare_shown<'s>(
        &'s self,
        level: Level,
        ids: &[u32],
        candidate: &mut Candidate<'s>,
    ) -> Result<(), AllocError>
        ensures { candidate.new ≡ candidate.old }
    {
        for id in ids {
            let Some((old, _receipt)) = self.find(*id) else {
                return Ok(());
            };
            if !candidate.compare(self.alloc, level, *id, old)? {
                return Ok(());
            }
        }
        Ok(())
    }

    /// Compares a schema with those that a requirement names and that it was not compared with before. Returns whether
    /// any were left.
    fn compare_left<'s>(
        &'s self,
        required: &Requirement,
        candidate: &mut Candidate<'s>,
    ) -> Result<bool, AllocError>
        ensures { candidate.new ≡ candidate.old }
    {
        candidate.follow(required);
        let ids = candidate.left(required);
        self.compare_shown(required.level, ids, candidate)?;
        Ok(!ids.is_empty())
    }

    /// Returns what a schema has to go together with before it becomes a version of a subject; `None` where the
    /// subject has it.
    fn requirement<R: Wait>(
        &self,
        rt: &R,
        subject: &str,
        candidate: &Candidate<'_>,
    ) -> Result<Option<Requirement>, AllocError> {
        self.registry
            .lock(rt)
            .registry()
            .requirement(subject, candidate.schema())
    }

    /// Compares a schema, without the lock, with those that it has to go together with as a version of a subject.
    pub(super) fn compare_ahead<'s, R: Wait>(
        &'s self,
        rt: &R,
        subject: &str,
        candidate: &mut Candidate<'s>,
    ) -> Result<(), AllocError>
        ensures { candidate.new ≡ candidate.old }
    {
        for _ in 0..MOST_ROUNDS {
            let Some(required) = self.requirement(rt, subject, candidate)? else {
                return Ok(());
            };
            if !self.compare_left(&required, candidate)? {
                return Ok(());
            }
        }
        Ok(())
    }

    /// Compares a schema, without the lock, with that of a version of a subject, if there is one.
    fn compare_beside<'s, R: Wait>(
        &'s self,
        rt: &R,
        subject: &str,
        version: Version,
        candidate: &mut Candidate<'s>,
    ) -> Result<(), AllocError>
        ensures { candidate.new ≡ candidate.old }
    {
        let required = self
            .registry
            .lock(rt)
            .registry()
            .requirement_beside(subject, version)?;
        if let Some(required) = required {
            self.compare_shown(required.level, &required.ids, candidate)?;
        }
        Ok(())
    }

    /// Returns which version of a subject the schema of a text is, as a reply, or why there is none.
    pub(super) fn lookup<R: Wait>(
        &self,
        rt: &R,
        subject: String,
        text: &str,
    ) -> Result<Reply, Refusal>
        ensures { IsSomeAnswer (LookupCommand (string_bytes subject) text.now) (answer_of result) }
    {
        let schema = schema_for(self.alloc, &subject, text)?;
        let locked = self.registry.lock(rt);
        let registry = locked.registry();
        registry.is_accepted(); // law
        registry.lookup_schema(subject, &schema)
    }

    /// Returns whether the schema of a text goes with a version of a subject, as a reply, or why that cannot be
    /// found.
    pub(super) fn check<R: Wait>(
        &self,
        rt: &R,
        subject: &str,
        version: Version,
        text: &str,
    ) -> Result<Reply, Refusal>
        ensures { IsSomeAnswer (CheckCommand subject.now version text.now) (answer_of result) }
    {
        let schema = schema_beside(self.alloc, subject, version, text)?;
        let mut candidate = Candidate::new(self.alloc, schema);
        self.compare_beside(rt, subject, version, &mut candidate)?;
        let locked = self.registry.lock(rt);
        let registry = locked.registry();
        registry.is_accepted(); // law
        registry.check_schema(subject, version, &candidate)
    }
}
