//! What a schema has to go together with.

ghost use Rattle.std.specs.Prelude.{◌≡◌, ◌∷◌, [], Some, IfOk, IfSome, IsSome, MatchOption, option_map};
ghost use Rattle.spec_registry.specs.Accepting.{registry_after};
ghost use Rattle.spec_registry.specs.Lists.{level_of, version_at, versions_of, with_text};
ghost use Rattle.schema_registry.specs.Required.{IsRequirementOf, ids_compared};

use super::Registry;
use super::asking::version_at;
use crate::command::Version;
use crate::level::Level;
use crate::requirement::Requirement;
use avro_schema::Schema;
use schema_registry_maps::compared;
use std::alloc::AllocError;

impl Registry {
    /// Returns the ids of the versions of a subject that a level names, in their order.
    pub(super) fn ids_compared(&self, subject: &str, level: Level) -> &[u32]
        ensures { result.now ≡ ids_compared (registry_after self.now) subject.now level }
    {
        match self.subjects.get(subject) {
            Some(versions) => compared(level.is_transitive(), versions.ids()),
            None => &[],
        }
    }

    /// Returns what a schema has to go together with before it becomes a version of a subject; `None` where the
    /// subject has it.
    pub(crate) fn requirement(
        &self,
        subject: &str,
        schema: &Schema,
    ) -> Result<Option<Requirement>, AllocError>
        ensures { IfOk result (λ required. MatchOption required
            (IsSome (with_text schema.now.text (registry_after self.now).schemas
            (versions_of subject.now (registry_after self.now).entries)))
            (IsRequirementOf (registry_after self.now) subject.now)) }
    {
        if self.version_with(subject, schema).is_some() {
            return Ok(None);
        }
        let level = self.level_of(Some(subject));
        let ids = self.ids_compared(subject, level).to_vec(self.alloc)?;
        Ok(Some(Requirement { level, ids }))
    }

    /// Returns what a schema has to go together with beside a version of a subject; `None` where there is no such
    /// version.
    pub(crate) fn requirement_beside(
        &self,
        subject: &str,
        version: Version,
    ) -> Result<Option<Requirement>, AllocError>
        ensures ids { IfOk result (λ required. option_map (λ r. r.ids.items) required ≡ option_map (λ e. e.id ∷ [])
            (version_at version (versions_of subject.now (registry_after self.now).entries))) }
        ensures level { IfOk result (λ required. IfSome required
            (λ r. r.level ≡ level_of (Some subject.now) (registry_after self.now).levels)) }
    {
        let Some(versions) = self.subjects.get(subject) else {
            return Ok(None);
        };
        let Some(known) = version_at(versions, version) else {
            return Ok(None);
        };
        let level = self.level_of(Some(subject));
        let mut ids = Vec::new(self.alloc);
        ids.push(known.id)?;
        Ok(Some(Requirement { level, ids }))
    }
}
