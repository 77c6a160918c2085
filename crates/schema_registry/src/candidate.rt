//! A schema that may become a version, with what was found of it before a lock was taken.

ghost use Rattle.std.specs.Prelude.{◌≡◌, ◌↔◌, IfOk, IfSome, IsTrue};
ghost use Rattle.std.specs.List.{filter_map, flat_map};
ghost use Rattle.spec_registry.specs.Answer.{AreSafe};
ghost use Rattle.spec_registry.specs.Answers.{pairs_with};
ghost use Rattle.spec_registry.specs.Lists.{numbered};

use crate::compatible::goes_with;
use crate::level::Level;
use crate::requirement::Requirement;
use crate::schemas::SchemaTable;
use avro_schema::Schema;
use std::alloc::{AllocError, Global};
use std::marker::Model;

/// An older schema with its id, and whether a new one goes together with it.
#[derive(Drop)]
struct Finding<'s> {
    id: u32,
    old: &'s Schema,
    goes: bool,
}

/// A schema, with what was found of it beside older ones at a level, in the order in which they are compared. Callers
/// see it as the schema.
#[derive(Drop)]
pub(crate) struct Candidate<'s> {
    schema: Schema,
    level: Level,
    found: Vec<Finding<'s>>,
}

impl<'s> Model for Candidate<'s> {
    ghost use Rattle.std.specs.Coded.{codes};
    ghost use Rattle.avro_types.specs.DatumCode.{datum_coded};
    ghost use Rattle.spec_schema.specs.Schema.{Declaration};

    ghost Value = { Declaration };

    ghost coded = { Prim.hlevel (codes, datum_coded) };

    ghost use Rattle.schema_registry.specs.Found.{AreFound};

    ghost view = { λ c. c.schema };

    ghost invariant = { λ c. AreFound c.level c.schema c.found.items };
}

impl<'s> Candidate<'s> {
    /// Returns a schema of which nothing was found yet.
    pub(crate) fn new(alloc: Global, schema: Schema) -> Candidate<'s>
        ensures { result ≡ schema }
    {
        Candidate {
            schema,
            level: Level::None,
            found: Vec::new(alloc),
        }
    }

    /// Returns the schema.
    pub(crate) fn schema(&self) -> &Schema
        ensures { result.now ≡ self.now }
    {
        &self.schema
    }

    /// Returns whether the schema goes together with an older one at a level, where that was found at a place; `None`
    /// where nothing was, or only at another level, or of a schema of another text.
    fn known(&self, place: usize, level: Level, old: &Schema) -> Option<bool>
        ensures { IfSome result (λ b. IsTrue b ↔ AreSafe (pairs_with level self.now old.now)) }
    {
        let finding = self.found.get(place)?;
        if self.level != level || finding.old.text() != old.text() {
            return None;
        }
        finding.old.same_text_has_same_nodes(old); // law
        Some(finding.goes)
    }

    /// Returns whether the schema goes together with an older one at a level, as it was found at a place, or else by
    /// comparing the two.
    pub(crate) fn goes_with(
        &self,
        alloc: Global,
        place: usize,
        level: Level,
        old: &Schema,
    ) -> Result<bool, AllocError>
        ensures { IfOk result (λ b. IsTrue b ↔ AreSafe (pairs_with level self.now old.now)) }
    {
        match self.known(place, level, old) {
            Some(goes) => Ok(goes),
            None => goes_with(alloc, level, &self.schema, old),
        }
    }

    /// Returns whether the schema goes together with each of those of some ids at a level.
    pub(crate) fn goes_with_all(
        &self,
        alloc: Global,
        level: Level,
        schemas: &SchemaTable,
        ids: &[u32],
    ) -> Result<bool, AllocError>
        ensures { IfOk result (λ b. IsTrue b
            ↔ AreSafe (flat_map (pairs_with level self.now) (filter_map (numbered schemas.now) ids.now))) }
    {
        for (place, id) in ids.iter().enumerate() {
            let Some(old) = schemas.get(*id) else {
                continue;
            };
            if !self.goes_with(alloc, place, level, old)? {
                return Ok(false);
            }
        }
        Ok(true)
    }

    /// Compares the schema with an older one at a level, and keeps what was found, after what was found at that level
    /// before. Returns whether they go together.
    pub(crate) fn compare(
        &mut self,
        alloc: Global,
        level: Level,
        id: u32,
        old: &'s Schema,
    ) -> Result<bool, AllocError>
        ensures same { self.new ≡ self.old }
        ensures goes { IfOk result (λ b. IsTrue b ↔ AreSafe (pairs_with level self.old old.now)) }
    {
        let goes = goes_with(alloc, level, &self.schema, old)?;
        if self.level != level {
            self.found.clear();
            self.level = level;
        }
        self.found.push(Finding { id, old, goes })?;
        Ok(goes)
    }

    /// Returns whether what was found is of the schemas that a requirement names first, at its level.
    fn begins(&self, required: &Requirement) -> bool {
        self.level == required.level
            && self.found.len() <= required.ids.len()
            && self
                .found
                .iter()
                .zip(required.ids.iter())
                .all(|(finding, id)| finding.id == *id)
    }

    /// Forgets what was found, where a requirement names other schemas or another level.
    pub(crate) fn follow(&mut self, required: &Requirement)
        ensures { self.new ≡ self.old }
    {
        if !self.begins(required) {
            self.found.clear();
        }
    }

    /// Returns the ids of a requirement that are left to compare: none where the schema was found not to go together
    /// with one of them.
    pub(crate) fn left<'a>(&self, required: &'a Requirement) -> &'a [u32] {
        match self.found.last() {
            Some(finding) if !finding.goes => &[],
            _ => required.ids.get(self.found.len()..).unwrap_or(&[]),
        }
    }
}
