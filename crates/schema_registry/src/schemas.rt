//! Schemas under their ids, found by their texts.

ghost use Rattle.std.specs.Prelude.{◌≡◌, ◌≤◌, ◌<◌, ◌+◌, ◌^◌, unwrap_or, [], ◌∷◌, ◌++◌, length, None, option_map, IfOk, OnOk, OnErr, if◌then◌else◌, string_bytes};
ghost use Rattle.std.specs.BTreeMap.{get_by_text};
ghost use Rattle.std.specs.Vec.{vec_capacity, vec_len};
ghost use Rattle.schema_registry_maps.specs.Maps.{AreSame, Puts, ids_in, number_of};
ghost use Rattle.spec_registry.specs.declared.limits.TheConstants.{MOST_SCHEMAS};
ghost use Rattle.spec_registry.specs.Accepting.{id_for, with_schema};
ghost use Rattle.spec_registry.specs.Answers.{has_no_id};
ghost use Rattle.spec_registry.specs.Lists.{id_of, numbered};

use crate::limits::MOST_SCHEMAS;
use avro_schema::Schema;
use schema_registry_maps::{Versions, add};
use std::alloc::{AllocError, Global};
use std::collections::BTreeMap;
use std::marker::Model;

/// Schemas under their ids, each of which is found by its compact text. Callers see them in the order of their ids,
/// which count from 1.
#[derive(Drop)]
pub(crate) struct SchemaTable {
    schemas: Vec<Schema>,
    ids: BTreeMap<String, u32>,
}

impl Model for SchemaTable {
    ghost use Rattle.std.specs.Prelude.{List};
    ghost use Rattle.std.specs.Coded.{codes};
    ghost use Rattle.avro_types.specs.DatumCode.{datum_coded};
    ghost use Rattle.spec_schema.specs.Schema.{Declaration};
    ghost use Rattle.schema_registry.specs.Tables.{AreIdsOf};

    ghost Value = { List Declaration };

    ghost coded = { Prim.hlevel (codes, datum_coded) };

    ghost view = { λ t. t.schemas.items };

    ghost invariant = { λ t. AreIdsOf t.ids t.schemas.items };
}

/// Appends an item, if it is new. Generic, so that a proof sees nothing of the item.
fn push_new<T: Drop>(items: &mut Vec<T>, is_new: bool, item: T)
    requires { vec_len items.old < vec_capacity items.old }
    ensures { items.new.items ≡ (if is_new then items.old.items ++ item ∷ [] else items.old.items) }
{
    if is_new {
        let _pushed = items.push(item);
    }
}

impl SchemaTable {
    pub(crate) fn new(alloc: Global) -> SchemaTable
        ensures { result ≡ [] }
    {
        SchemaTable {
            schemas: Vec::new(alloc),
            ids: BTreeMap::new(alloc),
        }
    }

    /// Returns the schema of an id; `None` where no schema has it.
    pub(crate) fn get(&self, id: u32) -> Option<&Schema>
        ensures { option_map (λ s. s.now) result ≡ numbered self.now id }
    {
        if id == 0 {
            return None;
        }
        self.schemas.get(id as usize - 1)
    }

    /// Returns the id of the schema with a compact text; `None` where no schema has it.
    pub(crate) fn id_of(&self, text: &str) -> Option<u32>
        ensures { result ≡ id_of text.now self.now }
    {
        self.ids.get(text).copied()
    }

    /// Returns the id that the schema of a compact text has, or gets when it is added.
    pub(crate) fn id_to_be(&self, text: &str) -> u32
        requires { length self.now < 2 ^ 31 }
        ensures { result ≡ unwrap_or (id_of text.now self.now) (length self.now + 1) }
    {
        match self.id_of(text) {
            Some(id) => id,
            None => self.schemas.len() as u32 + 1,
        }
    }

    /// Returns whether there is no room for the schema of a compact text.
    pub(crate) fn has_no_id(&self, text: &str) -> bool
        ensures { result ≡ has_no_id self.now text.now }
    {
        self.id_of(text).is_none() && self.schemas.len() >= MOST_SCHEMAS
    }

    /// Makes a schema the next version of a subject, under its id, which is the next one where no schema has its text.
    /// Where memory is refused, nothing changes.
    pub(crate) fn add_version(
        &mut self,
        alloc: Global,
        subjects: &mut BTreeMap<String, Versions>,
        subject: String,
        schema: Schema,
    ) -> Result<u32, AllocError>
        requires few { length self.old ≤ MOST_SCHEMAS }
        requires new { number_of (id_for schema self.old) (ids_in (get_by_text subjects.old (string_bytes subject)))
            ≡ None }
        ensures id { IfOk result (λ id. id ≡ id_for schema self.old) }
        ensures ok { OnOk result (self.new ≡ with_schema schema self.old) }
        ensures versions { OnOk result (Puts subjects.old subjects.new (string_bytes subject)
            (ids_in (get_by_text subjects.old (string_bytes subject)) ++ id_for schema self.old ∷ [])) }
        ensures err { OnErr result ((self.new ≡ self.old) × AreSame subjects.old subjects.new) }
    {
        let count = self.schemas.len();
        self.schemas.try_reserve(1)?;
        let id = add(
            alloc,
            &mut self.ids,
            subjects,
            count,
            subject,
            schema.text(),
        )?;
        push_new(&mut self.schemas, id as usize > count, schema);
        Ok(id)
    }
}
