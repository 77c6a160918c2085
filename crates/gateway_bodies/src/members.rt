//! The members of an object that count.

ghost use Rattle.std.specs.Prelude.{◌≡◌, string_bytes};
ghost use Rattle.serde_json.specs.Data.{Data, Members as AnyMembers, no_members, object, put};
ghost use Rattle.gateway_bodies.specs.Members.{AreMembersOf, data_of, kept};

use crate::kept::Kept;

/// What is kept of the members of an object: of each key that counts its last value, and `None` where it has none.
#[derive(Debug, Drop)]
pub struct Members {
    pub schema: Option<Kept>,
    /// Of the key `schemaType`.
    pub schema_type: Option<Kept>,
    pub references: Option<Kept>,
    pub compatibility: Option<Kept>,
}

impl Members {
    /// Returns those of the empty object.
    pub(crate) fn new() -> Members
        ensures { AreMembersOf (object no_members) result }
    {
        Members {
            schema: None,
            schema_type: None,
            references: None,
            compatibility: None,
        }
    }

    /// Adds a member: its value takes the place of an earlier one of its key. A key that does not count changes
    /// nothing.
    pub(crate) fn put(&mut self, key: &str, value: Kept)
        ensures { (all : AnyMembers) (d : Data) → AreMembersOf (object all) self.old → data_of value ≡ kept d
            → AreMembersOf (object (put key.now d all)) self.new }
    {
        match key {
            "schema" => self.schema = Some(value),
            "schemaType" => self.schema_type = Some(value),
            "references" => self.references = Some(value),
            "compatibility" => self.compatibility = Some(value),
            _ => {}
        }
    }
}
