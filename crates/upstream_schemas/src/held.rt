//! What is held for an id of the upstream registry.

use crate::upstream::Upstream;
use avro_schema::Schema;
use id_cells::IdNote;
use std::marker::{Model, PhantomData};

/// What is held for an id of the upstream registry: its schema, and the id that the schema has in this process. Callers
/// see it as a `Naming`.
#[derive(Drop)]
pub struct Held<U: Upstream> {
    pub(crate) id: u32,
    pub(crate) local: u32,
    pub(crate) schema: Schema,
    pub(crate) of: PhantomData<U>,
}

impl<U: Upstream> Model for Held<U> {
    ghost use Rattle.std.specs.Coded.{codes};
    ghost use Rattle.avro_types.specs.DatumCode.{datum_coded};
    ghost use Rattle.spec_service.specs.UpstreamNaming.{IsSchemaFor, Naming};

    ghost Value = { Naming };

    ghost coded = { Prim.hlevel (codes, datum_coded) };

    ghost view = { λ h. record { id = h.id; schema = h.schema } };

    ghost invariant = { λ h. IsSchemaFor U.heard U.kept h.id h.schema };
}

/// The note of an id of the upstream registry, and of the schema that it names for good.
pub type Named<U> = IdNote<Held<U>>;
