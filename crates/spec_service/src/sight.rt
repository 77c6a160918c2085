//! The schemas that an answer rests on, where another registry names them.

ghost use Rattle.std.specs.Prelude.{Option};

use crate::named_schema::NamedSchema;

/// The schemas that an answer rests on: the one of the reader, or of the id that is asked for, and the writer's.
#[derive(Drop)]
pub struct Sight<R: Drop, E: Drop> {
    pub reader: Option<NamedSchema<R, E>>,
    pub writer: Option<NamedSchema<R, E>>,
}
