//! The receipt of a schema that an id names.

/// The receipt of a schema that an id names, and what shows that the id names it.
#[derive(Drop)]
pub struct NamedSchema<R: Drop, E: Drop> {
    pub receipt: R,
    pub seen: E,
}
