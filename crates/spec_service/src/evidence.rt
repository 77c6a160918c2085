//! The receipts that an answer rests on.

/// The receipts that an answer rests on. Whoever holds one can ask the registry for its schema, which does not
/// change.
#[derive(Drop)]
pub enum Evidence<R: Drop> {
    /// The answer shows no schema and no id.
    Nothing,
    /// The receipt of the schema or of the id that the answer shows.
    Shown(R),
    /// The receipts of the pair that a message was rewritten for.
    Pair { writer: R, reader: R },
}
