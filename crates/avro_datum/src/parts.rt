//! The parts of a record, an array or a map.

use avro_types::Datum;

/// Which parts a datum has.
#[derive(Clone, Copy)]
pub(crate) enum Parts {
    /// The fields of a record.
    Fields,
    /// The items of an array.
    Items,
    /// The pairs of a map, each a key and a datum.
    Pairs,
}

/// What the blocks of an array or a map hold: which parts, and the node of their data.
#[derive(Clone, Copy)]
pub(crate) struct Blocks {
    pub(crate) parts: Parts,
    pub(crate) inner: usize,
}

/// The parts of a datum so far.
#[derive(Drop)]
pub(crate) enum Gathered {
    Fields(Vec<Datum>),
    Items(Vec<Datum>),
    Pairs(Vec<(String, Datum)>),
}
