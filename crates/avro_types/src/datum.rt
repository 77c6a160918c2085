//! A datum of a schema.

/// A datum of a schema.
#[derive(Debug, Drop, PartialEq, Eq)]
pub enum Datum {
    Null,
    Boolean(bool),
    Int(i32),
    Long(i64),
    Bytes(Vec<u8>),
    Text(String),
    /// As many bytes as the fixed has.
    Fixed(Vec<u8>),
    /// The position of the symbol.
    Enum(u32),
    Array(Vec<Datum>),
    /// The pairs in the order in which they came; a key may occur several times.
    Map(Vec<(String, Datum)>),
    /// The position of the branch, and its datum.
    Union(u32, Box<Datum>),
    /// The data of its fields, in the order of their declaration.
    Record(Vec<Datum>),
}
