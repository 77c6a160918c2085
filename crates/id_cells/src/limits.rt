//! How large a row and an id are.

/// How many cells a row has: one for each value of a byte.
pub(crate) const CELLS: usize = 256;

/// How many bytes an id has, and so how many rows are on the way to what is held for it.
pub(crate) const BYTES: u32 = 4;
