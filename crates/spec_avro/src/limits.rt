//! The limits, each a number of its own. All but the widths of the numbers are this project's own rules.

/// How many records, arrays and maps may be nested in one another.
pub const MOST_DEPTH: u32 = 1_000;

/// How many records, array items and map pairs a message may have.
pub const MOST_UNITS: u32 = 1_048_576;

/// How many bytes the content of a string, of bytes or of a key may have.
pub const MOST_CONTENT: usize = 16_777_216;

/// How many bytes the encoding of a long may have: seven bits of 64 each.
pub const LONG_BYTES: usize = 10;

/// How great the last byte of a long of `LONG_BYTES` may be: the 64th bit.
pub const LONG_LAST: u8 = 1;

/// How many bytes the encoding of an int may have: seven bits of 32 each.
pub const INT_BYTES: usize = 5;

/// How great the last byte of an int of `INT_BYTES` may be: the last four bits of 32.
pub const INT_LAST: u8 = 15;

/// How many bytes a payload may have.
pub const MOST_PAYLOAD: usize = 16_777_216;

/// How many bytes an output may have.
pub const MOST_OUTPUT: usize = 67_108_864;

/// How many bytes the text of a schema may have.
pub const MOST_TEXT: usize = 262_144;

/// How many nodes a schema may have.
pub const MOST_NODES: usize = 1_024;

/// How many fields a record may have.
pub const MOST_FIELDS: usize = 1_024;

/// How many symbols an enum may have.
pub const MOST_SYMBOLS: usize = 4_096;

/// How many bytes a fixed may have.
pub const MOST_FIXED: usize = 1_048_576;
