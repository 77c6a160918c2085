//! The limits of a request's head and body, which are this project's own.

/// How many bytes a head may have, from the first byte to the end of the empty line that closes it.
pub const MOST_HEAD: usize = 16_384;

/// How many fields a head may have.
pub const MOST_FIELDS: usize = 64;

/// How often a read or a write is tried where a signal interrupts it each time.
pub const MOST_TRIES: u32 = 1_024;

/// How many bytes a body may have.
pub const MOST_BODY: usize = 16_777_221;
