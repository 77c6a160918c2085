//! The limits of another registry's answer, which are this project's own.

/// The greatest number of bytes of the head of an answer, and of its chunk extensions and its trailers.
pub const MOST_HEAD: usize = 16_384;

/// The greatest number of fields of the head of an answer, and of trailers.
pub const MOST_FIELDS: usize = 64;

/// The greatest number of bytes of the content of an answer: room for a schema of the greatest length whose bytes are
/// all escaped, and for other members.
pub const MOST_CONTENT: usize = 8_388_608;

/// The greatest number of bytes of an answer in all: head, content, and as much again for the lines of chunks.
pub const MOST_ANSWER: usize = 16_842_752;

/// The greatest number of bytes of the content of an error, where it is read.
pub const MOST_ERROR: usize = 65_536;

/// The number of times that a read is tried, where a signal interrupts it each time.
pub const MOST_TRIES: u32 = 1_024;
