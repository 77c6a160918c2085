//! The limits of sessions, which are this project's own.

/// The greatest number of breakpoints of a session.
pub const MOST_BREAKS: usize = 64;

/// For how many bytes a session that has ended or begins anew keeps memory that it has no use for, in each of its
/// lists of bytes; in each other list, for a 64th of that number of items.
pub const MOST_ROOM: usize = 65_536;
