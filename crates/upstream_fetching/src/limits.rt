//! The limits of the queue, which are this project's own.

/// The number of ids that are asked for at once at most: those that wait for a thread and those that a thread asks for.
pub const MOST_ASKED: usize = 256;

/// The number of failures that are remembered at most. The oldest is forgotten for the next.
pub const MOST_FAILURES: usize = 256;

/// The number of milliseconds for which a failure is remembered.
pub const FAILURE_TIME: u64 = 1_000;
