//! The limits of clients, workers and jobs, which are this project's own.

ghost use Rattle.std.specs.Prelude.{◌≡◌};

/// The greatest number of clients of a pool.
pub const MOST_CLIENTS: usize = 64;

/// The greatest number of workers.
pub const MOST_WORKERS: usize = 128;

/// The most numbers that a worker may have put and not taken back since it last found its own deque empty.
pub const MOST_KEPT: usize = 256;

/// The law of what the limits are.
pub fn limits_are_these()
    ensures clients { MOST_CLIENTS ≡ 64 }
    ensures workers { MOST_WORKERS ≡ 128 }
    ensures kept { MOST_KEPT ≡ 256 }
{}
