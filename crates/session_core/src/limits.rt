//! The limits of sessions, which are this project's own.

ghost use Rattle.std.specs.Prelude.{◌≡◌};

pub use spec_sessions::{MOST_BREAKS, MOST_ROOM};

/// The law of what the limits are.
pub fn limits_are_these()
    ensures breaks { MOST_BREAKS ≡ 64 }
    ensures room { MOST_ROOM ≡ 65536 }
{}
