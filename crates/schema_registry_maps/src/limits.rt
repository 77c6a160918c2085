//! The limit of ids, which is this project's own.

ghost use Rattle.std.specs.Prelude.{◌≡◌};

/// The greatest id that a version may have. A subject has each id once, so that it has at most 2,147,483,648 versions,
/// and the number of the next one has 32 bits.
pub const MOST_ID: u32 = 2_147_483_647;

/// The law of what the limit is.
pub fn limits_are_these()
    ensures id { MOST_ID ≡ 2147483647 }
{}
