//! The limits of a schema, all of which are this project's own.

ghost use Rattle.std.specs.Prelude.{◌≡◌};

pub use spec_avro::{MOST_FIELDS, MOST_FIXED, MOST_NODES, MOST_SYMBOLS, MOST_TEXT};

/// The law of what the limits are.
pub fn limits_are_these()
    ensures text { MOST_TEXT ≡ 262144 }
    ensures nodes { MOST_NODES ≡ 1024 }
    ensures fields { MOST_FIELDS ≡ 1024 }
    ensures symbols { MOST_SYMBOLS ≡ 4096 }
    ensures fixed { MOST_FIXED ≡ 1048576 }
{}
