//! The limits of programs and of what they run on, all of which are this project's own.

ghost use Rattle.std.specs.Prelude.{◌≡◌};

pub use spec_machine::{
    MOST_CALLS, MOST_CHUNK, MOST_CONSTANT_BYTES, MOST_ENTRIES, MOST_FIXED, MOST_INSTRS, MOST_NODES,
    MOST_SLOTS, MOST_SYMBOLS, MOST_TABLES,
};

/// The law of what the limits are.
pub fn limits_are_these()
    ensures instrs { MOST_INSTRS ≡ 262144 }
    ensures tables { MOST_TABLES ≡ 65536 }
    ensures entries { MOST_ENTRIES ≡ 4096 }
    ensures constants { MOST_CONSTANT_BYTES ≡ 1048576 }
    ensures fixed { MOST_FIXED ≡ 1048576 }
    ensures symbols { MOST_SYMBOLS ≡ 4096 }
    ensures slots { MOST_SLOTS ≡ 1024 }
    ensures nodes { MOST_NODES ≡ 1024 }
    ensures calls { MOST_CALLS ≡ 1024 }
    ensures chunk { MOST_CHUNK ≡ 64 }
{}
