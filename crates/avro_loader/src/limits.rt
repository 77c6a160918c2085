//! The limit of images of version 1, which is this project's own.

ghost use Rattle.std.specs.Prelude.{◌≡◌};

pub use spec_machine::MOST_INSTRS_OF_ONE;

/// The law of what the limit is.
pub fn limits_are_these()
    ensures instrs { MOST_INSTRS_OF_ONE ≡ 65536 }
{}
