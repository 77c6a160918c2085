//! The layout of the file: `++` before each line that counts, and `--` after the last one.

ghost use Rattle.std.specs.Prelude.{◌≡◌, ◌^◌};

/// Both bytes of the gate before a line that counts.
pub const OPEN: u8 = b'+';

/// Both bytes of the gate after the last line that counts.
pub const CLOSED: u8 = b'-';

/// The bytes of a gate. That there are two is why no one changed byte closes a gate.
pub const GATE: usize = 2;

/// Ends a line.
pub const NEWLINE: u8 = b'\n';

/// The most bytes that a line may have, without its newline.
pub const LONGEST: usize = 1 << 20;

/// The last offset at which a line may be added.
pub(crate) const LAST_GATE: usize = 1 << 62;

/// The law of what the bytes of the layout and its limits are.
pub fn limits_are_these()
    ensures open { OPEN ≡ 43 }
    ensures closed { CLOSED ≡ 45 }
    ensures gate { GATE ≡ 2 }
    ensures newline { NEWLINE ≡ 10 }
    ensures longest { LONGEST ≡ 1048576 }
    ensures last_gate { LAST_GATE ≡ 2 ^ 62 }
{}
