//! How much of a message was opened: its depth and its units.

/// How much of a message was read: the records, arrays and maps that are open, and the units so far, which are
/// records, array items and map pairs.
#[derive(Clone, Copy, Debug, PartialEq, Eq)]
pub struct Meter {
    pub depth: u32,
    pub units: u32,
}

impl Meter {
    /// The meter before a message.
    pub const START: Meter = Meter { depth: 0, units: 0 };
}
