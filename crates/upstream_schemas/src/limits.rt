//! The limits of what is held, which are this project's own.

/// The number of ids of the upstream registry whose schemas are held at most.
pub const MOST_IDS: u64 = 16_384;

/// The number of slots of the table of namings whose receipts are known: twice as many as ids are held, so that a
/// naming lies near its home.
pub(crate) const KNOWN: usize = 32_768;
