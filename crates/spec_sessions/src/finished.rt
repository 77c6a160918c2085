//! How a session ended.

use crate::end::SessionEnd;

/// How a session ended, and after how many rows.
#[derive(Debug, Drop, PartialEq, Eq)]
pub struct Finished {
    pub end: SessionEnd,
    pub rows: u64,
}
