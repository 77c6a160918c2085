//! Why a call of a session was refused.

pub use spec_sessions::{BreakRefusal, ClearRefusal, PieceRefusal};

/// A piece that was not taken, which is handed back, and why.
#[derive(Debug, Drop, PartialEq, Eq)]
pub struct RefusedPiece {
    pub why: PieceRefusal,
    pub piece: Vec<u8>,
}
