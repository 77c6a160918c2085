//! What happens to one session.

/// What happens to one session.
#[derive(Drop)]
pub enum Act {
    /// More bytes come.
    Piece(Vec<u8>),
    /// No more bytes come.
    Finish,
    /// Takes at most this many rows, none at a breakpoint at which no content is begun, by the worker that holds the
    /// session.
    Slice { worker: u32, rows: u64 },
    /// Makes another worker the holder of the session.
    Steal(u32),
    /// Sets a breakpoint at an address.
    Break(u32),
    /// Clears the breakpoint at an address.
    Clear(u32),
    /// Takes at most this many rows, whatever breakpoints are set.
    Walk(u64),
    /// Takes at most this many rows, of which the first alone may be at a breakpoint at which no content is begun.
    Go(u64),
    /// Refuses memory to the session.
    Refuse,
}
