//! What stops a program, though no program of two schemas.

/// What stops a program, though no program of two schemas.
#[derive(Clone, Copy, Debug, PartialEq, Eq)]
pub enum Trap {
    /// The top frame is another than the instruction needs, or there is none.
    NoFrame,
    /// There is no current buffer to add to.
    NoBuffer,
    /// As many calls are open as may be.
    TooManyCalls,
    /// No call is open to return from.
    NoReturn,
    /// The record has no such slot.
    BadSlot,
    /// A frame or a call is open where the program halts.
    OpenAtHalt,
    /// The next instruction would come after the last one.
    OffEnd,
}
