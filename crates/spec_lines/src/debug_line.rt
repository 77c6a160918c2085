//! What a line of `debug` asks for.

/// What a line of `debug` asks for.
#[derive(Clone, Copy, Debug, PartialEq, Eq)]
pub enum DebugLine {
    /// Sets a breakpoint at an address.
    Break(u32),
    /// Clears the breakpoint at an address.
    Clear(u32),
    /// Takes at most this many rows, whatever breakpoints are set.
    Step(u64),
    /// Takes at most this many rows, of which the first alone may be at a breakpoint at which no content is begun.
    Go(u64),
    /// Asks for the state.
    Show,
    /// Asks for the listing of the program.
    List,
}
