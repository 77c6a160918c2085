//! Why a debugger's command was refused.

use session_core::{BreakRefusal, ClearRefusal};
use thiserror::Error;

/// Why a debugger's command was refused.
#[derive(Clone, Copy, Debug, PartialEq, Eq, Error)]
pub enum DebugError {
    #[error("a worker has the session")]
    Busy,
    #[error("the address is none of the program's")]
    BadAddress,
    #[error("the session has as many other breakpoints as it may have")]
    TooManyBreaks,
    #[error("out of memory")]
    NoMemory,
}

impl DebugError {
    ghost use Rattle.std.specs.Prelude.{◌≡◌};
    ghost use Rattle.session_pool.specs.DebugErrors.{break_error, clear_error};

    /// Returns the error for a breakpoint that was not set.
    pub(crate) fn of_break(refusal: BreakRefusal) -> DebugError
        ensures { result ≡ break_error refusal }
    {
        match refusal {
            BreakRefusal::BadAddress => DebugError::BadAddress,
            BreakRefusal::TooManyBreaks => DebugError::TooManyBreaks,
            BreakRefusal::NoMemory => DebugError::NoMemory,
        }
    }

    /// Returns the error for a breakpoint that was not cleared.
    pub(crate) fn of_clear(refusal: ClearRefusal) -> DebugError
        ensures { result ≡ clear_error refusal }
    {
        match refusal {
            ClearRefusal::BadAddress => DebugError::BadAddress,
        }
    }
}
