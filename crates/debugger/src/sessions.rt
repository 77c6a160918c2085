//! The text that shows a session, and the listing of its program.

ghost use Rattle.std.specs.Prelude.{string_bytes, IfOk};
ghost use Rattle.spec_lines.specs.ShownSessions.{Lists, Shows};

use crate::showing::{list_program, show_machine};
use session_core::Session;
use std::alloc::{AllocError, Global};

/// Returns the text of a session's state.
pub fn show(alloc: Global, session: &Session) -> Result<String, AllocError>
    ensures { IfOk result (λ text. Shows session.now (string_bytes text)) }
{
    show_machine(alloc, session.machine(), session.no_memory())
}

/// Returns the listing of a session's program.
pub fn list(alloc: Global, session: &Session) -> Result<String, AllocError>
    ensures { IfOk result (λ text. Lists session.now (string_bytes text)) }
{
    list_program(alloc, session.program())
}
