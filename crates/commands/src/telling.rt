//! The texts that answer a line: refusals, states, listings, ends.

ghost use Rattle.std.specs.Prelude.{◌≡◌, ◌++◌, string_bytes, OnOk};
ghost use Rattle.commands.specs.Folding.{Grows};
ghost use Rattle.spec_lines.specs.Telling.{Tells, TellsEnd, end_line, refused_line};
ghost use Rattle.spec_lines.specs.ShownSessions.{Lists, Shows};

use command_io::push_run;
use debugger::{list, show};
use session_core::Session;
use std::alloc::{AllocError, Global};
use std::fmt::Write;

/// Appends the line of a refusal.
pub(crate) fn push_refusal(output: &mut String, name: &str) -> Result<(), AllocError>
    ensures { OnOk result (string_bytes output.new ≡ string_bytes output.old ++ refused_line name.now) }
{
    write!(output, "refused {name}\n")
}

/// Appends the state of a session.
pub(crate) fn push_state(
    alloc: Global,
    output: &mut String,
    session: &Session,
) -> Result<(), AllocError>
    ensures { OnOk result (Grows (Shows session.now) (string_bytes output.old) (string_bytes output.new)) }
{
    let text = show(alloc, session)?;
    output.push_str(&text)
}

/// Appends the listing of a session's program.
pub(crate) fn push_code(
    alloc: Global,
    output: &mut String,
    session: &Session,
) -> Result<(), AllocError>
    ensures { OnOk result (Grows (Lists session.now) (string_bytes output.old) (string_bytes output.new)) }
{
    let text = list(alloc, session)?;
    output.push_str(&text)
}

/// Appends how a session ended, without the LF.
fn push_end_line(alloc: Global, output: &mut String, session: &Session) -> Result<(), AllocError>
    ensures { OnOk result (Grows (Tells end_line session.now) (string_bytes output.old) (string_bytes output.new)) }
{
    let machine = session.machine();
    if session.no_memory() {
        let count = machine.count();
        return write!(output, "no memory count {count}");
    }
    if !machine.has_ended() {
        return output.push_str("pending");
    }
    push_run(alloc, output, machine)
}

/// Appends how a session ended.
pub(crate) fn push_end(
    alloc: Global,
    output: &mut String,
    session: &Session,
) -> Result<(), AllocError>
    ensures { OnOk result (Grows (TellsEnd session.now) (string_bytes output.old) (string_bytes output.new)) }
{
    push_end_line(alloc, output, session)?;
    output.push_str("\n")
}
