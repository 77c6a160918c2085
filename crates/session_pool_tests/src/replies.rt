//! What a debugger is answered, as text.

ghost use Rattle.session_pool.specs.Seats.{IsPassOf, Rests};

use session_pool::{ClientSeat, DebugCommand, DebugError, DebugReply, Pass, SessionPool};
use std::alloc::{AllocError, Global};
use std::fmt::Write;

/// Appends the lines of a reply.
fn push_reply(output: &mut String, reply: &DebugReply) -> Result<(), AllocError> {
    match reply {
        DebugReply::Done => output.push_str("done\n"),
        DebugReply::Rows(rows) => write!(output, "rows {rows}\n"),
        DebugReply::Text(text) => output.push_str(text.as_str()),
    }
}

/// Appends the lines of an answer. Where memory ran out it is an error.
fn push_answer(
    output: &mut String,
    answer: Result<DebugReply, DebugError>,
) -> Result<(), DebugError> {
    let pushed = match answer {
        Ok(reply) => push_reply(output, &reply),
        Err(DebugError::NoMemory) => return Err(DebugError::NoMemory),
        Err(error) => write!(output, "refused {error:?}\n"),
    };
    match pushed {
        Ok(()) => Ok(()),
        Err(_) => Err(DebugError::NoMemory),
    }
}

/// Returns what a debugger is answered to some commands, one after another.
pub(crate) fn answers<'p>(
    alloc: Global,
    pool: &SessionPool<'p>,
    seat: &mut ClientSeat<'p>,
    pass: &Pass,
    commands: &[DebugCommand],
) -> Result<String, DebugError>
    requires seat { Rests pool.now seat.old }
    requires pass { IsPassOf seat.old pass.now }
    ensures seat { Rests pool.now seat.new }
    ensures pass { IsPassOf seat.new pass.now }
{
    let mut output = String::new(alloc);
    for command in commands {
        push_answer(&mut output, pool.debug(seat, pass, *command))?;
    }
    Ok(output)
}
