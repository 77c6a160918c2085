//! Slices: how many rows they take, and why no more.

ghost use Rattle.machine.specs.Running.{IsOn, IsUnder};

use crate::programs::push_words;
use crate::rows::assert_questions;
use machine::{Machine, Why};
use machine_plan::PlannedProgram;
use std::alloc::{AllocError, Global};
use std::fmt::Write;
use std::test::Fail;

/// After six rows a content is begun: the breakpoint at its instruction does not stop it. A slice waits for bytes, and
/// a machine that is reset takes its message again.
const ROWS: &str = "\
turns|record|3606666f6f|4 broke;0 broke;2 spent;4 ended;0 ended;done 3606666f6f count 10
waiting|record||3 waits;running count 3
messages|record|3606666f6f|10 ended taken;10 ended taken;10 ended taken;
";

/// What is asked of a slice.
#[derive(Clone, Copy)]
pub(crate) struct Turn {
    breaks: &'static [u32],
    rows: u64,
    /// Whether all bytes of the input are there.
    ended: bool,
}

/// Breakpoints and rows of slices one after another.
pub(crate) const TURNS: [Turn; 5] = [
    Turn {
        breaks: &[5],
        rows: 100,
        ended: true,
    },
    Turn {
        breaks: &[5],
        rows: 100,
        ended: true,
    },
    Turn {
        breaks: &[],
        rows: 2,
        ended: true,
    },
    Turn {
        breaks: &[6],
        rows: 100,
        ended: true,
    },
    Turn {
        breaks: &[],
        rows: 100,
        ended: true,
    },
];

pub(crate) const WAITING: [Turn; 1] = [Turn {
    breaks: &[],
    rows: 100,
    ended: false,
}];

fn why_name(why: Why) -> &'static str {
    match why {
        Why::Ended => "ended",
        Why::Spent => "spent",
        Why::Broke => "broke",
        Why::Waits => "waits",
        Why::NoMemory => "no memory",
    }
}

/// Appends what a slice of a machine takes.
fn push_slice(
    output: &mut String,
    machine: &mut Machine,
    program: &PlannedProgram,
    input: &[u8],
    turn: &Turn,
) -> Result<(), AllocError>
    requires under { IsUnder program.now machine.old }
    requires on { IsOn input.now machine.old }
    ensures under { IsUnder program.now machine.new }
    ensures on { IsOn input.now machine.new }
{
    let slice = machine.slice(program, input, turn.ended, turn.breaks, turn.rows);
    let why = why_name(slice.why);
    write!(output, "{} {why}", slice.rows)
}

/// Appends what slices take one after another, and then what the machine shows.
pub(crate) fn push_turns(
    alloc: Global,
    output: &mut String,
    machine: &mut Machine,
    program: &PlannedProgram,
    input: &[u8],
    turns: &[Turn],
) -> Result<(), AllocError>
    requires under { IsUnder program.now machine.old }
    requires on { IsOn input.now machine.old }
{
    'each: for turn in turns {
        push_slice(output, machine, program, input, turn)?;
        output.push_str("\n")?;
    }
    push_words(alloc, output, machine)
}

/// Appends what a machine takes of each of three messages, reset before it.
pub(crate) fn push_messages(
    output: &mut String,
    machine: &mut Machine,
    program: &PlannedProgram,
    input: &[u8],
) -> Result<(), AllocError> {
    let turn = Turn {
        breaks: &[],
        rows: 100,
        ended: true,
    };
    'messages: for _message in 0..3 {
        machine.reset();
        push_slice(output, machine, program, input, &turn)?;
        output.push_str(if machine.end_and_reset().is_some() {
            " taken\n"
        } else {
            " lost\n"
        })?;
    }
    Ok(())
}

#[test]
fn slices_say_why_they_stop(rt: HostRuntime) -> Result<(), Fail> {
    assert_questions(&rt, ROWS)
}
