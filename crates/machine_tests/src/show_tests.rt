//! The texts of states, each after a number of rows of a program on an input.

ghost use Rattle.std.specs.Prelude.{◌≡◌};
ghost use Rattle.machine.specs.Running.{start};

use crate::rows::{assert_questions, assert_rows};
use debugger::{list_program, show_machine};
use isa::Program;
use machine::{Machine, Why};
use machine_plan::PlannedProgram;
use std::alloc::{AllocError, Global};
use std::test::Fail;

/// A number is decoded, a text is begun, a block by its count, a block with its size, one that is skipped, an output,
/// a mismatch, bad bytes, a trap, and want of memory.
const STATES: &str = "\
shown 4|record|3606666f6f|count 4 pc 5 pos 1 units 1 part - mark - over 0 state running;out -;call 1;rec 0 36 -;
shown 6|record|3606666f6f|count 6 pc 6 pos 2 units 1 part 3 2 mark - over 0 state running;out -;call 1;rec 1 36 06;
shown 3|array|04060800|count 3 pc 3 pos 2 units 1 part - mark - over 0 state running;out -;blocks 1 0 1 - 1 06;
shown 3|array|0304060800|count 3 pc 3 pos 3 units 1 part - mark - over 0 state running;out -;blocks 1 0 2 2 1 06;
shown 3|skipped|0400|count 3 pc 3 pos 1 units 2 part - mark - over 0 state running;out -;sblocks 1 0 1 -;skip;
shown 99|record|3606666f6f|count 10 pc 1 pos 5 units 1 part - mark - over 0 state done;out 3606666f6f;
shown 99|missed||count 2 pc 1 pos 0 units 0 part - mark 0 over 0 state mismatch;out -;
shown 99|0 BOOL|02|count 1 pc 0 pos 0 units 0 part - mark - over 0 state malformed;out -;
shown 99|0 RET||count 1 pc 0 pos 0 units 0 part - mark - over 0 state trap;out -;
no-memory|0 HALT||count 0 pc 0 pos 0 units 0 part - mark - over 0 state memory;out -;
";

/// The lines of a program come back in its listing.
const LISTINGS: &str = "\
record||avro program 1;0 CALL 2;1 HALT;2 RECORD 2;3 SLOT 0;4 LONG;5 SLOT 1;6 TEXT;7 ENDREC;8 RET;
missed||avro program 1;miss 0 NoSymbol 3 4;0 MISS 0;1 HALT;
";

/// Appends the text of a machine.
pub(crate) fn push_shown(
    alloc: Global,
    output: &mut String,
    machine: &Machine,
    no_memory: bool,
) -> Result<(), AllocError> {
    let text = show_machine(alloc, machine, no_memory)?;
    output.push_str(text.as_str())
}

/// Appends the text of a machine after `limit` rows of a program on an input.
pub(crate) fn push_shown_after(
    alloc: Global,
    output: &mut String,
    machine: &mut Machine,
    program: &PlannedProgram,
    input: &[u8],
    limit: u64,
) -> Result<(), AllocError>
    requires { machine.old ≡ start }
{
    let slice = machine.slice(program, input, true, &[], limit);
    push_shown(alloc, output, machine, slice.why == Why::NoMemory)
}

#[test]
fn states_are_shown(rt: HostRuntime) -> Result<(), Fail> {
    assert_questions(&rt, STATES)
}

/// Appends the listing of a program.
pub(crate) fn push_listing(
    alloc: Global,
    output: &mut String,
    program: &Program,
) -> Result<(), AllocError> {
    let text = list_program(alloc, program)?;
    output.push_str(text.as_str())
}

#[test]
fn programs_are_listed(rt: HostRuntime) -> Result<(), Fail> {
    assert_rows(&rt, "listing", LISTINGS)
}
