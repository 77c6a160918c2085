//! What is asked of a new machine, and what it answers in words.

ghost use Rattle.std.specs.Prelude.{◌≡◌};
ghost use Rattle.machine.specs.Running.{start};

use crate::ahead_tests::push_found;
use crate::arena_tests::{After, push_after, push_carry, push_steps};
use crate::output_tests::{Cuts, push_outputs};
use crate::programs::{push_words, run};
use crate::show_tests::{push_listing, push_shown, push_shown_after};
use crate::slice_tests::{TURNS, WAITING, push_messages, push_turns};
use machine::{BufferAt, Machine};
use machine_plan::PlannedProgram;
use std::alloc::{AllocError, Global};

/// Returns the number that a word is; 0 where it is none.
fn number(word: Option<&str>) -> u64 {
    word.unwrap_or("0").parse::<u64>().unwrap_or(0)
}

/// Appends what a machine answers before its first row.
///
/// The words of a question after its first one are numbers: of rows, of times, of a frame's slot; how many bytes a
/// piece has and how many rows a slice; or how many bytes the first of two messages has, and a piece.
fn push_answer(
    alloc: Global,
    output: &mut String,
    machine: &mut Machine,
    program: &PlannedProgram,
    input: &[u8],
    question: &str,
) -> Result<(), AllocError>
    requires { machine.old ≡ start }
{
    let mut words = question.split(' ');
    let asked = words.next().unwrap_or("");
    let k = number(words.next());
    let other = number(words.next());
    let buffer = match asked {
        "arena" => None,
        "out" => Some(BufferAt::Out),
        "gathered" => Some(BufferAt::Gathered { frame: 0 }),
        _ => Some(BufferAt::Slot {
            frame: 0,
            slot: other as usize,
        }),
    };
    match asked {
        "end" => {
            run(machine, program, input, k as usize, other);
            push_words(alloc, output, machine)
        }
        "turns" => push_turns(alloc, output, machine, program, input, &TURNS),
        "waiting" => push_turns(alloc, output, machine, program, input, &WAITING),
        "messages" => push_messages(output, machine, program, input),
        "shown" => push_shown_after(alloc, output, machine, program, input, k),
        "no-memory" => push_shown(alloc, output, machine, true),
        "outputs" => {
            let (first, piece) = (k as usize, other as usize);
            push_outputs(
                alloc,
                output,
                machine,
                program,
                input,
                Cuts { first, piece },
            )
        }
        "listing" => push_listing(alloc, output, program.program()),
        "ahead" => push_found(alloc, output, program, input, k),
        "steps" => push_steps(alloc, output, machine, program.program(), input, k),
        "carry" => push_carry(alloc, output, machine, program, input, k),
        _ => push_after(
            alloc,
            output,
            machine,
            program,
            input,
            After { rows: k, buffer },
        ),
    }
}

/// Appends what a new machine answers.
pub(crate) fn push_new(
    alloc: Global,
    output: &mut String,
    program: &PlannedProgram,
    input: &[u8],
    question: &str,
) -> Result<(), AllocError> {
    let mut machine = Machine::new(alloc);
    push_answer(alloc, output, &mut machine, program, input, question)
}
