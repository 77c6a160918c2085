//! Outputs that are shown and taken out, and the messages after them.

ghost use Rattle.std.specs.Prelude.{◌≡◌, OnOk};
ghost use Rattle.machine.specs.Running.{start};

use crate::programs::{push_done, push_end, run};
use crate::rows::assert_questions;
use avro_bytes::Outcome;
use isa::End;
use machine::Machine;
use machine_plan::PlannedProgram;
use std::alloc::{AllocError, Global};
use std::test::Fail;

/// A long text, read in pieces and found ahead, is one segment, as a record is whose slots come in order; where slots
/// come in another order, a record is two segments, and an array of such records is more. A short output comes after
/// a long one, and a long one after a short one.
const ROWS: &str = "\
outputs 65540 4096|0 TEXT;1 HALT|828008{65537:61}0262|done 828008{65537:61} done 828008{65537:61};\
done 0262 done 0262;done 828008{65537:61} done 828008{65537:61};
outputs 65540 99999|0 TEXT;1 HALT|828008{65537:61}0262|done 828008{65537:61} done 828008{65537:61};\
done 0262 done 0262;done 828008{65537:61} done 828008{65537:61};
outputs 65541 4096|record|36828008{65537:61}360262|done 36828008{65537:61} done 36828008{65537:61};\
done 360262 done 360262;done 36828008{65537:61} done 36828008{65537:61};
outputs 65541 4096|swapped|36828008{65537:61}360262|done 828008{65537:61}36 done 828008{65537:61}36;\
done 026236 done 026236;done 828008{65537:61}36 done 828008{65537:61}36;
outputs 65543 4096|0 BLOCKS;1 NEXT 9;2 RECORD 2;3 SLOT 1;4 LONG;5 SLOT 0;6 TEXT;7 ENDREC;8 JUMP 1;9 HALT|\
0236828008{65537:61}000236026200|done 02828008{65537:61}3600 done 02828008{65537:61}3600;\
done 0202623600 done 0202623600;done 02828008{65537:61}3600 done 02828008{65537:61}3600;
outputs 2 4096|0 TEXT;1 HALT|0262828008{65537:61}|done 0262 done 0262;done 828008{65537:61} done 828008{65537:61};\
done 0262 done 0262;
";

/// Appends the output of a message as it is shown, and then as it is taken out.
fn push_output(
    alloc: Global,
    output: &mut String,
    machine: &mut Machine,
    program: &PlannedProgram,
    message: &[u8],
    piece: usize,
) -> Result<(), AllocError>
    requires { machine.old ≡ start }
    ensures { OnOk result (machine.new ≡ start) }
{
    run(machine, program, message, piece, 1000);
    match machine.end() {
        Some(end) => push_end(alloc, output, end)?,
        None => output.push_str("running")?,
    }
    output.push_str(" ")?;
    match machine.end_and_reset() {
        Some(End::Out(Outcome::Done(bytes))) => push_done(alloc, output, &bytes)?,
        _ => output.push_str("lost")?,
    }
    output.push_str("\n")
}

/// How many bytes of an input the first message has, and how many bytes a piece.
#[derive(Clone, Copy)]
pub(crate) struct Cuts {
    pub(crate) first: usize,
    pub(crate) piece: usize,
}

/// Appends the outputs of a message, of another one, which has the rest of the input, and of the first one again.
pub(crate) fn push_outputs(
    alloc: Global,
    output: &mut String,
    machine: &mut Machine,
    program: &PlannedProgram,
    input: &[u8],
    cuts: Cuts,
) -> Result<(), AllocError>
    requires { machine.old ≡ start }
{
    let (first, second) = input.split_at(cuts.first.min(input.len()));
    push_output(alloc, output, machine, program, first, cuts.piece)?;
    push_output(alloc, output, machine, program, second, cuts.piece)?;
    push_output(alloc, output, machine, program, first, cuts.piece)
}

#[test]
fn outputs_are_shown_and_taken_out(rt: HostRuntime) -> Result<(), Fail> {
    assert_questions(&rt, ROWS)
}
