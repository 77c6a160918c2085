//! Answering `run`.

ghost use Rattle.std.specs.Prelude.{◌≡◌, ◌≤◌, ◌<◌, ◌++◌, ◌⊎◌, ℕ, List, string_bytes, true, is_some, IfErr, IfOk, OnOk, Err, Ok};
ghost use Rattle.std.specs.List.{concat};
ghost use Rattle.spec_machine.specs.Assembling.{assembled};
ghost use Rattle.spec_machine.specs.declared.listing_fault.AsmFault.{AsmFault};
ghost use Rattle.spec_machine.specs.Program.{Program as Parted};
ghost use Rattle.spec_avro.specs.declared.limits.TheConstants.{MOST_PAYLOAD};
ghost use Rattle.spec_lines.specs.Lines.{lines};
ghost use Rattle.spec_lines.specs.Answer.{AreAnswers};
ghost use Rattle.spec_lines.specs.Listed.{listed};
ghost use Rattle.spec_lines.specs.Running.{IsRunAnswer, IsRunLine, StopsIn};

use crate::listed::split_listing;
use crate::pieces::pieces_of;
use crate::refusal::Refusal;
use assembler::{AsmError, assemble};
use avro_bytes::MOST_PAYLOAD;
use command_io::{push_run, split_line};
use isa::{Lists, row_or_end_is_there};
use machine::{PlannedProgram, Run, Why};
use std::alloc::{AllocError, Global};

/// Takes rows until `steps` were taken in all, or no more are there.
fn take_rows(run: &mut Run, steps: u64) -> Result<(), AllocError>
    requires { run.old.machine.state.count ≤ steps }
    ensures most { run.new.machine.state.count ≤ steps }
    ensures ended { OnOk result (run.old.ended ≡ true → run.new.machine.state.count < steps
        → is_some run.new.machine.state.end ≡ true) }
    ensures kept { run.new ≡ record run.old { machine = run.new.machine } }
{
    let left = steps - run.machine().count();
    let slice = run.slice(&[], left);
    row_or_end_is_there(); // law
    if slice.why == Why::NoMemory {
        return Err(AllocError);
    }
    Ok(())
}

/// Runs a program on the pieces of a payload, one after another, and on their end.
fn run_on<'p>(
    alloc: Global,
    program: &'p PlannedProgram,
    steps: u64,
    pieces: &Lists<u8>,
) -> Result<Run<'p>, AllocError>
    ensures { IfOk result (λ run. StopsIn program.now (concat pieces.now) steps run.machine.state) }
{
    let mut run = Run::new(alloc, program);
    for number in 0..pieces.len() {
        run.push(pieces.list(number))?;
        take_rows(&mut run, steps)?;
    }
    run.close();
    take_rows(&mut run, steps)?;
    run.is_alone(); // law
    Ok(run)
}

/// Appends the answer to a payload, without its LF.
fn push_run_answer(
    alloc: Global,
    program: &PlannedProgram,
    steps: u64,
    pieces: &Lists<u8>,
    output: &mut String,
) -> Result<(), AllocError>
    ensures { OnOk result ((answer : List ℕ) × IsRunAnswer program.now steps answer (concat pieces.now)
        × (string_bytes output.new ≡ string_bytes output.old ++ answer)) }
{
    if pieces.total_is_within(MOST_PAYLOAD) {
        let run = run_on(alloc, program, steps, pieces)?;
        push_run(alloc, output, run.machine())
    } else {
        output.push_str("too large")
    }
}

/// Appends the answer to a line, without its LF.
fn push_line_answer(
    alloc: Global,
    program: &PlannedProgram,
    steps: u64,
    line: &[u8],
    output: &mut String,
) -> Result<(), AllocError>
    ensures { OnOk result ((answer : List ℕ) × IsRunLine program.now steps line.now answer
        × (string_bytes output.new ≡ string_bytes output.old ++ answer)) }
{
    match pieces_of(alloc, line)? {
        Some(pieces) => push_run_answer(alloc, program, steps, &pieces, output),
        None => output.push_str("bad hex"),
    }
}

/// Returns the answers to payload lines.
fn answers(
    alloc: Global,
    program: &PlannedProgram,
    steps: u64,
    payloads: &[u8],
) -> Result<String, AllocError>
    ensures { IfOk result
        (λ output. AreAnswers (IsRunLine program.now steps) (lines payloads.now) (string_bytes output)) }
{
    let mut output = String::new(alloc);
    let mut rest = payloads;
    while let Some((line, later)) = split_line(rest) {
        push_line_answer(alloc, program, steps, line, &mut output)?;
        output.push_str("\n")?;
        rest = later;
    }
    Ok(output)
}

/// Returns the answers to payload lines of the program whose listing precedes them.
pub(crate) fn run_listed(alloc: Global, input: &[u8], steps: u64) -> Result<String, Refusal>
    ensures ok { IfOk result (λ output. (P : Parted) × (assembled (listed input.now).0 ≡ Ok P)
        × AreAnswers (IsRunLine P steps) (listed input.now).1 (string_bytes output)) }
    ensures err { IfErr result (λ e. (e ≡ Refusal.NoMemory)
        ⊎ ((fault : AsmFault) × (e ≡ Refusal.BadListing fault) × (assembled (listed input.now).0 ≡ Err fault))) }
{
    let (listing, payloads) = split_listing(input);
    match assemble(alloc, listing) {
        Ok(program) => {
            let program = PlannedProgram::new(alloc, program);
            Ok(answers(alloc, &program, steps, payloads)?)
        }
        Err(AsmError::Fault(fault)) => Err(Refusal::BadListing(fault)),
        Err(AsmError::NoMemory) => Err(Refusal::NoMemory),
    }
}
