//! Answering the lines of `debug`.

ghost use Rattle.std.specs.Prelude.{◌≡◌, ◌≢◌, ℕ, List, drop, string_bytes, Err, Ok, IfErr, IfOk, OnOk};
ghost use Rattle.spec_lines.specs.Lines.{line_at, lines};
ghost use Rattle.spec_machine.specs.Program.{Program as Parted};
ghost use Rattle.spec_lines.specs.Debugging.{AnswersCommand, IsDebugged, Obeys, debugged, given, within_limit};
ghost use Rattle.commands.specs.Folding.{Grows};

use crate::refusal::Refusal;
use crate::telling::{push_code, push_refusal, push_state};
use avro_types::Nodes;
use command_io::{DebugLine, payload_of, read_debug_line, split_line, split_line_or_empty};
use machine::PlannedProgram;
use program_compiler::{CompileError, compile};
use session_core::{PieceRefusal, Session};
use std::alloc::{AllocError, Global};

/// Sets a breakpoint, and appends why it was not set, where it was refused.
fn push_set(session: &mut Session, address: u32, output: &mut String) -> Result<(), AllocError>
    ensures { OnOk result (Grows (λ answer. Obeys (DebugLine.Break address) answer session.old session.new)
        (string_bytes output.old) (string_bytes output.new)) }
{
    match session.set_break(address) {
        Ok(()) => Ok(()),
        Err(refusal) => push_refusal(output, refusal.name()),
    }
}

/// Clears a breakpoint, and appends why it was not cleared, where it was refused.
fn push_cleared(session: &mut Session, address: u32, output: &mut String) -> Result<(), AllocError>
    ensures { OnOk result (Grows (λ answer. Obeys (DebugLine.Clear address) answer session.old session.new)
        (string_bytes output.old) (string_bytes output.new)) }
{
    match session.clear_break(address) {
        Ok(()) => Ok(()),
        Err(refusal) => push_refusal(output, refusal.name()),
    }
}

/// Executes what a line asks for, and appends the answer to it.
fn obey(
    alloc: Global,
    session: &mut Session,
    line: DebugLine,
    output: &mut String,
) -> Result<(), AllocError>
    ensures { OnOk result (Grows (λ answer. Obeys line answer session.old session.new)
        (string_bytes output.old) (string_bytes output.new)) }
{
    match line {
        DebugLine::Break(address) => push_set(session, address, output),
        DebugLine::Clear(address) => push_cleared(session, address, output),
        DebugLine::Step(rows) => {
            session.step(rows);
            Ok(())
        }
        DebugLine::Go(rows) => {
            session.go(rows);
            Ok(())
        }
        DebugLine::Show => push_state(alloc, output, session),
        DebugLine::List => push_code(alloc, output, session),
    }
}

/// Appends what is answered to a line.
fn push_answer(
    alloc: Global,
    session: &mut Session,
    line: &[u8],
    output: &mut String,
) -> Result<(), AllocError>
    ensures { OnOk result (Grows (λ answer. AnswersCommand line.now answer session.old session.new)
        (string_bytes output.old) (string_bytes output.new)) }
{
    match read_debug_line(line) {
        Some(said) => obey(alloc, session, said, output),
        None => output.push_str("bad line\n"),
    }
}

/// Returns a session that has its whole payload.
fn given<'p>(
    alloc: Global,
    program: &'p PlannedProgram,
    payload: &[u8],
) -> Result<Session<'p>, Refusal>
    ensures ok { IfOk result (λ session. (session ≡ given program.now payload.now)
        × (within_limit program.now payload.now ≡ Ok (program.now, payload.now))) }
    ensures err { IfErr result (λ e. e ≢ Refusal.NoMemory → within_limit program.now payload.now ≡ Err e) }
{
    let mut session = Session::begin(alloc, program);
    match session.piece(payload) {
        Ok(()) => {}
        Err(PieceRefusal::TooLarge) => return Err(Refusal::TooLarge),
        Err(PieceRefusal::NoMemory) => return Err(Refusal::NoMemory),
        Err(PieceRefusal::Ended) => unreachable!(),
    }
    session.finish();
    Ok(session)
}

/// Returns the answers to commands, on a program and its payload.
fn answers(
    alloc: Global,
    program: &PlannedProgram,
    payload: &[u8],
    commands: &[u8],
) -> Result<String, Refusal>
    ensures ok { IfOk result (λ output. IsDebugged program.now payload.now (lines commands.now) (string_bytes output)
        × (within_limit program.now payload.now ≡ Ok (program.now, payload.now))) }
    ensures err { IfErr result (λ e. e ≢ Refusal.NoMemory → within_limit program.now payload.now ≡ Err e) }
{
    let mut session = given(alloc, program, payload)?;
    let mut output = String::new(alloc);
    let mut rest = commands;
    while let Some((line, later)) = split_line(rest) {
        push_answer(alloc, &mut session, line, &mut output)?;
        rest = later;
    }
    Ok(output)
}

/// Returns the answers to the commands of a debugger, a line each, which follow the line of a payload. The payload is
/// there whole before the first command.
pub fn debug(alloc: Global, writer: &Nodes, reader: &Nodes, input: &[u8]) -> Result<String, Refusal>
    ensures ok { IfOk result (λ output. (P : Parted) × (payload : List ℕ)
        × (debugged writer.now reader.now (line_at (lines input.now) 0) ≡ Ok (P, payload))
        × IsDebugged P payload (drop 1 (lines input.now)) (string_bytes output)) }
    ensures err { IfErr result (λ e. e ≢ Refusal.NoMemory →
        debugged writer.now reader.now (line_at (lines input.now) 0) ≡ Err e) }
{
    let (line, commands) = split_line_or_empty(input);
    let program = match compile(alloc, writer, reader) {
        Ok(program) => PlannedProgram::new(alloc, program),
        Err(CompileError::ProgramTooLarge) => return Err(Refusal::ProgramTooLarge),
        Err(CompileError::NoMemory) => return Err(Refusal::NoMemory),
    };
    match payload_of(alloc, line)? {
        Some(payload) => answers(alloc, &program, &payload, commands),
        None => Err(Refusal::BadHex),
    }
}
