//! Answering `transcode`.

ghost use Rattle.std.specs.Prelude.{◌≡◌, ◌⊎◌, string_bytes, IfErr, IfOk, Some, None};
ghost use Rattle.spec_machine.specs.Program.{Program};
ghost use Rattle.spec_machine.specs.Code.{code_of};
ghost use Rattle.spec_lines.specs.Answer.{IsAnswers};
ghost use Rattle.spec_lines.specs.Lines.{lines};

use crate::refusal::Refusal;
use avro_types::Nodes;
use command_io::{push_answer, split_line};
use machine::Transcoder;
use program_compiler::CompileError;
use std::alloc::{AllocError, Global};

/// Returns the answers to payload lines.
fn answers(
    alloc: Global,
    transcoder: &mut Transcoder,
    payloads: &[u8],
) -> Result<String, AllocError>
    ensures { IfOk result
        (λ output. IsAnswers transcoder.old.writer transcoder.old.reader (lines payloads.now) (string_bytes output)) }
{
    let mut output = String::new(alloc);
    let mut rest = payloads;
    while let Some((line, later)) = split_line(rest) {
        push_answer(alloc, transcoder, line, &mut output)?;
        output.push_str("\n")?;
        rest = later;
    }
    Ok(output)
}

/// Returns the answers to payload lines, by the program of the pair of schemas.
pub(crate) fn transcode(
    alloc: Global,
    writer: &Nodes,
    reader: &Nodes,
    payloads: &[u8],
) -> Result<String, Refusal>
    ensures ok { IfOk result (λ output. (P : Program) × (code_of writer.now reader.now ≡ Some P)
        × IsAnswers writer.now reader.now (lines payloads.now) (string_bytes output)) }
    ensures err { IfErr result (λ e. (e ≡ Refusal.NoMemory)
        ⊎ ((e ≡ Refusal.ProgramTooLarge) × (code_of writer.now reader.now ≡ None))) }
{
    match Transcoder::new(alloc, writer, reader) {
        Ok(mut transcoder) => Ok(answers(alloc, &mut transcoder, payloads)?),
        Err(CompileError::ProgramTooLarge) => Err(Refusal::ProgramTooLarge),
        Err(CompileError::NoMemory) => Err(Refusal::NoMemory),
    }
}
