//! Answering `compile`.

ghost use Rattle.std.specs.Prelude.{◌≡◌, ◌++◌, ◌⊎◌, ◌∷◌, [], string_bytes, IfOk, IfErr, Some, None};
ghost use Rattle.hex.specs.Hex.{encode_lower};
ghost use Rattle.spec_machine.specs.Image.{image_of};
ghost use Rattle.spec_machine.specs.Program.{Program};
ghost use Rattle.spec_machine.specs.Code.{code_of};
ghost use Rattle.spec_lines.specs.Output.{text_of_program};

use crate::refusal::Refusal;
use assembler::disassemble;
use avro_loader::save;
use avro_types::Nodes;
use isa::Program;
use program_compiler::CompileError;
use std::alloc::{AllocError, Global};

/// Returns the image of a program, in one line of hexadecimal.
fn image_line(alloc: Global, program: &Program) -> Result<String, AllocError>
    ensures { IfOk result (λ line. string_bytes line ≡ encode_lower (image_of program.now) ++ 10 ∷ []) }
{
    let image = save(alloc, program)?;
    let mut line = hex::encode(alloc, &image)?;
    line.push_str("\n")?;
    Ok(line)
}

/// Returns the text of a program: its image where `image` says so, else its listing.
fn text_of_program(alloc: Global, program: &Program, image: bool) -> Result<String, AllocError>
    ensures { IfOk result (λ text. string_bytes text ≡ text_of_program image program.now) }
{
    if image {
        image_line(alloc, program)
    } else {
        disassemble(alloc, program)
    }
}

/// Returns the text of the program of a pair of schemas, as `text_of_program` has it.
pub(crate) fn compile(
    alloc: Global,
    writer: &Nodes,
    reader: &Nodes,
    image: bool,
) -> Result<String, Refusal>
    ensures ok { IfOk result (λ text. (P : Program) × (code_of writer.now reader.now ≡ Some P)
        × (string_bytes text ≡ text_of_program image P)) }
    ensures err { IfErr result (λ e. (e ≡ Refusal.NoMemory)
        ⊎ ((e ≡ Refusal.ProgramTooLarge) × (code_of writer.now reader.now ≡ None))) }
{
    match program_compiler::compile(alloc, writer, reader) {
        Ok(program) => Ok(text_of_program(alloc, &program, image)?),
        Err(CompileError::ProgramTooLarge) => Err(Refusal::ProgramTooLarge),
        Err(CompileError::NoMemory) => Err(Refusal::NoMemory),
    }
}
