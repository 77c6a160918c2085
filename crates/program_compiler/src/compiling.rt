//! Compiling a pair of schemas.

ghost use Rattle.program_compiler.specs.Compiling.{Compiles};

use crate::assembling::parts_of_statements;
use crate::{CompileError, walk};
use avro_types::Nodes;
use isa::Program;
use program_definition::program_is_in_range;
use std::alloc::Global;

/// Returns the program that reads what the writer's schema wrote and writes what the reader's makes of it.
///
/// `ProgramTooLarge` where it would pass a limit of programs; where that is the limit of instructions or of misses, no
/// instruction is made.
pub fn compile(alloc: Global, writer: &Nodes, reader: &Nodes) -> Result<Program, CompileError>
    ensures { Compiles writer.now reader.now result }
{
    program_is_in_range(writer, reader); // law
    let section_statements = match walk(alloc, writer, reader) {
        Ok(section_statements) => section_statements,
        Err(error) => return Err(error),
    };
    match parts_of_statements(alloc, writer, reader, &section_statements) {
        Ok(parts) => match Program::new(parts) {
            Ok(program) => Ok(program),
            Err(_) => Err(CompileError::ProgramTooLarge),
        },
        Err(error) => Err(error),
    }
}
