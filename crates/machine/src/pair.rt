//! The program of a pair of schemas, beside the schemas that it is of.

ghost use Rattle.std.specs.Prelude.{◌≡◌, Some, None, IfErr, IfOk, false, true};
ghost use Rattle.spec_sessions.specs.ProgramPair.{IsProgramOf};
ghost use Rattle.spec_machine.specs.Code.{code_of};
ghost use Rattle.program_compiler.specs.declared.error.CompileError.TheVariants.{ProgramTooLarge};

use avro_schema::Schema;
use machine_plan::PlannedProgram;
use program_compiler::{CompileError, compile};
use std::alloc::Global;
use std::marker::Model;

/// A pair of schemas and its program. Callers see it as a `Pair`.
#[derive(Drop)]
pub struct PairProgram {
    writer: Schema,
    reader: Schema,
    program: PlannedProgram,
}

impl Model for PairProgram {
    ghost use Rattle.std.specs.Prelude.{◌≡◌, Some};
    ghost use Rattle.std.specs.Coded.{codes};
    ghost use Rattle.avro_types.specs.DatumCode.{datum_coded};
    ghost use Rattle.spec_sessions.specs.ProgramPair.{Pair};
    ghost use Rattle.spec_machine.specs.Code.{code_of};

    ghost Value = { Pair };

    ghost coded = { Prim.hlevel (codes, datum_coded) };

    ghost view = { λ p. record { writer = p.writer; reader = p.reader; program = p.program } };

    ghost invariant = { λ p. code_of p.writer.nodes p.reader.nodes ≡ Some p.program };
}

impl PairProgram {
    /// Compiles the program of a pair. `ProgramTooLarge` where it would pass a limit, and then the pair has none;
    /// `NoMemory` where an allocation failed.
    pub fn new(alloc: Global, writer: &Schema, reader: &Schema) -> Result<PairProgram, CompileError>
        ensures made { IfOk result (λ pair. IsProgramOf writer.now reader.now pair) }
        ensures refused { IfErr result (λ e. e ≡ ProgramTooLarge
            → code_of writer.now.nodes reader.now.nodes ≡ None) }
    {
        let program = PlannedProgram::new(alloc, compile(alloc, writer.nodes(), reader.nodes())?);
        Ok(PairProgram {
            writer: writer.copy()?,
            reader: reader.copy()?,
            program,
        })
    }

    /// Returns whether two schemas have the compact texts of its own two, so that it is the program of their pair.
    pub fn is_of(&self, writer: &Schema, reader: &Schema) -> bool
        ensures same { result ≡ true → IsProgramOf writer.now reader.now self.now }
        ensures other { result ≡ false → ¬ ((self.now.writer.text ≡ writer.now.text)
            × (self.now.reader.text ≡ reader.now.text)) }
    {
        if self.writer.text() != writer.text() || self.reader.text() != reader.text() {
            return false;
        }
        self.writer.same_text_has_same_nodes(writer); // law
        self.reader.same_text_has_same_nodes(reader); // law
        true
    }

    /// Returns the writer's schema.
    pub fn writer(&self) -> &Schema
        ensures { result.now ≡ self.now.writer }
    {
        &self.writer
    }

    /// Returns the reader's schema.
    pub fn reader(&self) -> &Schema
        ensures { result.now ≡ self.now.reader }
    {
        &self.reader
    }

    /// Returns the program, which is that of its own two schemas.
    pub fn program(&self) -> &PlannedProgram
        ensures program { result.now ≡ self.now.program }
        ensures pair { code_of self.now.writer.nodes self.now.reader.nodes ≡ Some result.now }
    {
        &self.program
    }
}
