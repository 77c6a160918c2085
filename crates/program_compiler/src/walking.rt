//! The statements of all sections, in the order in which they are called for.

ghost use Rattle.std.specs.Prelude.{◌≡◌, ◌∷◌, []};
ghost use Rattle.spec_machine.specs.Statements.{Main};
ghost use Rattle.program_ir.specs.Statements.{section_of};
ghost use Rattle.program_compiler.specs.Known.{AreKnown};
ghost use Rattle.program_compiler.specs.Walking.{Fills, Walks, start_at};

use crate::error::CompileError;
use crate::known::Known;
use crate::schema_pair::SchemaPair;
use avro_types::Nodes;
use isa::MOST_INSTRS;
use program_ir::{Section, Sections, Statement, note_calls, put_all};
use std::alloc::Global;
use std::marker::Model;

/// All sections that are called for, where each begins, and their statements. Callers see it as these.
#[derive(Drop)]
pub struct SectionStatements {
    sections: Sections,
    starts: Vec<usize>,
    statements: Vec<Statement>,
}

impl Model for SectionStatements {
    ghost use Rattle.program_compiler.specs.Walking.{SectionStatements};

    ghost Value = { SectionStatements };

    ghost view = { λ l. record { sections = l.sections; starts = l.starts.items; statements = l.statements.items } };
}

impl SectionStatements {
    /// Returns the statements of all sections, one after the other.
    pub fn statements(&self) -> &[Statement]
        ensures { result.now ≡ self.now.statements }
    {
        self.statements.as_slice()
    }

    /// Returns where a section begins, in statements from the first one; the number of all statements where it is not
    /// called for.
    pub fn start_of(&self, section: Section) -> usize
        ensures { result ≡ start_at self.now (section_of section) }
    {
        let start = match self.sections.number_of(section) {
            Some(number) => self.starts.get(number).copied(),
            None => None,
        };
        start.unwrap_or(self.statements.len())
    }
}

impl SchemaPair<'_> {
    /// Adds the sections that are called for, in the order of their first calls after the main one, with where each
    /// begins and their statements. `ProgramTooLarge` where they have more statements than a program may have
    /// instructions.
    fn add_sections(
        &self,
        known: &mut Known,
        sections: &mut Sections,
        starts: &mut Vec<usize>,
        statements: &mut Vec<Statement>,
    ) -> Result<(), CompileError>
        requires known { AreKnown self.now.writer.now self.now.reader.now known.old }
        requires sections { sections.old ≡ Main ∷ [] }
        requires starts { starts.old.items ≡ [] }
        requires statements { statements.old.items ≡ [] }
        ensures { Fills self.now.writer.now self.now.reader.now sections.new starts.new.items statements.new.items
            result }
    {
        while let Some(next) = sections.get(starts.len()) {
            if statements.len() >= MOST_INSTRS {
                return Err(CompileError::ProgramTooLarge);
            }
            starts.push(statements.len())?;
            let code = self.section(known, next)?;
            note_calls(sections, &code)?;
            put_all(statements, code)?;
        }
        Ok(())
    }
}

/// Returns the sections of a pair of schemas with their statements, in the order of their first calls.
/// `ProgramTooLarge` where they have more statements than a program may have instructions.
pub fn walk(
    alloc: Global,
    writer: &Nodes,
    reader: &Nodes,
) -> Result<SectionStatements, CompileError>
    ensures { Walks writer.now reader.now result }
{
    let pair = SchemaPair {
        alloc,
        writer,
        reader,
    };
    let mut sections = Sections::new(alloc)?;
    let mut starts = Vec::new(alloc);
    let mut statements = Vec::new(alloc);
    let mut known = Known::new(alloc);
    match pair.add_sections(&mut known, &mut sections, &mut starts, &mut statements) {
        Ok(()) => Ok(SectionStatements {
            sections,
            starts,
            statements,
        }),
        Err(error) => Err(error),
    }
}
