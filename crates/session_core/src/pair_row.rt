//! A store of programs in a row of cells.

ghost use Rattle.std.specs.Prelude.{◌≡◌, None, IfErr, IfOk};
ghost use Rattle.spec_machine.specs.Code.{code_of};
ghost use Rattle.spec_sessions.specs.declared.publish_error.PublishError.TheVariants.{ProgramTooLarge};
ghost use Rattle.session_core.specs.Publishing.{IsPublished};

use crate::programs::Programs;
use avro_schema::Schema;
use machine::{PairProgram, PlannedProgram};
use once_cell::race::OnceBox;
use program_compiler::CompileError;
use spec_sessions::PublishError;
use std::alloc::{AllocError, Global};
use std::marker::Model;

/// A row of cells, each of which can take the program of a pair of schemas. Callers see it as the number of its
/// cells. A cell that a pair has taken is that pair's for good.
#[derive(Drop)]
pub struct PairRow {
    alloc: Global,
    cells: Vec<OnceBox<PairProgram>>,
}

impl Model for PairRow {
    ghost use Rattle.std.specs.Prelude.{ℕ, length};

    ghost Value = { ℕ };

    ghost view = { λ row. length row.cells.items };
}

impl PairRow {
    /// Returns a row of `pairs` cells, which are empty.
    pub fn new(alloc: Global, pairs: usize) -> Result<PairRow, AllocError>
        ensures { IfOk result (λ row. row ≡ pairs) }
    {
        let mut cells = Vec::new(alloc);
        for _ in 0..pairs {
            cells.push(OnceBox::new(alloc))?;
        }
        Ok(PairRow { alloc, cells })
    }
}

impl Programs for PairRow {
    fn publish(&self, writer: &Schema, reader: &Schema) -> Result<&PlannedProgram, PublishError>
        ensures { IsPublished writer.now.nodes reader.now.nodes result }
    {
        for cell in &self.cells {
            let pair = pair_in(self.alloc, cell, writer, reader)?;
            if pair.is_of(writer, reader) {
                return Ok(pair.program());
            }
        }
        Err(PublishError::Clash)
    }
}

/// Returns the pair with its program that a cell has. Where it has none, it takes this pair's first.
fn pair_in<'c>(
    alloc: Global,
    cell: &'c OnceBox<PairProgram>,
    writer: &Schema,
    reader: &Schema,
) -> Result<&'c PairProgram, PublishError>
    ensures { IfErr result (λ e. e ≡ ProgramTooLarge → code_of writer.now.nodes reader.now.nodes ≡ None) }
{
    if let Some(pair) = cell.get() {
        return Ok(pair);
    }
    let made = Box::new(alloc, made_for(alloc, writer, reader)?)?;
    Ok(cell.get_or_init(move || made))
}

/// Returns a pair with its program.
fn made_for(alloc: Global, writer: &Schema, reader: &Schema) -> Result<PairProgram, PublishError>
    ensures { IfErr result (λ e. e ≡ ProgramTooLarge → code_of writer.now.nodes reader.now.nodes ≡ None) }
{
    match PairProgram::new(alloc, writer, reader) {
        Ok(pair) => Ok(pair),
        Err(CompileError::ProgramTooLarge) => Err(PublishError::ProgramTooLarge),
        Err(CompileError::NoMemory) => Err(PublishError::NoMemory),
    }
}
