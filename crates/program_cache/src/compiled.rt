//! What a pair of schemas was compiled to; and rows of cells, each of which is set once, by whichever thread comes
//! first.

ghost use Rattle.std.specs.Prelude.{◌*◌, ◌+◌, ◌<◌, ◌^◌, ◌≡◌, IfOk, IfSome, None, false, length, true};
ghost use Rattle.spec_schema.specs.Schema.{Declaration};
ghost use Rattle.spec_machine.specs.Code.{code_of};
ghost use Rattle.program_cache.specs.declared.compiled.TheConstants.{CELLS};

use crate::refusal::PairRefusal;
use avro_schema::Schema;
use machine::PairProgram;
use once_cell::race::OnceBox;
use program_compiler::CompileError;
use std::alloc::{AllocError, Global};

/// A pair of schemas that has no program, since it would pass a limit.
#[derive(Drop)]
pub struct LargePair {
    writer: Schema,
    reader: Schema,
    ghost none: { code_of writer.nodes reader.nodes ≡ None },
}

/// What a pair of schemas was compiled to, beside the pair.
#[derive(Drop)]
pub enum Compiled {
    /// Its program.
    Program(PairProgram),
    /// The pair has no program.
    TooLarge(LargePair),
}

impl LargePair {
    ghost use Rattle.program_cache.specs.Compiled.{IsLargePair, IsOtherPair};

    /// Returns a pair that has no program.
    fn new(writer: &Schema, reader: &Schema) -> Result<LargePair, AllocError>
        requires { code_of writer.now.nodes reader.now.nodes ≡ None }
        ensures { IfOk result (IsLargePair writer.now reader.now) }
    {
        Ok(LargePair {
            writer: writer.copy()?,
            reader: reader.copy()?,
        })
    }

    /// Returns whether it is the given pair, which has the compact texts of its own.
    fn is_of(&self, writer: &Schema, reader: &Schema) -> bool
        ensures same { result ≡ true → IsLargePair writer.now reader.now self.now }
        ensures other { result ≡ false → IsOtherPair writer.now reader.now self.now.writer self.now.reader }
    {
        if self.writer.text() != writer.text() || self.reader.text() != reader.text() {
            return false;
        }
        self.writer.same_text_has_same_nodes(writer); // law
        self.reader.same_text_has_same_nodes(reader); // law
        true
    }
}

impl Compiled {
    ghost use Rattle.program_cache.specs.Compiled.{IsCompiled, IsOther};
    ghost use Rattle.program_cache.specs.Pairs.{IsPairAnswer};

    /// Compiles a pair, and returns the result.
    pub(crate) fn new(
        alloc: Global,
        writer: &Schema,
        reader: &Schema,
    ) -> Result<Box<Compiled>, AllocError>
        ensures { IfOk result (λ compiled. IsCompiled writer.now reader.now compiled.value) }
    {
        let compiled = match PairProgram::new(alloc, writer, reader) {
            Ok(pair) => Compiled::Program(pair),
            Err(CompileError::ProgramTooLarge) => {
                Compiled::TooLarge(LargePair::new(writer, reader)?)
            }
            Err(CompileError::NoMemory) => return Err(AllocError),
        };
        Ok(Box::new(alloc, compiled)?)
    }

    /// Returns whether it is of the given pair, which has the compact texts of its own.
    pub(crate) fn is_of(&self, writer: &Schema, reader: &Schema) -> bool
        ensures same { result ≡ true → IsCompiled writer.now reader.now self.now }
        ensures other { result ≡ false → IsOther writer.now reader.now self.now }
    {
        match self {
            Compiled::Program(pair) => pair.is_of(writer, reader),
            Compiled::TooLarge(pair) => pair.is_of(writer, reader),
        }
    }

    /// Returns the program of its pair. `ProgramTooLarge` where that has none.
    pub(crate) fn program(&self) -> Result<&PairProgram, PairRefusal<'_>>
        ensures { (writer : Declaration) (reader : Declaration) → IsCompiled writer reader self.now
            → IsPairAnswer writer reader result }
    {
        match self {
            Compiled::Program(pair) => Ok(pair),
            Compiled::TooLarge(_pair) => Err(PairRefusal::ProgramTooLarge),
        }
    }

    /// Returns the program of a pair, where it is of this one. `Clash` where it is of another.
    pub(crate) fn program_of(
        &self,
        writer: &Schema,
        reader: &Schema,
    ) -> Result<&PairProgram, PairRefusal<'_>>
        ensures { IsPairAnswer writer.now reader.now result }
    {
        if !self.is_of(writer, reader) {
            return Err(PairRefusal::Clash(self));
        }
        self.program()
    }
}

/// How many cells a row has.
pub(crate) const CELLS: usize = 64;

/// A row of `CELLS` cells, and its index among the rows of its level, from 0.
#[derive(Drop)]
pub(crate) struct Cells<T> {
    number: usize,
    cells: Vec<OnceBox<T>>,
    ghost whole: { length cells.items ≡ CELLS },
    ghost numbered: { number < CELLS ^ 3 },
}

/// A cell, and its index among the cells of its level, from 0.
#[derive(Drop)]
pub(crate) struct NumberedCell<'a, T> {
    pub(crate) number: usize,
    pub(crate) cell: &'a OnceBox<T>,
}

/// Returns `count` empty cells.
fn empty_cells<T: Drop>(alloc: Global, count: usize) -> Result<Vec<OnceBox<T>>, AllocError>
    ensures { IfOk result (λ cells. length cells.items ≡ count) }
{
    let mut cells = Vec::new(alloc);
    for _ in 0..count {
        cells.push(OnceBox::new(alloc))?;
    }
    Ok(cells)
}

impl<T: Drop> Cells<T> {
    /// Returns the row at an index of its level, with nothing in its cells.
    pub(crate) fn new(alloc: Global, number: usize) -> Result<Cells<T>, AllocError>
        requires { number < CELLS ^ 3 }
        ensures { IfOk result (λ row. row.number ≡ number) }
    {
        let cells = empty_cells(alloc, CELLS)?;
        Ok(Cells { number, cells })
    }

    /// Returns a cell of the row, by its index in it.
    pub(crate) fn at(&self, index: usize) -> NumberedCell<'_, T>
        requires { index < CELLS }
        ensures { result.number ≡ self.now.number * CELLS + index }
    {
        NumberedCell {
            number: self.number * CELLS + index,
            cell: &self.cells[index],
        }
    }

    /// Returns the row that a cell shows, which has the cell's number. `None` where it shows no such row.
    pub(crate) fn shown<'a>(cell: NumberedCell<'a, Cells<T>>) -> Option<&'a Cells<T>>
        ensures { IfSome result (λ row. row.now.number ≡ cell.entry.number) }
    {
        let row = cell.cell.get()?;
        if row.number != cell.number {
            return None;
        }
        Some(row)
    }

    /// Returns the row that a cell shows, and makes it show a new one first where it shows none. `Err` where memory
    /// ran out, or the cell shows a row of another number, which nobody puts there.
    pub(crate) fn in_cell<'a>(
        alloc: Global,
        cell: NumberedCell<'a, Cells<T>>,
    ) -> Result<&'a Cells<T>, AllocError>
        requires { cell.number < CELLS ^ 3 }
        ensures { IfOk result (λ row. row.now.number ≡ cell.entry.number) }
    {
        let row = match cell.cell.get() {
            Some(row) => row,
            None => {
                let made = Box::new(alloc, Cells::new(alloc, cell.number)?)?;
                cell.cell.get_or_init(move || made)
            }
        };
        if row.number != cell.number {
            return Err(AllocError);
        }
        Ok(row)
    }
}
