//! A row of cells, each of which is set once, by the thread that is first.

ghost use Rattle.std.specs.Prelude.{◌≡◌, ◌<◌, Some, IfOk, IfSome, IsSome, length, slice_get};
ghost use Rattle.once_cell.specs.Once.{cell_name};
ghost use Rattle.id_cells.specs.declared.held_value.HeldValue.TheVariants.{Given};
ghost use Rattle.id_cells.specs.declared.limits.TheConstants.{CELLS};

use crate::held_value::HeldValue;
use crate::limits::CELLS;
use once_cell::race::{Note, OnceBox};
use std::alloc::{AllocError, Global};
use std::marker::Model;

/// A row of `CELLS` cells. Callers see it as the list of the names of its cells.
#[derive(Drop)]
pub(crate) struct Row<T> {
    cells: Vec<OnceBox<T>>,
}

impl<T> Model for Row<T> {
    ghost use Rattle.std.specs.Prelude.{◌≡◌, ℕ, List, length, map};
    ghost use Rattle.once_cell.specs.Once.{cell_name};
    ghost use Rattle.id_cells.specs.declared.limits.TheConstants.{CELLS};

    ghost Value = { List ℕ };

    ghost view = { λ r. map cell_name r.cells.items };

    ghost invariant = { λ r. length r.cells.items ≡ CELLS };
}

/// Returns a number of cells that show nothing. The error is want of memory.
fn empty_cells<T: Drop>(alloc: Global, count: usize) -> Result<Vec<OnceBox<T>>, AllocError>
    ensures { IfOk result (λ cells. length cells.items ≡ count) }
{
    let mut cells = Vec::new(alloc);
    for _ in 0..count {
        cells.push(OnceBox::new(alloc))?;
    }
    Ok(cells)
}

impl<T: Drop> Row<T> {
    /// Returns a row of cells that show nothing. The error is want of memory.
    pub(crate) fn new(alloc: Global) -> Result<Row<T>, AllocError> {
        let cells = empty_cells(alloc, CELLS)?;
        Ok(Row { cells })
    }

    /// Returns a cell of the row.
    fn at(&self, index: usize) -> &OnceBox<T>
        requires { index < CELLS }
        ensures { slice_get self.now index ≡ Some (cell_name result.now) }
    {
        &self.cells[index]
    }

    /// Returns what a cell of the row shows, and the cell's note. None where this thread sees nothing in it.
    pub(crate) fn find(&self, index: usize) -> Option<(&T, Note<T>)>
        requires { index < CELLS }
        ensures cell { IfSome result (λ r. slice_get self.now index ≡ Some r.1.cell) }
        ensures shown { IfSome result (λ r. r.1.known ≡ Some r.0.now) }
    {
        let cell = self.at(index);
        let mut note = cell.note();
        let shown = cell.get_as(&mut note)?;
        Some((shown, note))
    }

    /// Returns what a cell of the row shows, by a note that has seen it.
    pub(crate) fn shown<'a>(&'a self, index: usize, note: &mut Note<T>) -> &'a T
        requires index { index < CELLS }
        requires cell { slice_get self.now index ≡ Some note.old.cell }
        requires known { IsSome note.old.known }
        ensures same { (note.new.cell ≡ note.old.cell) × (note.new.known ≡ note.old.known) }
        ensures shown { note.old.known ≡ Some result.now }
    {
        match self.at(index).get_as(note) {
            Some(shown) => shown,
            None => unreachable!(),
        }
    }

    /// Sets a cell of the row to a value, where it shows none. Returns what the cell then shows, its note, and which
    /// value that is. A value that is not the first is dropped.
    pub(crate) fn set(&self, index: usize, value: Box<T>) -> (&T, Note<T>, HeldValue)
        requires { index < CELLS }
        ensures cell { slice_get self.now index ≡ Some result.1.cell }
        ensures shown { result.1.known ≡ Some result.0.now }
        ensures given { result.2 ≡ Given → result.1.known ≡ Some value.value }
    {
        let cell = self.at(index);
        let mut note = cell.note();
        let which = match cell.set_as(value, &mut note) {
            Ok(()) => HeldValue::Given,
            Err(_) => HeldValue::Earlier,
        };
        (self.shown(index, &mut note), note, which)
    }
}

impl<T: Drop> Row<Row<T>> {
    /// Returns the row that a cell of this one shows, which is made where the cell shows none, and the cell's note. The
    /// error is want of memory; then the cell is as it was.
    pub(crate) fn row_at(
        &self,
        alloc: Global,
        index: usize,
    ) -> Result<(&Row<T>, Note<Row<T>>), AllocError>
        requires { index < CELLS }
        ensures cell { IfOk result (λ r. slice_get self.now index ≡ Some r.1.cell) }
        ensures shown { IfOk result (λ r. r.1.known ≡ Some r.0.now) }
    {
        let cell = self.at(index);
        let mut note = cell.note();
        let row = cell.get_or_try_init_as(
            move || -> Result<Box<Row<T>>, AllocError> { Ok(Box::new(alloc, Row::new(alloc)?)?) },
            &mut note,
        )?;
        Ok((row, note))
    }
}
