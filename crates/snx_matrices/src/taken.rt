//! The elements that were taken so far.

ghost use Rattle.std.specs.Prelude.{◌≡◌, ◌≤◌, ◌<◌, ◌*◌, [], All, IfOk, length, false};
ghost use Rattle.snx_matrices.specs.Passing.{IsAdded, Leaves};

use crate::elements::Cell;
use crate::stops::Stop;
use snx_rows::Cause;
use std::alloc::{AllocError, Global};
use std::marker::Model;

/// The elements of a matrix so far, and for each row and column whether an element of them was given.
#[derive(Drop)]
pub(crate) struct Elements {
    size: usize,
    flags: Vec<bool>,
    cells: Vec<Cell>,
}

impl Model for Elements {
    ghost use Rattle.snx_matrices.specs.Passing.{PlainElements, AreFlags};

    ghost Value = { PlainElements };

    ghost view = { λ e. record { size = e.size; cells = e.cells.items } };

    ghost invariant = { λ e. AreFlags e.size e.flags.items e.cells.items };
}

/// As many flags, none of which stands.
fn no_flags(alloc: Global, count: usize) -> Result<Vec<bool>, AllocError>
    ensures size { IfOk result (λ flags. length flags.items ≡ count) }
    ensures none { IfOk result (λ flags. All (λ flag. flag ≡ false) flags.items) }
{
    vec![in alloc; false; count]
}

impl Elements {
    /// No elements of a matrix of `size` rows.
    pub(crate) fn none(alloc: Global, size: usize) -> Result<Elements, AllocError>
        requires { size ≤ 1000 }
        ensures size { IfOk result (λ e. e.size ≡ size) }
        ensures cells { IfOk result (λ e. e.cells ≡ []) }
    {
        let flags = no_flags(alloc, size * size)?;
        Ok(Elements {
            size,
            flags,
            cells: Vec::new(alloc),
        })
    }

    /// Puts an element behind those before it, where none of its row and column was given before.
    pub(crate) fn add(&mut self, cell: Cell) -> Result<(), Stop>
        requires row { cell.row < self.old.size }
        requires column { cell.col < self.old.size }
        ensures size { self.new.size ≡ self.old.size }
        ensures cells { Leaves self.new.cells (IsAdded self.old.cells cell) result }
    {
        let place = cell.row as usize * self.size + cell.col as usize;
        if self.flags[place] {
            return Err(Stop::Cause(Cause::Repeated));
        }
        self.cells.push(cell)?;
        self.flags[place] = true;
        Ok(())
    }

    /// The elements alone.
    pub(crate) fn into_cells(self) -> Vec<Cell>
        ensures { result.items ≡ self.cells }
    {
        let Elements { cells, flags, .. } = self;
        drop(flags);
        cells
    }
}
