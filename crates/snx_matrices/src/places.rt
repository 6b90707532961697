//! The places of rows, by the indices by which lines call them.

ghost use Rattle.std.specs.Prelude.{◌≡◌, ◌≤◌, ◌<◌, All, IfOk, IfSome, List, Option, None, length};
ghost use Rattle.snx_lines.specs.Lines.{columns};
ghost use Rattle.snx_rows.specs.Blocks.{IsIndex};
ghost use Rattle.snx_matrices.specs.Elements.{place_of, called, called_by, IsPairOn};
ghost use Rattle.snx_matrices.specs.Passing.{IsCalled};

use crate::elements::{Called, Pair};
use snx_lines::{Line, field};
use snx_rows::{Cause, Row, index_of};
use std::alloc::{AllocError, Global};
use std::marker::Model;

/// One more than the greatest index.
const INDICES: usize = 100_000;

/// Rows, and where the row of each index stands among them.
#[derive(Drop)]
pub(crate) struct Places<'a> {
    rows: &'a [Row],
    table: Vec<Option<u32>>,
}

impl<'a> Model for Places<'a> {
    ghost use Rattle.std.specs.Prelude.{List};
    ghost use Rattle.snx_rows.specs.declared.rows.Row.{Row};
    ghost use Rattle.snx_matrices.specs.Passing.{ArePlaces};

    ghost Value = { List Row };

    ghost view = { λ p. p.rows.now };

    ghost invariant = { λ p. ArePlaces p.rows.now p.table.items };
}

/// A table of `size` indices that no row has.
fn no_places(alloc: Global, size: usize) -> Result<Vec<Option<u32>>, AllocError>
    ensures size { IfOk result (λ table. length table.items ≡ size) }
    ensures none { IfOk result (λ table. All (λ place. place ≡ None) table.items) }
{
    vec![in alloc; None; size]
}

impl<'a> Places<'a> {
    /// The places of these rows. They are put in from the last, so that the first row of an index stands.
    pub(crate) fn new(alloc: Global, rows: &'a [Row]) -> Result<Places<'a>, AllocError>
        requires few { length rows.now ≤ 1000 }
        requires indexed { All (λ row. IsIndex row.index) rows.now }
        ensures { IfOk result (λ places. places ≡ rows.now) }
    {
        let mut table = no_places(alloc, INDICES)?;
        let mut place = rows.len();
        while place > 0 {
            place -= 1;
            table[rows[place].index as usize] = Some(place as u32);
        }
        Ok(Places { rows, table })
    }

    /// The place of the row of this index.
    fn place_of(&self, index: u32) -> Option<u32>
        ensures { result ≡ place_of self.now index }
    {
        match self.table.get(index as usize) {
            Some(place) => *place,
            None => None,
        }
    }

    /// The row of this index.
    pub(crate) fn called(&self, index: u32) -> Option<Called>
        ensures row { result ≡ called self.now index }
        ensures within { IfSome result (IsCalled (length self.now)) }
    {
        let _ = &self.rows;
        let place = self.place_of(index)?;
        Some(Called { index, place })
    }

    /// The row whose index a text writes.
    fn called_by(&self, text: &[u8]) -> Option<Called>
        ensures row { result ≡ called_by self.now text.now }
        ensures within { IfSome result (IsCalled (length self.now)) }
    {
        self.called(index_of(text)?)
    }

    /// The two rows that a line calls.
    pub(crate) fn pair_on(&self, line: &Line) -> Result<Pair, Cause>
        ensures pair { IsPairOn self.now line.now.text.now result }
        ensures row { IfOk result (λ pair. IsCalled (length self.now) pair.row) }
        ensures column { IfOk result (λ pair. IsCalled (length self.now) pair.column) }
    {
        let row = self.called_by(field(line, 2, 6)).ok_or(Cause::Index)?;
        let column = self.called_by(field(line, 8, 12)).ok_or(Cause::Index)?;
        Ok(Pair { row, column })
    }
}
