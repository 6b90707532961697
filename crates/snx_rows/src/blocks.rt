//! Rows of whole blocks.

ghost use Rattle.std.specs.Prelude.{◌≡◌, ◌⊎◌, ◌↔◌, IfOk, IsTrue, map};
ghost use Rattle.stated_order.specs.Steps.{Then};
ghost use Rattle.snx_lines.specs.Views.{line_view};
ghost use Rattle.snx_rows.specs.Rows.{IsRead};
ghost use Rattle.snx_rows.specs.Blocks.{Answers, StandsOn, IsNew, HasRoom, IsNextRow, AreRows, AreSound, OneBlock};

use crate::causes::{Cause, DocError, LineFault};
use crate::rows::{Row, Shape, row_on};
use snx_lines::Line;
use std::alloc::Global;

/// The most rows of a block.
const MOST_ROWS: usize = 1000;

/// Whether two rows have one index or one name.
fn shares(other: &Row, row: &Row) -> bool
    ensures { IsTrue result ↔ ((other.now.index ≡ row.now.index) ⊎ (other.now.id ≡ row.now.id)) }
{
    other.index == row.index || other.id == row.id
}

/// Whether the index or the name of a row stands on one of these rows.
fn stands_on(rows: &[Row], row: &Row) -> bool
    ensures { IsTrue result ↔ StandsOn rows.now row.now }
{
    rows.iter().any(|other| shares(other, row))
}

/// The row, if its index and its name are new.
fn new_row(before: &[Row], row: Row) -> Result<Row, Cause>
    ensures { IsNew before.now row result }
{
    if stands_on(before, &row) {
        Err(Cause::Repeated)
    } else {
        Ok(row)
    }
}

/// The row, if the block has room for it.
fn with_room(before: &[Row], row: Row) -> Result<Row, Cause>
    ensures { HasRoom before.now row result }
{
    if before.len() < MOST_ROWS {
        Ok(row)
    } else {
        Err(Cause::TooMany)
    }
}

/// What a line says as the next row of a block, or the first cause for which it is none.
fn next_on(shape: Shape, before: &[Row], line: &Line) -> Result<Row, Cause>
    ensures { Then (IsRead shape (line_view line.now)) (λ row. Then (IsNew before.now row) (HasRoom before.now)) result }
{
    let row = row_on(shape, line)?;
    let row = new_row(before, row)?;
    with_room(before, row)
}

/// The next row of a block.
fn next_row(shape: Shape, before: &[Row], line: &Line) -> Result<Row, LineFault>
    ensures { IsNextRow shape before.now (line_view line.now) result }
{
    match next_on(shape, before, line) {
        Ok(row) => Ok(row),
        Err(cause) => Err(LineFault {
            line: line.number,
            cause,
        }),
    }
}

/// The rows that the lines of data of a block are.
///
/// # Errors
///
/// The first bad line, with its cause: one of a single row's, then Repeated where its index or name stood before in the block, then
/// TooMany where 1,000 rows stand before it; or want of memory.
pub fn read_rows(alloc: Global, shape: Shape, body: &[Line]) -> Result<Vec<Row>, DocError>
    ensures rows { Answers (λ rows. rows.items) (AreRows shape (map line_view body.now)) result }
    ensures sound { IfOk result (λ rows. AreSound shape rows.items) }
{
    let mut rows = Vec::new(alloc);
    for line in body {
        let row = next_row(shape, &rows, line)?;
        rows.push(row)?;
    }
    Ok(rows)
}

/// A block of rows has one reading at most, or one bad line, and never both.
pub fn one_block()
    ensures { OneBlock }
{}
