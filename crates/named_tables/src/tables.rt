//! The table of a matrix for names.

ghost use Rattle.std.specs.Prelude.{◌≡◌, ◌⊎◌, ◌≤◌, ◌<◌, All, IfOk, IfErr, Ok, Err, length, slice_index};
ghost use Rattle.sym_blocks.specs.Tables.{before};
ghost use Rattle.param_ids.specs.Order.{IsNames};
ghost use Rattle.param_ids.specs.Tables.{IsScale};
ghost use Rattle.snx_rows.specs.Blocks.{AreSound};
ghost use Rattle.snx_rows.specs.declared.rows.Shape.{Shape};
ghost use Rattle.snx_matrices.specs.Elements.{AreElementsOf};
ghost use Rattle.named_tables.specs.Tables.{HasNames, IsTable, IsTableBy};
ghost use Rattle.named_tables.specs.Parts.{IsRanked, IsShownTable, ShowsEntries};
ghost use Rattle.named_tables.specs.declared.faults.RecoverFault.{RecoverFault};
ghost use Rattle.named_tables.specs.declared.faults.RecoverError.TheVariants.{Memory, Fault};

use crate::columns::exponents_of;
use crate::faults::{RecoverError, RecoverFault};
use crate::limits::first_past;
use crate::naming::ranks_of;
use crate::numbers::{pair_scale, weighted_at};
use decimal_e::Dec;
use param_ids::{Names, Scales};
use snx_matrices::{Cell, Content};
use snx_rows::Row;
use std::alloc::{AllocError, Global};
use sym_blocks::SymBlock;

/// The place of the name of a row.
fn rank_at(ranks: &[usize], row: u32) -> usize
    requires { row < length ranks.now }
    ensures { result ≡ slice_index ranks.now row }
{
    ranks[row as usize]
}

/// The intervals of the elements times the weight, by the places of their names.
fn ranked_table<const N: usize>(
    alloc: Global,
    content: Content,
    weight: &Dec,
    cells: &[Cell],
    ranks: &[usize],
    exponents: &[i32],
) -> Result<SymBlock<N>, AllocError>
    requires few { length exponents.now ≤ 1000 }
    requires scales { All IsScale exponents.now }
    requires cells { All (IsRanked (length exponents.now) ranks.now) cells.now }
    ensures size { IfOk result (λ table. table.size ≡ length exponents.now) }
    ensures whole { IfOk result (λ table. length table.entries ≡ before table.size) }
    ensures shown { IfOk result (ShowsEntries content weight.now cells.now ranks.now exponents.now) }
{
    let mut table = SymBlock::<N>::zero(alloc, exponents.len())?;
    for place in (0..cells.len()).rev() {
        let cell = cells[place];
        let row = rank_at(ranks, cell.row);
        let col = rank_at(ranks, cell.col);
        let interval = weighted_at(
            weight,
            &cell.value,
            pair_scale(content, exponents, row, col),
        );
        table.set(row, col, interval);
    }
    Ok(table)
}

/// The table of the elements for these names, in intervals that stand for them: where one is at most 10^34 in size, the element fits and
/// this is its interval.
pub fn shown_table<const N: usize>(
    alloc: Global,
    content: Content,
    rows: &[Row],
    cells: &[Cell],
    weight: &Dec,
    scales: &Scales,
    names: &Names,
) -> Result<SymBlock<N>, AllocError>
    requires rows { (shape : Shape) × AreSound shape rows.now }
    requires cells { AreElementsOf (length rows.now) cells.now }
    requires names { IsNames names.now }
    requires named { All (HasNames names.now rows.now) cells.now }
    ensures { IfOk result (IsShownTable content rows.now cells.now weight.now scales.now names.now) }
{
    let ranks = ranks_of(alloc, names, rows)?;
    let exponents = exponents_of(alloc, names, scales)?;
    ranked_table(alloc, content, weight, cells, &ranks, &exponents)
}

/// The table of a matrix over these rows for these names, by what it has: the interval of each element times the weight and its power of
/// ten, which for an information matrix is `10^(18 - t_i - t_j)`, for covariances `10^(24 + t_i + t_j)` and for correlations `10^18`, where t
/// are the scale exponents of the names. An element that is not given is zero, and so is one for a name without a row.
///
/// # Errors
///
/// Range, at the first element, row by row up to the diagonal in the order of the names, whose product with the weight is no decimal of
/// the type, or whose interval passes 10^34 in size; or want of memory.
pub fn table_by<const N: usize>(
    alloc: Global,
    content: Content,
    rows: &[Row],
    cells: &[Cell],
    weight: &Dec,
    scales: &Scales,
    names: &Names,
) -> Result<SymBlock<N>, RecoverError>
    requires rows { (shape : Shape) × AreSound shape rows.now }
    requires cells { AreElementsOf (length rows.now) cells.now }
    requires names { IsNames names.now }
    requires named { All (HasNames names.now rows.now) cells.now }
    ensures table { IfOk result (λ table. IsTableBy content rows.now cells.now weight.now scales.now names.now (Ok table)) }
    ensures refused { IfErr result (λ cause. (cause ≡ Memory) ⊎ ((fault : RecoverFault) × (cause ≡ Fault fault) × IsTableBy content rows.now cells.now weight.now scales.now names.now (Err fault))) }
{
    let table = shown_table::<N>(alloc, content, rows, cells, weight, scales, names)?;
    match first_past(&table) {
        Some((row, col)) => Err(RecoverError::Fault(RecoverFault::Range {
            row: *names.at(row),
            col: *names.at(col),
        })),
        None => Ok(table),
    }
}

/// The table of an information matrix over these rows for these names: the interval of each element times the weight and
/// `10^(18 - t_i - t_j)`, where t are the scale exponents of the names. An element that is not given is zero, and so is one for a name
/// without a row.
///
/// # Errors
///
/// As of `table_by`.
pub fn table_of<const N: usize>(
    alloc: Global,
    rows: &[Row],
    cells: &[Cell],
    weight: &Dec,
    scales: &Scales,
    names: &Names,
) -> Result<SymBlock<N>, RecoverError>
    requires rows { (shape : Shape) × AreSound shape rows.now }
    requires cells { AreElementsOf (length rows.now) cells.now }
    requires names { IsNames names.now }
    requires named { All (HasNames names.now rows.now) cells.now }
    ensures table { IfOk result (λ table. IsTable rows.now cells.now weight.now scales.now names.now (Ok table)) }
    ensures refused { IfErr result (λ cause. (cause ≡ Memory) ⊎ ((fault : RecoverFault) × (cause ≡ Fault fault) × IsTable rows.now cells.now weight.now scales.now names.now (Err fault))) }
{
    table_by(alloc, Content::Info, rows, cells, weight, scales, names)
}
