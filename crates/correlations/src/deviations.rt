//! Standard deviations of names.

ghost use Rattle.std.specs.Prelude.{◌≡◌, ◌≤◌, ◌<◌, ◌+◌, ℕ, All, IfOk, if◌then◌else◌, length, map, slice_index_or};
ghost use Rattle.std.specs.List.{list_all};
ghost use Rattle.snx_rows.specs.Blocks.{AreSound};
ghost use Rattle.snx_rows.specs.Named.{is_row_of, place_of, zero_decimal};
ghost use Rattle.snx_rows.specs.declared.rows.Shape.{Shape};
ghost use Rattle.snx_matrices.specs.Elements.{AreElementsOf};
ghost use Rattle.snx_matrices.specs.Named.{element_of, given_at};
ghost use Rattle.named_tables.specs.Deviations.{positive, sigma_of};
ghost use Rattle.correlations.specs.Exact.{deviation_of, is_one};
ghost use Rattle.correlations.specs.Parts.{IsTyped};

use decimal_e::Dec;
use named_tables::{positive, sigma_of};
use param_ids::{Names, ParamId};
use snx_matrices::Cell;
use snx_rows::Row;
use std::alloc::{AllocError, Global};
use std::cmp::Ordering;

/// Whether a number is exactly 1.
fn is_one(d: &Dec) -> bool
    ensures { result ≡ is_one d.now }
{
    d.mant() == 1 && d.exp() == 0
}

/// Whether a row has this name.
fn is_row_of(id: &ParamId, row: &Row) -> bool
    ensures { result ≡ is_row_of id.now row.now }
{
    row.id.cmp(id) == Ordering::Equal
}

/// The place of the row of a name; past the last where there is none.
fn place_of(rows: &[Row], id: &ParamId) -> usize
    ensures value { result ≡ place_of rows.now id.now }
    ensures bound { result ≤ length rows.now }
{
    for place in 0..rows.len() {
        if is_row_of(id, &rows[place]) {
            return place;
        }
    }
    rows.len()
}

/// The value of an element.
fn value_of(cell: &Cell) -> Dec
    ensures value { result ≡ cell.now.value }
    ensures typed { IsTyped result }
{
    let _mant = cell.value.mant();
    cell.value
}

/// The diagonal elements at the places below `count`.
fn diagonals(alloc: Global, count: usize, cells: &[Cell]) -> Result<Vec<Dec>, AllocError>
    requires { All (λ cell. cell.row < count) cells.now }
    ensures len { IfOk result (λ given. length given.items ≡ count) }
    ensures values { IfOk result (λ given. (p : ℕ) → p < count → slice_index_or given.items p zero_decimal ≡ given_at cells.now p p) }
    ensures typed { IfOk result (λ given. All (λ cell. IsTyped cell.value) cells.now) }
{
    let mut given = vec![in alloc; Dec::zero(); count]?;
    for place in (0..cells.len()).rev() {
        let cell = cells[place];
        let value = value_of(&cell);
        if cell.row == cell.col {
            given[cell.row as usize] = value;
        }
    }
    Ok(given)
}

/// The element of the diagonal for a name.
fn own_element(rows: &[Row], given: &[Dec], id: &ParamId) -> Dec
    requires { length given.now ≡ length rows.now + 1 }
    ensures value { result ≡ slice_index_or given.now (place_of rows.now id.now) zero_decimal }
    ensures bound { place_of rows.now id.now ≤ length rows.now }
{
    given[place_of(rows, id)]
}

/// The diagonal element of each name.
fn own_elements(
    alloc: Global,
    rows: &[Row],
    cells: &[Cell],
    names: &Names,
) -> Result<Vec<Dec>, AllocError>
    requires rows { length rows.now ≤ 1000 }
    requires cells { AreElementsOf (length rows.now) cells.now }
    ensures values { IfOk result (λ own. own.items ≡ map (λ id. element_of rows.now cells.now id id) names.now) }
    ensures typed { IfOk result (λ own. All (λ cell. IsTyped cell.value) cells.now) }
{
    let given = diagonals(alloc, rows.len() + 1, cells)?;
    let mut own = Vec::new(alloc);
    for place in 0..names.len() {
        own.push(own_element(rows, &given, names.at(place)))?;
    }
    Ok(own)
}

/// Whether each number is exactly 1.
fn all_ones(own: &[Dec]) -> bool
    ensures { result ≡ list_all is_one own.now }
{
    own.iter().all(|d| is_one(d))
}

/// The standard deviation of a name, where it is positive.
fn deviation(rows: &[Row], id: &ParamId, own: &Dec, ones: bool) -> Option<Dec>
    ensures { result ≡ (if ones then sigma_of rows.now id.now else positive own.now) }
{
    if ones {
        sigma_of(rows, id)
    } else {
        positive(own)
    }
}

/// The standard deviations of the names, where they are positive. The elements are numbers of the type.
pub fn deviations_of(
    alloc: Global,
    rows: &[Row],
    cells: &[Cell],
    names: &Names,
) -> Result<Vec<Option<Dec>>, AllocError>
    requires rows { length rows.now ≤ 1000 }
    requires cells { AreElementsOf (length rows.now) cells.now }
    ensures values { IfOk result (λ deviations. deviations.items ≡ map (deviation_of rows.now cells.now names.now) names.now) }
    ensures typed { IfOk result (λ deviations. All (λ cell. IsTyped cell.value) cells.now) }
{
    let own = own_elements(alloc, rows, cells, names)?;
    let ones = all_ones(&own);
    let mut deviations = Vec::new(alloc);
    for place in 0..names.len() {
        deviations.push(deviation(rows, names.at(place), &own[place], ones))?;
    }
    Ok(deviations)
}
