//! Constrained rows and their estimates.

ghost use Rattle.std.specs.Prelude.{◌≡◌, ◌&&◌, IfOk, List};
ghost use Rattle.std.specs.List.{filter, list_any};
ghost use Rattle.snx_rows.specs.Blocks.{AreSound};
ghost use Rattle.snx_rows.specs.Named.{is_row_of, place_of};
ghost use Rattle.snx_rows.specs.declared.rows.Row.{Row};
ghost use Rattle.snx_rows.specs.declared.rows.Shape.TheVariants.{Value};
ghost use Rattle.param_ids.specs.Order.{IsNames};
ghost use Rattle.named_tables.specs.Deviations.{sigma_in};
ghost use Rattle.named_tables.specs.Naming.{lacks_row, AreNamesOf};
ghost use Rattle.recover_solution.specs.Solutions.{touches, is_touched, touched_names, is_constrained};
ghost use Rattle.recover_solution.specs.Recovery.{estimated};
ghost use Rattle.recover_solution.specs.Views.{constraint_view, solution_view};

use crate::solutions::{Constraint, Solution};
use decimal_e::Dec;
use named_tables::RecoverFault;
use param_ids::{Names, NamesError, ParamId};
use snx_matrices::Cell;
use snx_rows::Row;
use std::alloc::{AllocError, Global};
use std::cmp::Ordering;

/// Whether an element stands in the row or the column at a place.
fn touches(place: usize, cell: &Cell) -> bool
    ensures { result ≡ touches place cell.now }
{
    cell.row as usize == place || cell.col as usize == place
}

/// Whether some element does.
fn is_touched(place: usize, cells: &[Cell]) -> bool
    ensures { result ≡ list_any (touches place) cells.now }
{
    cells.iter().any(|cell| touches(place, cell))
}

/// The standard deviation of a row, where it is positive.
pub fn sigma_in(row: &Row) -> Option<Dec>
    ensures { result ≡ sigma_in row.now }
{
    match row.dev {
        Some(dev) => { if dev.mant() > 0 { Some(dev) } else { None } }
        None => None,
    }
}

/// Whether the a priori row at a place is constrained.
fn is_constrained(constraint: &Constraint<'_>, place: usize, row: &Row) -> bool
    ensures { (apriori : List Row) → place_of apriori row.now.id ≡ place → result ≡ is_constrained (constraint_view constraint.now) apriori row.now }
{
    match constraint {
        Constraint::Free => false,
        Constraint::Matrix(_, cells) => is_touched(place, cells),
        Constraint::Sigmas => sigma_in(row).is_some(),
    }
}

/// Whether none of some rows, which have these names, has the name of this row.
fn lacks(names: &Names, row: &Row) -> bool
    ensures { (others : List Row) → AreNamesOf others names.now → result ≡ lacks_row others row.now }
{
    match names.find(&row.id) {
        Some(_) => false,
        None => true,
    }
}

/// Whether the a priori row at a place is constrained and none of some rows, which have these names, has its name.
fn is_lacking(constraint: &Constraint<'_>, names: &Names, place: usize, row: &Row) -> bool
    ensures { (apriori others : List Row) → place_of apriori row.now.id ≡ place → AreNamesOf others names.now
        → result ≡ (is_constrained (constraint_view constraint.now) apriori row.now && lacks_row others row.now) }
{
    if !lacks(names, row) {
        return false;
    }
    is_constrained(constraint, place, row)
}

/// Each constrained a priori row has an estimate, or Unmatched for the first that has none. The names are those of the estimates.
pub fn estimated(solution: &Solution<'_>, names: &Names) -> Result<(), RecoverFault>
    requires apriori { AreSound Value (solution_view solution.now).apriori }
    requires names { AreNamesOf (solution_view solution.now).estimates names.now }
    ensures { result ≡ estimated (solution_view solution.now) }
{
    let rows = solution.apriori;
    let constraint = solution.constraint;
    for place in 0..rows.len() {
        let row = rows[place];
        if is_lacking(&constraint, names, place, &row) {
            return Err(RecoverFault::Unmatched { id: row.id });
        }
    }
    Ok(())
}

/// Whether a row has this name.
pub fn is_row_of(id: &ParamId, row: &Row) -> bool
    ensures { result ≡ is_row_of id.now row.now }
{
    row.id.cmp(id) == Ordering::Equal
}

/// The place of the row of a name; past the last where there is none.
fn place_of(rows: &[Row], id: &ParamId) -> usize
    ensures { result ≡ place_of rows.now id.now }
{
    for place in 0..rows.len() {
        if is_row_of(id, &rows[place]) {
            return place;
        }
    }
    rows.len()
}

/// Those of some names in whose row or column an element stands.
fn touched_list(
    alloc: Global,
    apriori: &[Row],
    cells: &[Cell],
    names: &Names,
) -> Result<Vec<ParamId>, AllocError>
    ensures { IfOk result (λ list. list.items ≡ touched_names apriori.now cells.now names.now) }
{
    let mut list = Vec::new(alloc);
    for place in 0..names.len() {
        let id = names.at(place);
        if is_touched(place_of(apriori, id), cells) {
            list.push(*id)?;
        }
    }
    Ok(list)
}

/// Those of some names in whose row or column some element of a matrix over the a priori rows stands, in their order.
///
/// # Errors
///
/// Want of memory.
pub fn touched_names(
    alloc: Global,
    apriori: &[Row],
    cells: &[Cell],
    names: &Names,
) -> Result<Names, AllocError>
    requires { IsNames names.now }
    ensures { IfOk result (λ part. part ≡ touched_names apriori.now cells.now names.now) }
{
    let list = touched_list(alloc, apriori, cells, names)?;
    match Names::from_list(alloc, &list) {
        Ok(part) => Ok(part),
        Err(NamesError::Repeated { .. }) => unreachable!(),
        Err(NamesError::TooMany { .. }) => unreachable!(),
        Err(NamesError::Memory) => Err(AllocError),
    }
}
