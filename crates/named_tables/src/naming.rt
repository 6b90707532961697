//! The names of rows, and rows by their names.

ghost use Rattle.std.specs.Prelude.{◌≡◌, ◌⊎◌, Contains, IfOk, IfErr, List, Ok, Err, Some, map, slice_get};
ghost use Rattle.std.specs.List.{find};
ghost use Rattle.std.specs.List.Sorted.{IsPermutation};
ghost use Rattle.std.specs.Option.{option_map};
ghost use Rattle.param_ids.specs.Order.{IsNames};
ghost use Rattle.snx_rows.specs.Blocks.{AreSound};
ghost use Rattle.snx_rows.specs.Named.{row_of};
ghost use Rattle.snx_rows.specs.declared.rows.Shape.{Shape};
ghost use Rattle.named_tables.specs.Naming.{AreNamesOf, filled, lacks_row, matched};
ghost use Rattle.named_tables.specs.Parts.{AreRanks};
ghost use Rattle.named_tables.specs.declared.faults.RecoverFault.{RecoverFault};
ghost use Rattle.named_tables.specs.declared.faults.RecoverError.TheVariants.{Memory, Fault};

use crate::faults::{RecoverError, RecoverFault};
use param_ids::{Names, NamesError, ParamId};
use snx_rows::Row;
use std::alloc::{AllocError, Global};

/// The names of rows, as they stand.
fn ids_of(alloc: Global, rows: &[Row]) -> Result<Vec<ParamId>, AllocError>
    ensures { IfOk result (λ ids. ids.items ≡ map (λ row. row.id) rows.now) }
{
    rows.iter().map(|row| row.id).collect(alloc)
}

/// The names of the rows of a block, in order.
///
/// # Errors
///
/// Want of memory.
pub fn names_of(alloc: Global, rows: &[Row]) -> Result<Names, AllocError>
    requires { (shape : Shape) × AreSound shape rows.now }
    ensures { IfOk result (AreNamesOf rows.now) }
{
    let ids = ids_of(alloc, rows)?;
    match Names::from_list(alloc, &ids) {
        Ok(names) => Ok(names),
        Err(NamesError::Repeated { .. }) => unreachable!(),
        Err(NamesError::TooMany { .. }) => unreachable!(),
        Err(NamesError::Memory) => Err(AllocError),
    }
}

/// Whether a row has none of its name among those of these names.
fn is_unmatched(known: &Names, row: &Row) -> bool
    ensures { (apriori : List Row) → IsPermutation (map (λ (a : Row). a.id) apriori) known.now
        → result ≡ lacks_row apriori row.now }
{
    match known.find(&row.id) {
        Some(_) => false,
        None => true,
    }
}

/// The name of the first row that has no a priori row of its name.
fn first_unmatched(
    alloc: Global,
    apriori: &[Row],
    rows: &[Row],
) -> Result<Option<ParamId>, AllocError>
    requires { (shape : Shape) × AreSound shape apriori.now }
    ensures { IfOk result (λ id. id ≡ option_map (λ row. row.id) (find (lacks_row apriori.now) rows.now)) }
{
    let known = names_of(alloc, apriori)?;
    for row in rows {
        if is_unmatched(&known, row) {
            return Ok(Some(row.id));
        }
    }
    Ok(None)
}

/// Each row has an a priori row of its name.
///
/// # Errors
///
/// Unmatched for the first that has none; or want of memory.
pub fn all_matched(alloc: Global, apriori: &[Row], rows: &[Row]) -> Result<(), RecoverError>
    requires { (shape : Shape) × AreSound shape apriori.now }
    ensures ok { IfOk result (λ done. Ok tt ≡ matched apriori.now rows.now) }
    ensures refused { IfErr result (λ cause. (cause ≡ Memory) ⊎ ((fault : RecoverFault) × (cause ≡ Fault fault) × (Err fault ≡ matched apriori.now rows.now))) }
{
    match first_unmatched(alloc, apriori, rows)? {
        Some(id) => Err(RecoverError::Fault(RecoverFault::Unmatched { id })),
        None => Ok(()),
    }
}

/// There is a row.
///
/// # Errors
///
/// Empty where there is none.
pub fn some_row(rows: &[Row]) -> Result<(), RecoverFault>
    ensures { result ≡ filled rows.now }
{
    if rows.is_empty() {
        Err(RecoverFault::Empty)
    } else {
        Ok(())
    }
}

/// The place of a name; past the last where it is not there.
fn rank_of(names: &Names, id: &ParamId) -> usize
    ensures { Contains names.now id.now → slice_get names.now result ≡ Some id.now }
{
    match names.find(id) {
        Some(rank) => rank,
        None => names.len(),
    }
}

/// The places of the rows' names; past the last for a row whose name is not among the names.
pub fn ranks_of(alloc: Global, names: &Names, rows: &[Row]) -> Result<Vec<usize>, AllocError>
    ensures { IfOk result (λ ranks. AreRanks names.now rows.now ranks.items) }
{
    let mut ranks = Vec::new(alloc);
    for row in rows {
        ranks.push(rank_of(names, &row.id))?;
    }
    Ok(ranks)
}

/// Of each name, the first row that has it.
pub fn rows_by_name(
    alloc: Global,
    names: &Names,
    rows: &[Row],
) -> Result<Vec<Option<Row>>, AllocError>
    requires { IsNames names.now }
    ensures { IfOk result (λ found. found.items ≡ map (row_of rows.now) names.now) }
{
    let mut found = vec![in alloc; None; names.len()]?;
    for place in (0..rows.len()).rev() {
        let row = rows[place];
        if let Some(rank) = names.find(&row.id) {
            found[rank] = Some(row);
        }
    }
    Ok(found)
}
