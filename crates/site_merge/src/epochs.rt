//! The rows of SOLUTION/EPOCHS of all documents, each solution once.

ghost use Rattle.std.specs.Prelude.{◌≡◌, ◌++◌, ◌∷◌, [], List, Some, IfOk, map, unwrap_or};
ghost use Rattle.std.specs.BTreeMap.{get, values, IsOrdered};
ghost use Rattle.snx_sites.specs.Plain.{PlainEpochRow};
ghost use Rattle.snx_blocks.specs.Views.{doc_view};
ghost use Rattle.site_merge.specs.Merged.{AreMergedEpochs, all_epochs};
ghost use Rattle.site_merge.specs.Keyed.{HasMergedRows, IsWithMean, joined_to, solution_name_cmp};

use crate::moments::{earlier, later};
use crate::names::SolutionName;
use snx_blocks::Doc;
use snx_epoch::middle;
use snx_sites::EpochRow;
use std::alloc::{AllocError, Global};
use std::collections::BTreeMap;

/// Of each solution what its rows make.
type EpochMap = BTreeMap<SolutionName, EpochRow>;

/// A row with the mean of its own start and end.
fn with_mean(row: &EpochRow) -> EpochRow
    ensures { IsWithMean row.now result }
{
    EpochRow {
        mean: middle(&row.start, &row.end),
        ..*row
    }
}

/// What one more row of a solution makes of those before it, but for the mean.
fn joined(before: &EpochRow, row: &EpochRow) -> EpochRow
    ensures { result ≡ joined_to (Some before.now) row.now }
{
    EpochRow {
        start: earlier(before.start, row.start),
        end: later(before.end, row.end),
        ..*before
    }
}

/// What a row makes of those of its name before it, but for the mean.
fn joined_in(table: &EpochMap, name: &SolutionName, row: &EpochRow) -> EpochRow
    ensures { result ≡ joined_to (get solution_name_cmp table.now name.now) row.now }
{
    match table.get(name) {
        Some(before) => joined(before, row),
        None => *row,
    }
}

/// Adds a row to those before it.
fn add_row(table: &mut EpochMap, row: &EpochRow) -> Result<(), AllocError>
    ensures { (before : List PlainEpochRow) → HasMergedRows table.old before
        → IfOk result (λ _. HasMergedRows table.new (before ++ row.now ∷ [])) }
{
    let name = SolutionName::of(row);
    let joined = joined_in(table, &name, row);
    let merged = with_mean(&joined);
    if table.insert(name, merged).is_err() {
        return Err(AllocError);
    }
    Ok(())
}

/// Adds the rows of a document to those before them.
fn add_rows(table: &mut EpochMap, rows: &[EpochRow]) -> Result<(), AllocError>
    ensures { (before : List PlainEpochRow) → HasMergedRows table.old before
        → IfOk result (λ _. HasMergedRows table.new (before ++ rows.now)) }
{
    for row in rows {
        add_row(table, row)?;
    }
    Ok(())
}

/// The rows of a document; none where it lacks the block.
fn rows_of(doc: &Doc) -> &[EpochRow]
    ensures { result.now ≡ unwrap_or (doc_view doc.now).epochs [] }
{
    match &doc.epochs {
        Some(rows) => rows,
        None => &[],
    }
}

/// Of each solution of some documents what its rows make.
fn merged_rows(alloc: Global, docs: &[&Doc]) -> Result<EpochMap, AllocError>
    ensures { IfOk result (λ table. HasMergedRows table (all_epochs (map (λ doc. doc_view doc.now) docs.now))) }
{
    let mut table = BTreeMap::new(alloc);
    for doc in docs {
        add_rows(&mut table, rows_of(doc))?;
    }
    Ok(table)
}

/// The rows of a map, in the order of their solutions.
fn rows_in(alloc: Global, table: &EpochMap) -> Result<Vec<EpochRow>, AllocError>
    ensures rows { IfOk result (λ rows. rows.items ≡ values table.now) }
    ensures order { IsOrdered solution_name_cmp table.now }
{
    let mut rows = Vec::new(alloc);
    for row in table.values() {
        rows.push(*row)?;
    }
    Ok(rows)
}

/// The rows of some documents, in order, each solution once with what all its rows make.
pub(crate) fn merged_epochs(alloc: Global, docs: &[&Doc]) -> Result<Vec<EpochRow>, AllocError>
    ensures { IfOk result (λ rows. AreMergedEpochs (all_epochs (map (λ doc. doc_view doc.now) docs.now)) rows.items) }
{
    let table = merged_rows(alloc, docs)?;
    rows_in(alloc, &table)
}
