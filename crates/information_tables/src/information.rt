//! The table of an information matrix.

ghost use Rattle.std.specs.Prelude.{◌≡◌, ◌≤◌, ◌<◌, ◌⊎◌, ◌^◌, ℕ, All, IfOk, IfErr, Ok, Err, length};
ghost use Rattle.stated_order.specs.Steps.{HasOne};
ghost use Rattle.whole_numbers.specs.Intervals.{size};
ghost use Rattle.sym_blocks.specs.Tables.{before, entry_at};
ghost use Rattle.param_ids.specs.Order.{IsNames};
ghost use Rattle.snx_rows.specs.Blocks.{AreSound};
ghost use Rattle.snx_rows.specs.declared.rows.Shape.{Shape};
ghost use Rattle.snx_matrices.specs.Elements.{AreElementsOf};
ghost use Rattle.snx_matrices.specs.declared.elements.Content.TheVariants.{Cova, Corr, Info};
ghost use Rattle.neq_stack.specs.Systems.{NamedSystem};
ghost use Rattle.named_tables.specs.Tables.{HasNames, LiesInTable};
ghost use Rattle.named_tables.specs.Weighted.{IsWeight, one_decimal};
ghost use Rattle.named_tables.specs.declared.faults.RecoverFault.{RecoverFault};
ghost use Rattle.named_tables.specs.declared.faults.RecoverError.TheVariants.{Memory, Fault};
ghost use Rattle.information_tables.specs.Exact.{IsInformation, MultiplesAreInformation};
ghost use Rattle.information_tables.specs.Tables.{IsInformationTable, OneInformation};
ghost use Rattle.information_tables.specs.Parts.{IsAnswered};

use crate::inverting::weighted_inverse;
use correlations::{correlated, one_covariances};
use decimal_e::Dec;
use inv_enclose::one_inverse;
use named_tables::{RecoverError, one_table, table_by, table_of};
use param_ids::{Names, Scales};
use snx_matrices::{Cell, Content};
use snx_rows::Row;
use std::alloc::Global;
use std::thread::Threads;
use sym_blocks::SymBlock;

#[tactic(auto, using(crate::proofs::OneLaws::one_is, crate::proofs::OneLaws::one_not_none))]
/// The number one.
fn one() -> Dec
    ensures { result ≡ one_decimal }
{
    match Dec::new(1, 0) {
        Some(d) => d,
        None => unreachable!(),
    }
}

/// The table of an information matrix as it stands.
fn given<const N: usize>(
    alloc: Global,
    rows: &[Row],
    cells: &[Cell],
    weight: &Dec,
    scales: &Scales,
    names: &Names,
) -> Result<SymBlock<N>, RecoverError>
    requires rows { (shape : Shape) × AreSound shape rows.now }
    requires cells { AreElementsOf (length rows.now) cells.now }
    requires names { IsNames names.now }
    requires named { All (HasNames names.now rows.now) cells.now }
    ensures { IsAnswered Info rows.now cells.now weight.now scales.now names.now result }
{
    table_of(alloc, rows, cells, weight, scales, names)
}

/// The table of the inverse of covariances, times the weight.
fn of_covariances<R: Threads + Sync, const N: usize>(
    rt: &R,
    alloc: Global,
    rows: &[Row],
    cells: &[Cell],
    weight: &Dec,
    scales: &Scales,
    names: &Names,
    workers: usize,
) -> Result<SymBlock<N>, RecoverError>
    requires rows { (shape : Shape) × AreSound shape rows.now }
    requires cells { AreElementsOf (length rows.now) cells.now }
    requires names { IsNames names.now }
    requires named { All (HasNames names.now rows.now) cells.now }
    requires weight { IsWeight weight.now }
    requires some_workers { 1 ≤ workers }
    requires few_workers { workers ≤ 16 }
    ensures { IsAnswered Cova rows.now cells.now weight.now scales.now names.now result }
{
    let unit = one();
    match table_by::<N>(alloc, Content::Cova, rows, cells, &unit, scales, names) {
        Ok(covariances) => weighted_inverse(rt, alloc, &covariances, weight, names, workers),
        Err(cause) => Err(cause),
    }
}

/// The table of the inverse of the covariances of correlations, times the weight.
fn of_correlations<R: Threads + Sync, const N: usize>(
    rt: &R,
    alloc: Global,
    rows: &[Row],
    cells: &[Cell],
    weight: &Dec,
    scales: &Scales,
    names: &Names,
    workers: usize,
) -> Result<SymBlock<N>, RecoverError>
    requires rows { (shape : Shape) × AreSound shape rows.now }
    requires cells { AreElementsOf (length rows.now) cells.now }
    requires names { IsNames names.now }
    requires named { All (HasNames names.now rows.now) cells.now }
    requires weight { IsWeight weight.now }
    requires some_workers { 1 ≤ workers }
    requires few_workers { workers ≤ 16 }
    ensures { IsAnswered Corr rows.now cells.now weight.now scales.now names.now result }
{
    match correlated::<N>(alloc, rows, cells, scales, names) {
        Ok(covariances) => weighted_inverse(rt, alloc, &covariances, weight, names, workers),
        Err(cause) => Err(cause),
    }
}

/// The information matrix of a matrix over these rows, for these names, in intervals: each element times the weight and
/// `10^(18 - t_i - t_j)`, where t are the scale exponents of the names. Covariances are inverted, and each inverse that they admit lies in
/// the intervals.
///
/// # Errors
///
/// The first cause for which there is none. Of an information matrix: Range, as `table_of` of `named_tables` has it. Of covariances: Range,
/// or of correlations NoWeight and Range, as `correlated` of `correlations` has them; then the causes of `inverse` of `inv_enclose` under
/// the names of their places; then Range, row by row up to the diagonal, where an interval times the weight passes its bounds; or want of
/// memory. The number of workers, from 1 to 16, has no effect yet.
pub fn information_of<R: Threads + Sync, const N: usize>(
    rt: &R,
    alloc: Global,
    rows: &[Row],
    content: Content,
    cells: &[Cell],
    weight: &Dec,
    scales: &Scales,
    names: &Names,
    workers: usize,
) -> Result<SymBlock<N>, RecoverError>
    requires rows { (shape : Shape) × AreSound shape rows.now }
    requires cells { AreElementsOf (length rows.now) cells.now }
    requires names { IsNames names.now }
    requires named { All (HasNames names.now rows.now) cells.now }
    requires weight { IsWeight weight.now }
    requires some_workers { 1 ≤ workers }
    requires few_workers { workers ≤ 16 }
    ensures table { IfOk result (λ table. IsInformationTable content rows.now cells.now weight.now scales.now names.now (Ok table)) }
    ensures refused { IfErr result (λ cause. (cause ≡ Memory) ⊎ ((fault : RecoverFault) × (cause ≡ Fault fault) × IsInformationTable content rows.now cells.now weight.now scales.now names.now (Err fault))) }
    ensures lies { IfOk result (λ table. (E : NamedSystem) → IsInformation content rows.now cells.now names.now weight.now E → LiesInTable scales.now names.now table E) }
    ensures exists { IfOk result (λ table. HasOne (IsInformation content rows.now cells.now names.now weight.now)) }
    ensures size { IfOk result (λ table. table.size ≡ length names.now) }
    ensures lower { IfOk result (λ table. length table.entries ≡ before table.size) }
    ensures modest { IfOk result (λ table. (i j : ℕ) → i < table.size → j < table.size → size (entry_at table i j) ≤ 10 ^ 34) }
{
    match content {
        Content::Info => given(alloc, rows, cells, weight, scales, names),
        Content::Cova => of_covariances(rt, alloc, rows, cells, weight, scales, names, workers),
        Content::Corr => of_correlations(rt, alloc, rows, cells, weight, scales, names, workers),
    }
}

/// There is one table of an information matrix, or one first cause, and never both.
pub fn one_information()
    ensures { OneInformation }
{
    one_table();
    one_covariances();
    one_inverse();
}

/// With an information matrix also each multiple of it is one.
pub fn multiples()
    ensures { MultiplesAreInformation }
{}
