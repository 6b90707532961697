//! The table of covariances.

ghost use Rattle.std.specs.Prelude.{◌≡◌, ◌≤◌, ◌<◌, ◌⊎◌, ◌^◌, ℕ, ℤ, All, IfOk, IfErr, Ok, Err, Some, length, slice_get};
ghost use Rattle.stated_order.specs.Steps.{HasOne};
ghost use Rattle.sys_model.specs.Scaling.{HoldsTimes};
ghost use Rattle.sym_blocks.specs.Tables.{before, entry_at};
ghost use Rattle.whole_numbers.specs.Intervals.{size};
ghost use Rattle.param_ids.specs.Order.{IsNames};
ghost use Rattle.param_ids.specs.Plain.{PlainId};
ghost use Rattle.snx_rows.specs.Blocks.{AreSound};
ghost use Rattle.snx_rows.specs.declared.rows.Shape.{Shape};
ghost use Rattle.snx_matrices.specs.Elements.{AreElementsOf};
ghost use Rattle.snx_matrices.specs.declared.elements.Content.TheVariants.{Cova};
ghost use Rattle.named_tables.specs.Tables.{HasNames};
ghost use Rattle.named_tables.specs.Weighted.{element_power, one_decimal};
ghost use Rattle.named_tables.specs.declared.faults.RecoverFault.{RecoverFault};
ghost use Rattle.named_tables.specs.declared.faults.RecoverError.TheVariants.{Memory, Fault};
ghost use Rattle.correlations.specs.Parts.{IsFaultAt, IsPlaceOf};
ghost use Rattle.correlations.specs.Correlations.{AreCovariances, OneCovariances};
ghost use Rattle.correlations.specs.Exact.{IsCorrelated, AreCorrelatedBy};

use crate::deviations::deviations_of;
use crate::triangles::{Unfit, filled};
use decimal_e::Dec;
use named_tables::{RecoverError, RecoverFault, exponents_of, shown_table};
use param_ids::{Names, Scales};
use snx_matrices::{Cell, Content};
use snx_rows::Row;
use std::alloc::Global;
use sym_blocks::SymBlock;

/// The number one.
#[tactic(auto, using(crate::proofs::OneLaws::one_is, crate::proofs::OneLaws::one_not_none))]
fn one() -> Dec
    ensures { result ≡ one_decimal }
{
    match Dec::new(1, 0) {
        Some(d) => d,
        None => unreachable!(),
    }
}

/// The cause at a place.
fn fault_at(names: &Names, unfit: Unfit) -> RecoverFault
    requires { IsPlaceOf (length names.now) unfit }
    ensures { IsFaultAt names.now unfit result }
{
    match unfit {
        Unfit::Bare { row } => RecoverFault::NoWeight { id: *names.at(row) },
        Unfit::Entry { row, col } => RecoverFault::Range {
            row: *names.at(row),
            col: *names.at(col),
        },
    }
}

/// The covariances of these names, from the elements of a matrix of correlations over rows: each correlation times both standard deviations,
/// times `10^(24 + t_i + t_j)`, where t are the scale exponents of the names. The standard deviations are those of the rows where each
/// diagonal element is exactly 1, and else the diagonal elements.
///
/// # Errors
///
/// The first cause, row by row in the order of the names: NoWeight, for a name whose standard deviation is missing or not positive, then
/// Range, up to the diagonal, where a correlation passes 1 in size or the interval of a covariance 10^34; or want of memory.
pub fn correlated<const N: usize>(
    alloc: Global,
    rows: &[Row],
    cells: &[Cell],
    scales: &Scales,
    names: &Names,
) -> Result<SymBlock<N>, RecoverError>
    requires rows { (shape : Shape) × AreSound shape rows.now }
    requires cells { AreElementsOf (length rows.now) cells.now }
    requires names { IsNames names.now }
    requires named { All (HasNames names.now rows.now) cells.now }
    ensures table { IfOk result (λ table. AreCovariances rows.now cells.now scales.now names.now (Ok table)) }
    ensures refused { IfErr result (λ cause. (cause ≡ Memory) ⊎ ((fault : RecoverFault) × (cause ≡ Fault fault) × AreCovariances rows.now cells.now scales.now names.now (Err fault))) }
    ensures holds { IfOk result (λ table. (i j : ℕ) (one other : PlainId) (x : ℤ) (q : ℕ) → slice_get names.now i ≡ Some one → slice_get names.now j ≡ Some other → 0 < q
        → IsCorrelated rows.now cells.now names.now one other x q → HoldsTimes (entry_at table i j) x q (element_power Cova scales.now one other)) }
    ensures exists { IfOk result (λ table. (q : ℕ) × HasOne (AreCorrelatedBy rows.now cells.now names.now q)) }
    ensures size { IfOk result (λ table. table.size ≡ length names.now) }
    ensures lower { IfOk result (λ table. length table.entries ≡ before table.size) }
    ensures modest { IfOk result (λ table. (i j : ℕ) → i < table.size → j < table.size → size (entry_at table i j) ≤ 10 ^ 34) }
{
    let deviations = deviations_of(alloc, rows, cells, names)?;
    let exponents = exponents_of(alloc, names, scales)?;
    let weight = one();
    let given = shown_table::<N>(alloc, Content::Corr, rows, cells, &weight, scales, names)?;
    let mut table = SymBlock::<N>::zero(alloc, names.len())?;
    match filled(&given, &deviations, &exponents, &mut table) {
        Some(unfit) => Err(RecoverError::Fault(fault_at(names, unfit))),
        None => Ok(table),
    }
}

/// There is one table of covariances, or one first cause, and never both.
pub fn one_covariances()
    ensures { OneCovariances }
{}
