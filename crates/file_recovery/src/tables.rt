//! The table of the constraints.

ghost use Rattle.std.specs.Prelude.{◌≡◌, ◌≤◌, ◌⊎◌, All, IfOk, IfErr, List, Ok, Err, length};
ghost use Rattle.decimal_e.specs.Decimals.{Decimal};
ghost use Rattle.param_ids.specs.Order.{IsNames};
ghost use Rattle.param_ids.specs.Tables.{ScaleMap};
ghost use Rattle.snx_rows.specs.Blocks.{AreSound};
ghost use Rattle.snx_rows.specs.declared.rows.Row.{Row as PlainRow};
ghost use Rattle.snx_rows.specs.declared.rows.Shape.TheVariants.{Value};
ghost use Rattle.snx_matrices.specs.Elements.{AreElementsOf};
ghost use Rattle.named_tables.specs.Naming.{AreNamesOf};
ghost use Rattle.named_tables.specs.Tables.{HasNames};
ghost use Rattle.named_tables.specs.Weighted.{IsWeight};
ghost use Rattle.named_tables.specs.declared.faults.RecoverError.TheVariants.{Memory, Fault};
ghost use Rattle.named_tables.specs.declared.faults.RecoverFault.{RecoverFault};
ghost use Rattle.recover_solution.specs.Recovery.{estimated};
ghost use Rattle.recover_solution.specs.Solutions as plain;
ghost use Rattle.recover_solution.specs.Solutions.{touched_names};
ghost use Rattle.recover_solution.specs.Views.{IsRead, solution_view};
ghost use Rattle.file_recovery.specs.Solved.{IsConstraintTable};
ghost use Rattle.file_recovery.specs.Parts.{IsConstraintTableOf};

use crate::spreading::spread;
use decimal_e::Dec;
use information_tables::information_of;
use named_tables::RecoverError;
use param_ids::{Names, Scales};
use recover_solution::{Constraint, Solution, sigma_table, touched_names};
use snx_matrices::{Cell, Content};
use snx_rows::Row;
use std::alloc::Global;
use std::thread::Threads;
use sym_blocks::SymBlock;

/// The table of the constraints of a matrix over the a priori rows: its information matrix for the names that an element touches, spread over
/// all names.
fn matrix_table<R: Threads + Sync, const N: usize>(
    rt: &R,
    alloc: Global,
    apriori: &[Row],
    content: Content,
    cells: &[Cell],
    weight: &Dec,
    scales: &Scales,
    names: &Names,
    workers: usize,
) -> Result<SymBlock<N>, RecoverError>
    requires rows { AreSound Value apriori.now }
    requires cells { AreElementsOf (length apriori.now) cells.now }
    requires names { IsNames names.now }
    requires named { All (HasNames (touched_names apriori.now cells.now names.now) apriori.now) cells.now }
    requires weight { IsWeight weight.now }
    requires some_workers { 1 ≤ workers }
    requires few_workers { workers ≤ 16 }
    ensures known { IfOk result (λ table. IsConstraintTableOf (plain.Matrix content cells.now) apriori.now weight.now scales.now names.now table) }
    ensures refused { IfErr result (λ cause. (cause ≡ Memory) ⊎ ((fault : RecoverFault) × (cause ≡ Fault fault)
        × IsConstraintTable (plain.Matrix content cells.now) apriori.now weight.now scales.now names.now (Err fault))) }
{
    let part = touched_names(alloc, apriori, cells, names)?;
    let small = information_of::<R, N>(
        rt, alloc, apriori, content, cells, weight, scales, &part, workers,
    )?;
    Ok(spread(alloc, names, &part, &small)?)
}

/// The table without constraints.
fn zero_table<const N: usize>(alloc: Global, names: &Names) -> Result<SymBlock<N>, RecoverError>
    requires { IsNames names.now }
    ensures refused { IfErr result (λ cause. cause ≡ Memory) }
    ensures known { IfOk result (λ table. (apriori : List PlainRow) (weight : Decimal) (scales : ScaleMap) → IsConstraintTableOf plain.Free apriori weight scales names.now table) }
{
    Ok(SymBlock::<N>::zero(alloc, names.len())?)
}

/// The table of the constraints of a solution, for the names of its parameters.
pub(crate) fn constraint_table<R: Threads + Sync, const N: usize>(
    rt: &R,
    alloc: Global,
    solution: &Solution<'_>,
    weight: &Dec,
    scales: &Scales,
    names: &Names,
    workers: usize,
) -> Result<SymBlock<N>, RecoverError>
    requires read { IsRead (solution_view solution.now) }
    requires weight { IsWeight weight.now }
    requires names { AreNamesOf (solution_view solution.now).estimates names.now }
    requires estimated { Ok tt ≡ estimated (solution_view solution.now) }
    requires some_workers { 1 ≤ workers }
    requires few_workers { workers ≤ 16 }
    ensures known { IfOk result (λ table. IsConstraintTableOf (solution_view solution.now).constraint (solution_view solution.now).apriori weight.now scales.now names.now table) }
    ensures refused { IfErr result (λ cause. (cause ≡ Memory) ⊎ ((fault : RecoverFault) × (cause ≡ Fault fault)
        × IsConstraintTable (solution_view solution.now).constraint (solution_view solution.now).apriori weight.now scales.now names.now (Err fault))) }
{
    match solution.constraint {
        Constraint::Free => zero_table(alloc, names),
        Constraint::Matrix(content, cells) => matrix_table(
            rt,
            alloc,
            solution.apriori,
            content,
            cells,
            weight,
            scales,
            names,
            workers,
        ),
        Constraint::Sigmas => sigma_table(alloc, solution.apriori, weight, scales, names),
    }
}
