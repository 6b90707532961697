//! The inverse of a table of intervals.

ghost use Rattle.std.specs.Prelude.{◌≡◌, ◌≤◌, ◌<◌, ◌⊎◌, ◌^◌, ◌≤ℤ◌, ℕ, pos, negsuc, length, IfOk, IfErr, Ok, Err};
ghost use Rattle.whole_numbers.specs.Intervals.{size};
ghost use Rattle.sym_blocks.specs.Tables.{before, entry_at};
ghost use Rattle.inv_enclose.specs.Columns.{IsInverted, OneInverse};
ghost use Rattle.inv_enclose.specs.Inverses.{HoldsInverses, HaveInverses};
ghost use Rattle.inv_enclose.specs.declared.InvError.TheVariants.{Memory};

use crate::InvError;
use crate::columns::zeros;
use crate::limits::first_past;
use crate::tables::shown_by_either;
use chol_guess::pilot;
use equil::working;
use std::alloc::Global;
use std::thread::Threads;
use sym_blocks::SymBlock;

/// The inverse of a table, times 10^(18 + kappa): for each symmetric table of fractions Q that the intervals hold, and each E with
/// Q E = 1, the answered intervals hold the elements of E times 10^(18 + kappa); and there is such an E.
///
/// # Errors
///
/// The first cause for which there is none, exactly where a rule refuses: Range, of the working table; Pivot and Condition; then, where a
/// column by the pilot and one by the pilot transposed are refused, column by column of those by the pilot Range of its start vector, with
/// row and column, Residual and Defect; then Range of the intervals of the inverse past 10^34 in size, row by row up to the diagonal; or
/// want of memory. The number of workers, from 1 to 16, has no effect yet.
pub fn inverse<R: Threads + Sync, const N: usize>(
    rt: &R,
    alloc: Global,
    table: &SymBlock<N>,
    kappa: i32,
    workers: usize,
) -> Result<SymBlock<N>, InvError>
    requires low { negsuc 99 ≤ℤ kappa }
    requires high { kappa ≤ℤ pos 100 }
    requires some_workers { 1 ≤ workers }
    requires few_workers { workers ≤ 16 }
    ensures inverse { IfOk result (λ out. IsInverted table.now kappa (Ok out)) }
    ensures refused { IfErr result (λ cause. (cause ≡ Memory) ⊎ IsInverted table.now kappa (Err cause)) }
    ensures holds { IfOk result (HoldsInverses table.now kappa) }
    ensures exists { IfOk result (λ out. HaveInverses table.now) }
    ensures size { IfOk result (λ out. out.size ≡ table.now.size) }
    ensures lower { IfOk result (λ out. length out.entries ≡ before out.size) }
    ensures modest { IfOk result (λ out. (i j : ℕ) → i < out.size → j < out.size → size (entry_at out i j) ≤ 10 ^ 34) }
{
    let zeros = zeros(alloc, table.size())?;
    let w = working(alloc, table, &zeros)?;
    let pilot = pilot(rt, alloc, &w, workers)?;
    let shown = shown_by_either(alloc, &w, &pilot, kappa)?;
    match first_past(&shown) {
        Some((row, col)) => Err(InvError::Range { row, col }),
        None => Ok(shown),
    }
}

/// There is one inverse, or one first cause, and never both.
pub fn one_inverse()
    ensures { OneInverse }
{}
