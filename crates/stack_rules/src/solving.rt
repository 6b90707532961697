//! The steps, one after another.

ghost use Rattle.std.specs.Prelude.{◌≡◌, ◌≤◌, ◌<◌, ◌^◌, ◌⊎◌, ℕ, length, All, IfOk, IfErr, Ok, Err};
ghost use Rattle.whole_numbers.specs.Lists.{at};
ghost use Rattle.sys_model.specs.Systems.{Encloses};
ghost use Rattle.chol_guess.specs.Midpoints.{midpoints};
ghost use Rattle.enclosures.specs.Radii.{radius_at};
ghost use Rattle.enclosure_check.specs.Enclosures.{enclosure_of, IsEnclosureStep};
ghost use Rattle.enclosure_check.specs.declared.EncloseError.TheVariants as enclose;
ghost use Rattle.dominant_laws.specs.Dominant.{IsDominant};
ghost use Rattle.decimal_e.specs.Fractions.{IsAtMost};
ghost use Rattle.equil.specs.Tables.{table_of};
ghost use Rattle.bounds_report.specs.Bounds.{AreCertified};
ghost use Rattle.bounds_report.specs.Printing.{AreScaleExponents, decimal_at, numbers_at, HasSmallDeviation};
ghost use Rattle.stack_rules.specs.Dominance.{DominantAreEnclosed};
ghost use Rattle.stack_rules.specs.Rules.{IsAnswer, IsRefusedWith, numbers_in};
ghost use Rattle.stack_rules.specs.Stacks.{stack_of};

use crate::{Solved, StackError};
use bounds_report::printed;
use decimal_e::Dec;
use dominant_laws::{dominant, enclose_dominant};
use enclosure_check::{EncloseError, enclose};
use enclosures::Enclosed;
use equil::{Working, working};
use interval_word::Iv;
use std::alloc::Global;
use std::thread::Threads;
use sym_blocks::SymBlock;

/// The enclosure of a working table. Of a dominant one nothing but memory can be wanting.
fn enclosure<R: Threads + Sync, const N: usize>(
    rt: &R,
    alloc: Global,
    w: &Working<N>,
    workers: usize,
) -> Result<Enclosed, EncloseError>
    requires some_workers { 1 ≤ workers }
    requires few_workers { workers ≤ 16 }
    ensures enclosed { IfOk result (λ e. IsEnclosureStep w.now.a.size (table_of w.now.a w.now.d.items) (midpoints w.now.a) (Ok (enclosure_of e))) }
    ensures encloses { IfOk result (λ e. Encloses w.now.a.size (table_of w.now.a w.now.d.items) (at e.y.items) (radius_at e.radius)) }
    ensures size { IfOk result (λ e. e.pilot.size ≡ w.now.a.size) }
    ensures refused { IfErr result (λ cause. (cause ≡ enclose.Memory) ⊎ IsEnclosureStep w.now.a.size (table_of w.now.a w.now.d.items) (midpoints w.now.a) (Err cause)) }
    ensures dominant { IsDominant w.now.a.size (table_of w.now.a w.now.d.items) → IfErr result (λ cause. cause ≡ enclose.Memory) }
{
    if dominant(w) {
        match enclose_dominant(rt, alloc, w, workers) {
            Ok(e) => Ok(e),
            Err(_) => Err(EncloseError::Memory),
        }
    } else {
        enclose(rt, alloc, w, workers)
    }
}

/// The numbers of the stack's report. They are certified: each solution of each system in the stack lies between the printed
/// bounds, two solutions are equal, and the estimates leave at most the printed residuals. The deviations are not certified.
///
/// A refusal comes exactly where a rule refuses, with the first cause. The number of workers is from 1 to 16.
pub fn certify<R: Threads + Sync, const N: usize>(
    rt: &R,
    alloc: Global,
    table: &SymBlock<N>,
    right: &[Iv],
    apriori: &[Dec],
    scales: &[i32],
    workers: usize,
) -> Result<Solved, StackError>
    requires rights { length right.now ≡ table.now.size }
    requires values { length apriori.now ≡ table.now.size }
    requires scales { length scales.now ≡ table.now.size }
    requires scaled { AreScaleExponents scales.now }
    requires modest { (i : ℕ) → i < length apriori.now → IsAtMost (10 ^ 12) (decimal_at apriori.now i) }
    requires some_workers { 1 ≤ workers }
    requires few_workers { workers ≤ 16 }
    ensures answer { IfOk result (λ s. IsAnswer (stack_of table.now right.now apriori.now scales.now) (Ok (numbers_in s))) }
    ensures refused { IfErr result (IsRefusedWith (stack_of table.now right.now apriori.now scales.now)) }
    ensures certified { IfOk result (λ s. AreCertified table.now.size (table_of table.now right.now) (at scales.now) (decimal_at apriori.now) (numbers_at s.rows.items)) }
    ensures deviations { IfOk result (λ s. All HasSmallDeviation s.rows.items) }
{
    let w = working(alloc, table, right)?;
    let e = enclosure(rt, alloc, &w, workers)?;
    let rows = printed(alloc, apriori, scales, &w, &e)?;
    Ok(Solved {
        g: e.pilot.g(),
        parts: e.radius.b,
        error: e.radius.m,
        rows,
    })
}

/// A stack whose working table is dominant is refused where the numbers of a row can't be printed, and nowhere else.
pub fn dominant_are_enclosed()
    ensures { DominantAreEnclosed }
{}
