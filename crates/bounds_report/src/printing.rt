//! The printed numbers of all rows.

ghost use Rattle.std.specs.Prelude.{◌≡◌, ◌≤◌, ◌<◌, ◌^◌, ℕ, pos, ◌-ℤ◌, length, slice_index_or, All, IfOk, IfErr};
ghost use Rattle.std.specs.Vec.{vec_len};
ghost use Rattle.decimal_e.specs.Fractions.{IsAtMost};
ghost use Rattle.equil.specs.Tables.{table_of};
ghost use Rattle.whole_numbers.specs.Lists.{at};
ghost use Rattle.enclosures.specs.Radii.{radius_at};
ghost use Rattle.bounds_report.specs.Printing.{decimal_at, row_power, AreScaleExponents, numbers_at, ArePrinted, IsNearPower, HasSmallDeviation};
ghost use Rattle.bounds_report.specs.Refusals.{IsPrintRefused};
ghost use Rattle.bounds_report.specs.Residuals.{AreSmallIntervals, numbers_from, AreRowsPrinted, AreRowsRefused};
ghost use Rattle.bounds_report.specs.Rows.{row_count, power_at};

use crate::PrintError;
use crate::deviations::{deviation, deviation_place};
use crate::differences::all_differences;
use crate::ends::{Ends, all_ends};
use crate::numbers::Printed;
use crate::residuals::residual;
use crate::rows::Rows;
use decimal_e::Dec;
use enclosures::Enclosed;
use equil::Working;
use interval_word::Iv;
use std::alloc::{AllocError, Global};

/// The power of ten of the residual's unit in a row.
fn place(rows: &Rows, i: usize) -> i32
    requires { i < row_count rows.now }
    ensures value { result ≡ power_at rows.now i -ℤ pos 30 }
    ensures near { IsNearPower result }
{
    rows.power(i) - 30
}

/// The numbers of a row, from its ends and the differences.
fn numbers<const N: usize>(
    w: &Working<N>,
    rows: &Rows,
    ends: &[Ends],
    zs: &[Iv],
    i: usize,
) -> Printed
    requires count { row_count rows.now ≡ w.now.a.size }
    requires ends { length ends.now ≡ w.now.a.size }
    requires differences { AreSmallIntervals w.now.a.size zs.now }
    requires row { i < w.now.a.size }
    ensures value { result ≡ numbers_from w.now.a.size (table_of w.now.a w.now.d.items) rows.now ends.now zs.now i }
    ensures deviation { HasSmallDeviation result }
{
    let of_row = ends[i];
    Printed {
        estimate: of_row.estimate,
        lower: of_row.lower,
        upper: of_row.upper,
        residual: residual(w, zs, i),
        place: place(rows, i),
        deviation: deviation(rows, i),
        deviation_place: deviation_place(rows, i),
    }
}

/// The numbers of all rows, from their ends and the differences.
fn all_numbers<const N: usize>(
    alloc: Global,
    w: &Working<N>,
    rows: &Rows,
    ends: &[Ends],
    zs: &[Iv],
) -> Result<Vec<Printed>, AllocError>
    requires count { row_count rows.now ≡ w.now.a.size }
    requires ends { length ends.now ≡ w.now.a.size }
    requires differences { AreSmallIntervals w.now.a.size zs.now }
    ensures len { IfOk result (λ ps. vec_len ps ≡ w.now.a.size) }
    ensures rows { IfOk result (λ ps. (i : ℕ) → i < w.now.a.size → numbers_at ps.items i ≡ numbers_from w.now.a.size (table_of w.now.a w.now.d.items) rows.now ends.now zs.now i) }
    ensures deviations { IfOk result (λ ps. All HasSmallDeviation ps.items) }
{
    let mut all = Vec::new(alloc);
    for i in 0..ends.len() {
        all.push(numbers(w, rows, ends, zs, i))?;
    }
    Ok(all)
}

/// The printed numbers of the rows. Range comes as `printed` says.
fn rows_printed<const N: usize>(
    alloc: Global,
    rows: &Rows,
    w: &Working<N>,
) -> Result<Vec<Printed>, PrintError>
    requires count { row_count rows.now ≡ w.now.a.size }
    ensures printed { IfOk result (λ ps. AreRowsPrinted w.now.a.size (table_of w.now.a w.now.d.items) rows.now ps.items) }
    ensures deviations { IfOk result (λ ps. All HasSmallDeviation ps.items) }
    ensures refused { IfErr result (AreRowsRefused w.now.a.size rows.now) }
{
    let ends = all_ends(alloc, rows)?;
    let zs = all_differences(alloc, rows, &ends)?;
    match all_numbers(alloc, w, rows, &ends, &zs) {
        Ok(all) => Ok(all),
        Err(_) => Err(PrintError::Memory),
    }
}

/// The printed numbers of all rows, with the a priori value and the scale exponent of each. The deviations are those of the
/// approximate inverse, and are not certified. Range comes exactly where a bound or the estimate of a row can't be printed, with
/// the first such row, and else where the sizes of the differences of the estimates from the a priori values pass 2^65 in sum,
/// with the row at which they first do.
pub fn printed<const N: usize>(
    alloc: Global,
    apriori: &[Dec],
    scales: &[i32],
    w: &Working<N>,
    e: &Enclosed,
) -> Result<Vec<Printed>, PrintError>
    requires rows { e.now.pilot.size ≡ w.now.a.size }
    requires scales { length scales.now ≡ w.now.a.size }
    requires scaled { AreScaleExponents scales.now }
    requires len { length apriori.now ≡ w.now.a.size }
    requires modest { (i : ℕ) → i < length apriori.now → IsAtMost (10 ^ 12) (decimal_at apriori.now i) }
    ensures printed { IfOk result (λ ps. ArePrinted w.now.a.size (table_of w.now.a w.now.d.items) e.now.pilot (row_power w.now.e.items scales.now) (decimal_at apriori.now) (at e.now.y.items) (radius_at e.now.radius) ps.items) }
    ensures deviations { IfOk result (λ ps. All HasSmallDeviation ps.items) }
    ensures refused { IfErr result (IsPrintRefused w.now.a.size (row_power w.now.e.items scales.now) (decimal_at apriori.now) (at e.now.y.items) (radius_at e.now.radius)) }
{
    rows_printed(
        alloc,
        &Rows::new(&w.e, scales, apriori, &e.y, &e.radius.w, &e.pilot),
        w,
    )
}
