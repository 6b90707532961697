//! The errors of all rows: what the approximate inverse R, the pilot, makes of the residual of a vector.

ghost use Rattle.std.specs.Prelude.{◌≡◌, ◌≤◌, ◌<◌, ◌^◌, ◌↔◌, ℕ, length, IfOk, IsTrue};
ghost use Rattle.whole_numbers.specs.Intervals.{size, sum_intervals};
ghost use Rattle.sys_model.specs.Systems.{residual_interval};
ghost use Rattle.whole_numbers.specs.Lists.{at};
ghost use Rattle.equil.specs.Tables.{table_of};
ghost use Rattle.enclosure_check.specs.Certificates.{AreErrors};
ghost use Rattle.enclosure_check.specs.Inputs.{IsRightSide};
ghost use Rattle.enclosure_check.specs.Rows.{entry_between, IsRowByVector};
ghost use Rattle.enclosure_check.specs.ErrorParts.{IsVector, taken_interval, AreResiduals, FitAfter, AreShifted, IsRowByEntries, part_interval, nth_entry, AreShiftedResiduals, shifted_error, AreShiftedErrors};
ghost use Rattle.enclosures.specs.Vectors.{IsSmall};
ghost use Rattle.stated_order.specs.First.{IsLeast};

use crate::ends::Ends;
use crate::working_rows::WorkingRows;
use enclosures::Pilot;
use interval_word::Iv;
use std::alloc::{AllocError, Global};
use whole_numbers::least_passed;

/// The greatest size of an interval that the pilot is multiplied with.
const SHIFTED_LIMIT: u128 = 1 << 66;

/// The shift after which any residual is at most that in size.
pub const MOST_SHIFT: u32 = 60;

/// The interval at `k`.
pub fn nth_entry(entries: &[Iv], k: usize) -> Iv
    requires { k < length entries.now }
    ensures { result ≡ nth_entry entries.now k }
{
    entries[k]
}

/// The ends at `k`.
fn nth_ends(entries: &[Ends], k: usize) -> Ends
    requires { k < length entries.now }
    ensures { result ≡ nth_entry entries.now k }
{
    entries[k]
}

/// The ends of the interval at `k`.
fn ends_of(d: &[Iv], k: usize) -> Ends
    requires { k < length d.now }
    ensures { result ≡ nth_entry d.now k }
{
    let interval = nth_entry(d, k);
    Ends {
        lo: interval.lo(),
        hi: interval.hi(),
    }
}

/// The ends of interval `j` of a row.
fn entry_between(low: &[i64], high: &[i64], j: usize) -> Ends
    requires low_end { j < length low.now }
    requires high_end { j < length high.now }
    ensures { result ≡ entry_between low.now high.now j }
{
    Ends {
        lo: i128::from(low[j]),
        hi: i128::from(high[j]),
    }
}

/// What number `j` of the vector takes of a row.
fn taken_interval(low: &[i64], high: &[i64], y: &[i128], j: usize) -> Ends
    requires row { IsRowByVector low.now high.now y.now }
    requires within { j < length y.now }
    ensures { result ≡ taken_interval low.now high.now y.now j }
{
    entry_between(low, high, j).times(y[j])
}

/// What the vector takes of a row.
fn taken(low: &[i64], high: &[i64], y: &[i128]) -> Ends
    requires { IsRowByVector low.now high.now y.now }
    ensures value { result ≡ sum_intervals (length y.now) (taken_interval low.now high.now y.now) }
    ensures bound { size result ≤ 2 ^ 125 }
{
    let mut sum = Ends { lo: 0, hi: 0 };
    for j in 0..y.len() {
        sum = sum.plus(taken_interval(low, high, y, j));
    }
    sum
}

/// The residual of the vector in row `i`.
fn residual_interval<const N: usize>(
    rows: &WorkingRows<'_, N>,
    d: &[Iv],
    y: &[i128],
    i: usize,
) -> Ends
    requires rights { IsRightSide rows.now.table.now.size d.now }
    requires vector { IsVector rows.now.table.now.size y.now }
    requires row { i < rows.now.table.now.size }
    ensures value { result ≡ residual_interval rows.now.table.now.size (table_of rows.now.table.now d.now) (at y.now) i }
    ensures bound { size result ≤ 2 ^ 126 }
{
    ends_of(d, i).minus(taken(rows.lows(i), rows.highs(i), y))
}

/// The residual of the vector, row by row.
fn residual_intervals<const N: usize>(
    alloc: Global,
    rows: &WorkingRows<'_, N>,
    d: &[Iv],
    y: &[i128],
) -> Result<Vec<Ends>, AllocError>
    requires rights { IsRightSide rows.now.table.now.size d.now }
    requires vector { IsVector rows.now.table.now.size y.now }
    ensures { IfOk result (λ v. AreResiduals rows.now.table.now.size (table_of rows.now.table.now d.now) (at y.now) v.items) }
{
    let mut entries = Vec::new(alloc);
    for i in 0..rows.table.size() {
        entries.push(residual_interval(rows, d, y, i))?;
    }
    Ok(entries)
}

/// Whether each interval is at most 2^66 in size after an outward shift by `h`.
fn fit_after(entries: &[Ends], h: u32) -> bool
    requires { h ≤ 60 }
    ensures { IsTrue result ↔ FitAfter entries.now h }
{
    for k in 0..entries.len() {
        if nth_ends(entries, k).shifted(h).magnitude() > SHIFTED_LIMIT {
            return false;
        }
    }
    true
}

/// The least outward shift after which each interval is at most 2^66 in size.
fn least_shift(entries: &[Ends]) -> u32
    requires { (k : ℕ) → k < length entries.now → size (nth_entry entries.now k) ≤ 2 ^ 126 }
    ensures few { result ≤ 60 }
    ensures least { IsLeast (FitAfter entries.now) result }
{
    least_passed(MOST_SHIFT, |h| fit_after(entries, h))
}

/// The intervals after an outward shift by `h`.
fn shifted_entries(alloc: Global, entries: &[Ends], h: u32) -> Result<Vec<Ends>, AllocError>
    requires { h ≤ 60 }
    ensures { IfOk result (λ v. AreShifted h entries.now v.items) }
{
    let mut shifted = Vec::new(alloc);
    for k in 0..entries.len() {
        shifted.push(nth_ends(entries, k).shifted(h))?;
    }
    Ok(shifted)
}

/// The product of number `k` of a row of the pilot and interval `k`.
fn part_interval(row: &[i64], entries: &[Ends], k: usize) -> Ends
    requires sizes { IsRowByEntries row.now entries.now }
    requires within { k < length entries.now }
    ensures { result ≡ part_interval row.now entries.now k }
{
    nth_ends(entries, k).times(i128::from(row[k]))
}

/// What a row of the pilot makes of the intervals.
fn row_by_entries(row: &[i64], entries: &[Ends]) -> Ends
    requires { IsRowByEntries row.now entries.now }
    ensures { result ≡ sum_intervals (length entries.now) (part_interval row.now entries.now) }
{
    let mut sum = Ends { lo: 0, hi: 0 };
    for k in 0..entries.len() {
        sum = sum.plus(part_interval(row, entries, k));
    }
    sum
}

/// The power 2^k.
#[tactic(auto, using(whole_numbers::proofs::Division::two_pow_le))]
fn two_to(k: u32) -> u128
    requires { k ≤ 110 }
    ensures value { result ≡ 2 ^ k }
    ensures some { 0 < result }
{
    1 << k
}

/// The error of row `i`: what the pilot makes of the intervals that were shifted by `h`, rounded up.
fn row_error(p: &Pilot, entries: &[Ends], h: u32, i: usize) -> u128
    requires sizes { AreShiftedResiduals p.now.size entries.now }
    requires few { h ≤ 60 }
    requires row { i < p.now.size }
    ensures { result ≡ shifted_error p.now entries.now h i }
{
    row_by_entries(p.row(i), entries)
        .magnitude()
        .div_ceil(two_to(p.g() + 60 - h))
}

/// The errors of all rows, from what the vector leaves shifted by `h`.
fn errors_of(alloc: Global, p: &Pilot, entries: &[Ends], h: u32) -> Result<Vec<u128>, AllocError>
    requires sizes { AreShiftedResiduals p.now.size entries.now }
    requires few { h ≤ 60 }
    ensures { IfOk result (λ v. AreShiftedErrors p.now entries.now h v.items) }
{
    let mut errors = Vec::new(alloc);
    for i in 0..p.size() {
        errors.push(row_error(p, entries, h, i))?;
    }
    Ok(errors)
}

/// The errors of all rows at the vector `y`, for one right side of the table. The greater work, the defects, is no part of
/// it, so each further right side of a table costs `errors` and `certificate` alone.
pub fn errors<const N: usize>(
    alloc: Global,
    rows: &WorkingRows<'_, N>,
    d: &[Iv],
    p: &Pilot,
    y: &[i128],
) -> Result<Vec<u128>, AllocError>
    requires rights { IsRightSide rows.now.table.now.size d.now }
    requires sizes { p.now.size ≡ rows.now.table.now.size }
    requires len { length y.now ≡ rows.now.table.now.size }
    requires small { IsSmall rows.now.table.now.size (at y.now) }
    ensures { IfOk result (λ v. AreErrors rows.now.table.now.size (table_of rows.now.table.now d.now) p.now (at y.now) v.items) }
{
    let entries = residual_intervals(alloc, rows, d, y)?;
    let h = least_shift(&entries);
    let shifted = shifted_entries(alloc, &entries, h)?;
    errors_of(alloc, p, &shifted, h)
}
