//! The start vector: three refinements from 0, each by what the approximate inverse R, the pilot, makes of the residual.

ghost use Rattle.std.specs.Prelude.{◌≡◌, ◌≤◌, ◌<◌, ◌+◌, ◌^◌, ◌↔◌, pos, length, replicate, unsigned_abs, IsTrue, IfOk, IfErr, MatchResult};
ghost use Rattle.std.specs.Vec.{vec_len};
ghost use Rattle.whole_numbers.specs.Intervals.{midpoint};
ghost use Rattle.whole_numbers.specs.Sum.{sum_to};
ghost use Rattle.whole_numbers.specs.Lists.{at, AllAtMost};
ghost use Rattle.equil.specs.Tables.{table_of};
ghost use Rattle.enclosure_check.specs.Answers.{IsVectorRefused};
ghost use Rattle.enclosure_check.specs.Rows.{IsRowByVector};
ghost use Rattle.enclosure_check.specs.ErrorParts.{IsVector};
ghost use Rattle.enclosure_check.specs.Inputs.{IsRightSide};
ghost use Rattle.enclosures.specs.Vectors.{IsSmall};
ghost use Rattle.enclosure_check.specs.VectorParts.{taken_midpoint, AreMidpointResiduals, AreFloors, IsRowByNumbers, part_number, AreShiftedNumbers, correction_at, corrected_at, AreSmallNumbers, IsPassed, IsRefined, IsRefinementRefused};
ghost use Rattle.enclosure_check.specs.Vectors.{IsStartVector, AllFitAfter, midpoint_residual};
ghost use Rattle.enclosure_check.specs.declared.VectorError.TheVariants.{Memory};
ghost use Rattle.stated_order.specs.First.{IsLeast};

use crate::VectorError;
use crate::factors::Factors;
use crate::products::{long_product, short_product};
use crate::row_errors::{MOST_SHIFT, nth_entry};
use crate::working_rows::WorkingRows;
use enclosures::Pilot;
use interval_word::Iv;
use std::alloc::{AllocError, AllocFailed, Global};
use whole_numbers::{least_passed, shift_floor};

/// The greatest size of a number that the pilot is multiplied with.
const SHIFTED_LIMIT: u128 = 1 << 66;

/// What the sizes of a vector may add up to.
const TOTAL_LIMIT: u128 = 1 << 64;

/// How many refinements lead to the start vector.
const REFINEMENTS: usize = 3;

impl<T: Drop> From<AllocFailed<T>> for VectorError {
    ghost from_gives = { λ _ e. e ≡ Memory };

    fn from(_e: AllocFailed<T>) -> VectorError {
        VectorError::Memory
    }
}

impl From<AllocError> for VectorError {
    ghost from_gives = { λ _ e. e ≡ Memory };

    fn from(_e: AllocError) -> VectorError {
        VectorError::Memory
    }
}

/// Half the sum of two ends, rounded down.
fn middle(low: i64, high: i64) -> i64
    requires low_end { unsigned_abs low ≤ 2 ^ 61 }
    requires high_end { unsigned_abs high ≤ 2 ^ 61 }
    ensures { result ≡ midpoint (record { lo = low; hi = high }) }
{
    (low + high) >> 1
}

/// What number `j` of the vector takes of a row, by the midpoint of the interval.
fn taken_midpoint(low: &[i64], high: &[i64], y: &[i128], j: usize) -> i128
    requires row { IsRowByVector low.now high.now y.now }
    requires within { j < length y.now }
    ensures { result ≡ taken_midpoint low.now high.now y.now j }
{
    short_product(i128::from(middle(low[j], high[j])), y[j])
}

/// What a vector takes of a row, by the midpoints of its intervals.
fn wide_taken(low: &[i64], high: &[i64], y: &Factors) -> i128
    requires { IsRowByVector low.now high.now y.now.numbers.now }
    ensures { result ≡ sum_to (length y.now.numbers.now) (taken_midpoint low.now high.now y.now.numbers.now) }
{
    let mut sum: i128 = 0;
    for j in y.first..y.end {
        sum += taken_midpoint(low, high, y.numbers, j);
    }
    sum
}

/// The same of a vector whose numbers fit 64 bits.
fn short_taken(low: &[i64], high: &[i64], y: &Factors) -> i128
    requires row { IsRowByVector low.now high.now y.now.numbers.now }
    requires short { y.now.end ≤ length y.now.short.items }
    ensures { result ≡ sum_to (length y.now.numbers.now) (taken_midpoint low.now high.now y.now.numbers.now) }
{
    let short = y.short.as_slice();
    let mut sum: i128 = 0;
    for j in y.first..y.end {
        sum += long_product(middle(low[j], high[j]), short[j]);
    }
    sum
}

/// What the vector takes of a row, by the midpoints of its intervals.
fn taken(low: &[i64], high: &[i64], y: &Factors) -> i128
    requires { IsRowByVector low.now high.now y.now.numbers.now }
    ensures value { result ≡ sum_to (length y.now.numbers.now) (taken_midpoint low.now high.now y.now.numbers.now) }
    ensures bound { unsigned_abs result ≤ 2 ^ 125 }
{
    if y.is_short() {
        short_taken(low, high, y)
    } else {
        wide_taken(low, high, y)
    }
}

/// The residual of the vector in row `i`, by the midpoints of the intervals.
fn midpoint_residual<const N: usize>(
    rows: &WorkingRows<'_, N>,
    d: &[Iv],
    y: &Factors,
    i: usize,
) -> i128
    requires rights { IsRightSide rows.now.table.now.size d.now }
    requires vector { IsVector rows.now.table.now.size y.now.numbers.now }
    requires row { i < rows.now.table.now.size }
    ensures value { result ≡ midpoint_residual rows.now.table.now.size (table_of rows.now.table.now d.now) (at y.now.numbers.now) i }
    ensures bound { unsigned_abs result ≤ 2 ^ 126 }
{
    nth_entry(d, i).mid() - taken(rows.lows(i), rows.highs(i), y)
}

/// The residual of the vector, row by row.
fn midpoint_residuals<const N: usize>(
    alloc: Global,
    rows: &WorkingRows<'_, N>,
    d: &[Iv],
    y: &[i128],
) -> Result<Vec<i128>, AllocError>
    requires rights { IsRightSide rows.now.table.now.size d.now }
    requires vector { IsVector rows.now.table.now.size y.now }
    ensures { IfOk result (λ v. AreMidpointResiduals rows.now.table.now.size (table_of rows.now.table.now d.now) (at y.now) v.items) }
{
    let factors = Factors::of(alloc, y)?;
    let mut numbers = Vec::new(alloc);
    for i in 0..rows.table.size() {
        numbers.push(midpoint_residual(rows, d, &factors, i))?;
    }
    Ok(numbers)
}

/// Whether each number over 2^h is at most 2^66 in size.
fn fit_after(numbers: &[i128], h: u32) -> bool
    requires { h ≤ 60 }
    ensures { IsTrue result ↔ AllFitAfter (length numbers.now) (at numbers.now) h }
{
    for k in 0..numbers.len() {
        if shift_floor(numbers[k], h).unsigned_abs() > SHIFTED_LIMIT {
            return false;
        }
    }
    true
}

/// The least shift after which each number is at most 2^66 in size.
fn least_shift(numbers: &[i128]) -> u32
    requires { AllAtMost (2 ^ 126) numbers.now }
    ensures few { result ≤ 60 }
    ensures least { IsLeast (AllFitAfter (length numbers.now) (at numbers.now)) result }
{
    least_passed(MOST_SHIFT, |h| fit_after(numbers, h))
}

/// The numbers over 2^h, rounded down.
fn floors(alloc: Global, numbers: &[i128], h: u32) -> Result<Vec<i128>, AllocError>
    requires { h ≤ 60 }
    ensures { IfOk result (λ v. AreFloors h numbers.now v.items) }
{
    let mut shifted = Vec::new(alloc);
    for k in 0..numbers.len() {
        shifted.push(shift_floor(numbers[k], h))?;
    }
    Ok(shifted)
}

/// The product of number `k` of a row of the pilot and number `k`.
fn part_number(row: &[i64], numbers: &[i128], k: usize) -> i128
    requires sizes { IsRowByNumbers row.now numbers.now }
    requires within { k < length numbers.now }
    ensures { result ≡ part_number row.now numbers.now k }
{
    short_product(i128::from(row[k]), numbers[k])
}

/// What a row of the pilot makes of numbers.
fn row_by_wide(row: &[i64], numbers: &Factors) -> i128
    requires { IsRowByNumbers row.now numbers.now.numbers.now }
    ensures { result ≡ sum_to (length numbers.now.numbers.now) (part_number row.now numbers.now.numbers.now) }
{
    let mut sum: i128 = 0;
    for k in numbers.first..numbers.end {
        sum += part_number(row, numbers.numbers, k);
    }
    sum
}

/// The same of numbers that fit 64 bits.
fn row_by_short(row: &[i64], numbers: &Factors) -> i128
    requires sizes { IsRowByNumbers row.now numbers.now.numbers.now }
    requires short { numbers.now.end ≤ length numbers.now.short.items }
    ensures { result ≡ sum_to (length numbers.now.numbers.now) (part_number row.now numbers.now.numbers.now) }
{
    let short = numbers.short.as_slice();
    let mut sum: i128 = 0;
    for k in numbers.first..numbers.end {
        sum += long_product(row[k], short[k]);
    }
    sum
}

/// What a row of the pilot makes of the numbers.
fn row_by_numbers(row: &[i64], numbers: &Factors) -> i128
    requires { IsRowByNumbers row.now numbers.now.numbers.now }
    ensures value { result ≡ sum_to (length numbers.now.numbers.now) (part_number row.now numbers.now.numbers.now) }
    ensures bound { unsigned_abs result ≤ 2 ^ 126 }
{
    if numbers.is_short() {
        row_by_short(row, numbers)
    } else {
        row_by_wide(row, numbers)
    }
}

/// The correction of row `i`: what the pilot makes of the numbers, which were shifted by `h`.
fn correction_at(p: &Pilot, numbers: &Factors, h: u32, i: usize) -> i128
    requires numbers { AreShiftedNumbers p.now.size numbers.now.numbers.now }
    requires few { h ≤ 60 }
    requires row { i < p.now.size }
    ensures value { result ≡ correction_at p.now numbers.now.numbers.now h i }
    ensures bound { unsigned_abs result ≤ 2 ^ 126 }
{
    shift_floor(row_by_numbers(p.row(i), numbers), p.g() + 60 - h)
}

/// Number `i` of the vector and its correction.
fn corrected_at(p: &Pilot, y: &[i128], numbers: &Factors, h: u32, i: usize) -> i128
    requires vector { IsVector p.now.size y.now }
    requires numbers { AreShiftedNumbers p.now.size numbers.now.numbers.now }
    requires few { h ≤ 60 }
    requires row { i < p.now.size }
    ensures value { result ≡ corrected_at p.now y.now numbers.now.numbers.now h i }
    ensures bound { unsigned_abs result ≤ 2 ^ 64 + 2 ^ 126 }
{
    y[i] + correction_at(p, numbers, h, i)
}

/// The vector and its corrections. Range comes exactly where the sizes pass 2^64 in sum, with the row at which they first do.
fn corrected(
    alloc: Global,
    p: &Pilot,
    y: &[i128],
    numbers: &[i128],
    h: u32,
) -> Result<Vec<i128>, VectorError>
    requires vector { IsVector p.now.size y.now }
    requires numbers { AreShiftedNumbers p.now.size numbers.now }
    requires few { h ≤ 60 }
    ensures { MatchResult result (λ z. AreSmallNumbers p.now.size (corrected_at p.now y.now numbers.now h) z.items) (IsPassed p.now.size (corrected_at p.now y.now numbers.now h)) }
{
    let factors = Factors::of(alloc, numbers)?;
    let mut z = Vec::new(alloc);
    let mut total: u128 = 0;
    for row in 0..p.size() {
        let number = corrected_at(p, y, &factors, h, row);
        total += number.unsigned_abs();
        if total > TOTAL_LIMIT {
            return Err(VectorError::Range { row });
        }
        z.push(number)?;
    }
    Ok(z)
}

/// The vector after one refinement from `y`. Range comes exactly where its sizes pass 2^64 in sum, with the row at which they
/// first do.
fn refine<const N: usize>(
    alloc: Global,
    rows: &WorkingRows<'_, N>,
    d: &[Iv],
    p: &Pilot,
    y: &[i128],
) -> Result<Vec<i128>, VectorError>
    requires rights { IsRightSide rows.now.table.now.size d.now }
    requires sizes { p.now.size ≡ rows.now.table.now.size }
    requires vector { IsVector rows.now.table.now.size y.now }
    ensures { MatchResult result (λ z. IsRefined rows.now.table.now.size (table_of rows.now.table.now d.now) p.now (at y.now) z.items) (IsRefinementRefused rows.now.table.now.size (table_of rows.now.table.now d.now) p.now (at y.now)) }
{
    let numbers = midpoint_residuals(alloc, rows, d, y)?;
    let h = least_shift(&numbers);
    let shifted = floors(alloc, &numbers, h)?;
    corrected(alloc, p, y, &shifted, h)
}

/// The vector of zeros.
fn zeros(alloc: Global, n: usize) -> Result<Vec<i128>, AllocError>
    ensures { IfOk result (λ v. v.items ≡ replicate n (pos 0)) }
{
    vec![in alloc; 0i128; n]
}

/// The start vector of a right side and the pilot, in units of the working table. Range comes exactly where after one of the
/// three refinements the sizes of the vector pass 2^64 in sum, with the row at which they first do.
pub fn start_vector<const N: usize>(
    alloc: Global,
    rows: &WorkingRows<'_, N>,
    d: &[Iv],
    p: &Pilot,
) -> Result<Vec<i128>, VectorError>
    requires rights { IsRightSide rows.now.table.now.size d.now }
    requires sizes { p.now.size ≡ rows.now.table.now.size }
    ensures len { IfOk result (λ y. vec_len y ≡ rows.now.table.now.size) }
    ensures vector { IfOk result (λ y. IsStartVector rows.now.table.now.size (table_of rows.now.table.now d.now) p.now (at y.items)) }
    ensures small { IfOk result (λ y. IsSmall rows.now.table.now.size (at y.items)) }
    ensures refused { IfErr result (IsVectorRefused rows.now.table.now.size (table_of rows.now.table.now d.now) p.now) }
{
    let mut y = zeros(alloc, rows.table.size())?;
    for k in 0..REFINEMENTS {
        y = refine(alloc, rows, d, p, &y)?;
    }
    Ok(y)
}
