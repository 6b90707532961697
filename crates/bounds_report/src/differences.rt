//! The working differences of the estimates from the a priori values.

ghost use Rattle.std.specs.Prelude.{◌≡◌, ◌≤◌, ◌<◌, ◌^◌, ℤ, pos, ◌-ℤ◌, ◌*ℤ◌, nat_le, unsigned_abs, SomeIff, IfOk, IfErr};
ghost use Rattle.whole_numbers.specs.Intervals.{size, point_interval, interval_sub};
ghost use Rattle.decimal_e.specs.Fractions.{IsAtMost};
ghost use Rattle.bounds_report.specs.Differences.{difference_of, AreDifferencesOf, IsFirstFarRow};
ghost use Rattle.bounds_report.specs.Ends.{AreEnds, ends_of, IfRange};
ghost use Rattle.bounds_report.specs.Printing.{difference};
ghost use Rattle.bounds_report.specs.Rows.{row_count, power_at};

use crate::PrintError;
use crate::ends::Ends;
use crate::intervals::interval_difference;
use crate::rows::Rows;
use crate::terms::apriori_interval;
use decimal_e::Dec;
use interval_word::Iv;
use std::alloc::Global;

/// The greatest sum of the sizes of the differences.
const SUM_LIMIT: u128 = 1 << 65;

/// Whether the interval holds this number alone.
fn is_exactly(w: &Iv, v: i128) -> bool
    requires interval { size w.now ≤ 10 ^ 37 }
    requires number { unsigned_abs v ≤ 10 ^ 37 }
    ensures { result ≡ nat_le (size (interval_sub w.now (point_interval v))) 0 }
{
    interval_difference(w, &Iv::point(v)).mag() == 0
}

/// The interval at 10^20 of an estimate in units of 10^-16.
fn estimate_interval(estimate: i128) -> Iv
    requires { unsigned_abs estimate ≤ 10 ^ 33 }
    ensures value { result ≡ point_interval (estimate *ℤ pos (10 ^ 4)) }
    ensures bound { size result ≤ 10 ^ 37 }
{
    Iv::point(estimate * 10_000)
}

/// The interval at 10^20 of the estimate minus the a priori value: zero where they are equal.
fn distance(x0: &Dec, estimate: i128) -> Iv
    requires most { IsAtMost (10 ^ 12) x0.now }
    requires small { unsigned_abs estimate ≤ 10 ^ 33 }
    ensures { result ≡ difference x0.now estimate }
{
    if is_exactly(&apriori_interval(x0, 16), estimate) {
        Iv::point(0)
    } else {
        interval_difference(&estimate_interval(estimate), &apriori_interval(x0, 20))
    }
}

/// The power of ten from 10^20 to the working unit of a row.
fn working_power(rows: &Rows, i: usize) -> i32
    requires { i < row_count rows.now }
    ensures { result ≡ power_at rows.now i -ℤ pos 8 }
{
    rows.power(i) - 8
}

/// The difference of a row with this estimate, and None exactly where it is greater than the limit in size.
fn difference_within(rows: &Rows, i: usize, estimate: i128, limit: u128) -> Option<Iv>
    requires row { i < row_count rows.now }
    requires estimate { estimate ≡ (ends_of rows.now i).estimate }
    requires small { unsigned_abs estimate ≤ 10 ^ 33 }
    requires most { limit ≤ 10 ^ 37 }
    ensures { SomeIff result (size (difference_of rows.now i) ≤ limit) (difference_of rows.now i) }
{
    distance(&rows.apriori(i), estimate).scale10_within(working_power(rows, i), limit)
}

/// The estimate of a row.
fn estimate_at(rows: &Rows, ends: &[Ends], i: usize) -> i128
    requires row { i < row_count rows.now }
    requires ends { AreEnds (row_count rows.now) rows.now ends.now }
    ensures value { result ≡ (ends_of rows.now i).estimate }
    ensures bound { unsigned_abs result ≤ 10 ^ 33 }
{
    ends[i].estimate
}

/// The differences of all rows. Range comes exactly where their sizes pass 2^65 in sum, with the row at which they first do.
pub fn all_differences(alloc: Global, rows: &Rows, ends: &[Ends]) -> Result<Vec<Iv>, PrintError>
    requires { AreEnds (row_count rows.now) rows.now ends.now }
    ensures differences { IfOk result (λ zs. AreDifferencesOf (row_count rows.now) rows.now zs.items) }
    ensures refused { IfErr result (IfRange (IsFirstFarRow rows.now)) }
{
    let mut all = Vec::new(alloc);
    let mut room = SUM_LIMIT;
    for row in 0..rows.count() {
        match difference_within(rows, row, estimate_at(rows, ends, row), room) {
            Some(z) => {
                room -= z.mag();
                if all.push(z).is_err() {
                    return Err(PrintError::Memory);
                }
            }
            None => return Err(PrintError::Range { row }),
        }
    }
    Ok(all)
}
