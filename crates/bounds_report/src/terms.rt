//! What the printed numbers are made of: the intervals of the a priori values, and what the start vector and the radii add
//! to them.

ghost use Rattle.std.specs.Prelude.{◌≡◌, ℤ, pos, ◌+ℤ◌, ◌-ℤ◌, ◌≤ℤ◌, ◌*◌, ◌≤◌, ◌<◌, ◌^◌, unsigned_abs, SomeIff};
ghost use Rattle.whole_numbers.specs.Intervals.{size};
ghost use Rattle.whole_numbers.specs.Scaling.{floor_scaled};
ghost use Rattle.decimal_e.specs.Fractions.{IsAtMost};
ghost use Rattle.decimal_e.specs.Scales.{decimal_interval};
ghost use Rattle.bounds_report.specs.Printing.{low_term, high_term, estimate_of};
ghost use Rattle.bounds_report.specs.Rows.{row_count, power_at, apriori_at, vector_at, radius_at};

use crate::rounding::to_15_digits;
use crate::rows::Rows;
use decimal_e::{Dec, ceil_at, floor_at};
use interval_word::Iv;
use whole_numbers::{scale_ceil, scale_floor};

/// The interval of a decimal at the scale 10^k, and None exactly where an end passes 10^37 in size.
#[tactic(auto, using(crate::proofs::TermLaws::interval_rules))]
fn interval_at(d: &Dec, k: i32) -> Option<Iv>
    requires low { pos 0 ≤ℤ k }
    requires high { k ≤ℤ pos 20 }
    ensures { SomeIff result (size (decimal_interval d.now k) ≤ 10 ^ 37) (decimal_interval d.now k) }
{
    let lo = floor_at(d, k)?;
    let hi = ceil_at(d, k)?;
    Iv::new(lo, hi)
}

/// The interval of an a priori value at the scale 10^k.
#[tactic(auto, using(crate::proofs::TermLaws::interval_rules))]
pub fn apriori_interval(x0: &Dec, k: i32) -> Iv
    requires most { IsAtMost (10 ^ 12) x0.now }
    requires low { pos 0 ≤ℤ k }
    requires high { k ≤ℤ pos 20 }
    ensures value { result ≡ decimal_interval x0.now k }
    ensures bound { size result ≤ 10 ^ 32 }
{
    match interval_at(x0, k) {
        Some(w) => w,
        None => unreachable!(),
    }
}

/// The interval of a row's a priori value in units of 10^-16.
pub fn printed_interval(rows: &Rows, i: usize) -> Iv
    requires { i < row_count rows.now }
    ensures value { result ≡ decimal_interval (apriori_at rows.now i) (pos 16) }
    ensures bound { size result ≤ 10 ^ 32 }
{
    apriori_interval(&rows.apriori(i), 16)
}

/// The power of ten from the working unit of a row to the printed one.
fn printed_power(rows: &Rows, i: usize) -> i32
    requires { i < row_count rows.now }
    ensures value { result ≡ pos 4 -ℤ power_at rows.now i }
    ensures bound { result ≤ℤ pos 17 }
{
    4 - rows.power(i)
}

/// The start vector of a row minus its radius.
fn low_end(rows: &Rows, i: usize) -> i128
    requires { i < row_count rows.now }
    ensures { result ≡ vector_at rows.now i -ℤ pos (radius_at rows.now i) }
{
    rows.vector(i) - rows.radius(i) as i128
}

/// The start vector of a row plus its radius.
fn high_end(rows: &Rows, i: usize) -> i128
    requires { i < row_count rows.now }
    ensures { result ≡ vector_at rows.now i +ℤ pos (radius_at rows.now i) }
{
    rows.vector(i) + rows.radius(i) as i128
}

/// What is added to the low end of a row's a priori value, and None exactly where it passes 10^37 in size.
pub fn low_term(rows: &Rows, i: usize) -> Option<i128>
    requires { i < row_count rows.now }
    ensures { let term = low_term (power_at rows.now i) (vector_at rows.now i) (radius_at rows.now i) in SomeIff result (unsigned_abs term ≤ 10 ^ 37) term }
{
    scale_floor(low_end(rows, i), printed_power(rows, i))
}

/// What is added to the high end of a row's a priori value, and None exactly where it passes 10^37 in size.
pub fn high_term(rows: &Rows, i: usize) -> Option<i128>
    requires { i < row_count rows.now }
    ensures { let term = high_term (power_at rows.now i) (vector_at rows.now i) (radius_at rows.now i) in SomeIff result (unsigned_abs term ≤ 10 ^ 37) term }
{
    scale_ceil(high_end(rows, i), printed_power(rows, i))
}

/// The start vector in a row, in units of 10^-16, rounded down.
#[tactic(auto, using(crate::proofs::TermLaws::middle_rules))]
fn middle_term(rows: &Rows, i: usize) -> i128
    requires { i < row_count rows.now }
    ensures value { result ≡ floor_scaled (vector_at rows.now i) (pos 4 -ℤ power_at rows.now i) }
    ensures bound { unsigned_abs result ≤ 2 ^ 64 * 10 ^ 17 }
{
    match scale_floor(rows.vector(i), printed_power(rows, i)) {
        Some(term) => term,
        None => unreachable!(),
    }
}

/// A row's a priori value and its start vector, rounded down.
fn middle(rows: &Rows, i: usize) -> i128
    requires { i < row_count rows.now }
    ensures value { result ≡ (decimal_interval (apriori_at rows.now i) (pos 16)).lo +ℤ floor_scaled (vector_at rows.now i) (pos 4 -ℤ power_at rows.now i) }
    ensures bound { unsigned_abs result ≤ 10 ^ 37 }
{
    printed_interval(rows, i).lo() + middle_term(rows, i)
}

/// The estimate of a row: its a priori value and its start vector, rounded to 15 digits.
pub fn estimate(rows: &Rows, i: usize) -> i128
    requires { i < row_count rows.now }
    ensures value { result ≡ estimate_of (apriori_at rows.now i) (power_at rows.now i) (vector_at rows.now i) }
    ensures bound { unsigned_abs result ≤ 10 ^ 38 }
{
    to_15_digits(middle(rows, i))
}
