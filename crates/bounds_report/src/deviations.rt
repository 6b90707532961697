//! The standard deviations of the parameters, by the approximate inverse.

ghost use Rattle.std.specs.Prelude.{◌≡◌, ◌≤◌, ◌<◌, ◌^◌, negsuc, ◌-ℤ◌, unsigned_abs};
ghost use Rattle.bounds_report.specs.Printing.{IsNearPower, square_root, variance_of};
ghost use Rattle.bounds_report.specs.Rows.{row_count, power_at, deviation_at};

use crate::rows::Rows;

/// 10^28 over 2^18, which keeps each product with a number of the pilot within 128 bits.
const SCALE: u128 = 38_146_972_656_250_000_000_000;

/// The square of a deviation, from the pilot's scale and a number of its diagonal.
#[tactic(auto, using(crate::proofs::DeviationLaws::variance_rules))]
fn variance(g: u32, entry: i64) -> u128
    requires scale { g ≤ 50 }
    requires small { unsigned_abs entry ≤ 2 ^ 50 }
    ensures { result ≡ variance_of g entry }
{
    let size = u128::from(entry.max(0).unsigned_abs());
    (size * SCALE) >> (42 + g)
}

/// The whole part of a square root.
#[tactic(auto, using(crate::proofs::DeviationLaws::square_root_is))]
fn root(n: u128) -> u128
    ensures value { result ≡ square_root n }
    ensures bound { result < 2 ^ 64 }
{
    n.isqrt()
}

/// The standard deviation of a row, in units of ten to its place.
pub fn deviation(rows: &Rows, i: usize) -> u128
    requires { i < row_count rows.now }
    ensures value { result ≡ deviation_at rows.now i }
    ensures bound { result < 2 ^ 64 }
{
    root(variance(rows.scale(), rows.diagonal(i)))
}

/// The power of ten of the deviation's unit in a row.
pub fn deviation_place(rows: &Rows, i: usize) -> i32
    requires { i < row_count rows.now }
    ensures value { result ≡ negsuc 4 -ℤ power_at rows.now i }
    ensures near { IsNearPower result }
{
    -5 - rows.power(i)
}
