//! Intervals times the weight of a file.

ghost use Rattle.std.specs.Prelude.{◌≤◌, ◌^◌, pos, ◌<ℤ◌, SomeIff};
ghost use Rattle.whole_numbers.specs.Intervals.{interval_scale, size};
ghost use Rattle.named_tables.specs.Weighted.{IsWeight, WeightFits, weighted_interval};

use decimal_e::Dec;
use interval_word::Iv;

/// The greatest size of an interval times the digits of a weight.
const WIDE: u128 = 10_000_000_000_000_000_000_000_000_000_000_000_000;

/// The greatest size of an interval times a weight.
const LIMIT: u128 = 10_000_000_000_000_000_000_000_000_000_000_000;

/// An interval times the digits of a weight, and None exactly where it passes 10^37 in size.
fn times_digits(interval: &Iv, digits: i128) -> Option<Iv>
    requires { pos 0 <ℤ digits }
    ensures { SomeIff result (size (interval_scale digits interval.now) ≤ 10 ^ 37) (interval_scale digits interval.now) }
{
    if interval.mag() > WIDE / digits.unsigned_abs() {
        return None;
    }
    Some(interval.mul_small(digits))
}

/// An interval times a weight: times its digits, at most 10^37 in size, and then times its power of ten, rounded outward, at most 10^34 in
/// size; and None exactly where it passes one of these bounds.
pub fn weighted(interval: &Iv, weight: &Dec) -> Option<Iv>
    requires { IsWeight weight.now }
    ensures { SomeIff result (WeightFits weight.now interval.now) (weighted_interval weight.now interval.now) }
{
    let digits = times_digits(interval, weight.mant())?;
    digits.scale10_within(weight.exp(), LIMIT)
}
