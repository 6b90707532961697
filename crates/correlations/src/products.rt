//! Intervals of correlations times two standard deviations.

ghost use Rattle.std.specs.Prelude.{◌≡◌, ◌≤◌, ◌<◌, ◌^◌, ℕ, pos, negsuc, ◌+ℤ◌, ◌≤ℤ◌, MatchOption, SomeIff};
ghost use Rattle.whole_numbers.specs.Intervals.{Interval, size};
ghost use Rattle.correlations.specs.Parts.{IsFitting, IsFittingEntry, times_both, times_part};

use crate::digits::{Digits, digits_of};
use decimal_e::Dec;
use interval_word::Iv;

/// The greatest size of the interval of a correlation.
const ONE: u128 = 1_000_000_000_000_000_000;

/// The greatest size of the interval of a covariance.
const LIMIT: u128 = 10_000_000_000_000_000_000_000_000_000_000_000;

/// An interval times digits over 10^18, rounded outward.
fn part_of(correlation: &Iv, digits: u64) -> Iv
    requires small { size correlation.now ≤ 10 ^ 18 }
    requires few { digits < 10 ^ 18 }
    ensures value { result ≡ times_part digits correlation.now }
    ensures small { size result ≤ 10 ^ 18 }
{
    let product = correlation.mul_small(digits as i128);
    match product.scale10(-18) {
        Some(part) => part,
        None => unreachable!(),
    }
}

/// An interval times digits over 10^18, then times other digits and 10^power, and None exactly where that passes 10^34 in size.
fn both_of(correlation: &Iv, one: u64, other: u64, power: i32) -> Option<Iv>
    requires small { size correlation.now ≤ 10 ^ 18 }
    requires one { one < 10 ^ 18 }
    requires other { other < 10 ^ 18 }
    ensures { let w = times_both one other power correlation.now in SomeIff result (size w ≤ 10 ^ 34) w }
{
    let part = part_of(correlation, one);
    part.mul_small(other as i128).scale10_within(power, LIMIT)
}

/// The sum of three powers of ten.
fn power_sum(one: i32, other: i32, power: i32) -> i32
    requires one { (negsuc 899 ≤ℤ one) × (one ≤ℤ pos 120) }
    requires other { (negsuc 899 ≤ℤ other) × (other ≤ℤ pos 120) }
    requires power { (pos 6 ≤ℤ power) × (power ≤ℤ pos 36) }
    ensures { result ≡ one +ℤ other +ℤ power }
{
    one + other + power
}

/// The interval of a correlation times two decimals and 10^power, and None exactly where it passes a bound.
fn product_of(correlation: &Iv, s: &Dec, t: &Dec, power: i32) -> Option<Iv>
    requires low { pos 6 ≤ℤ power }
    requires high { power ≤ℤ pos 36 }
    ensures { MatchOption result ((w : Interval) → IsFitting correlation.now s.now t.now power w → ⊥) (IsFitting correlation.now s.now t.now power) }
{
    if correlation.mag() > ONE {
        return None;
    }
    let one = match digits_of(s) {
        Some(one) => one,
        None => return None,
    };
    let other = match digits_of(t) {
        Some(other) => other,
        None => return None,
    };
    both_of(
        correlation,
        one.mantissa,
        other.mantissa,
        power_sum(one.power, other.power, power),
    )
}

/// The same of decimals that there are.
pub fn entry_of(correlation: &Iv, one: &Option<Dec>, other: &Option<Dec>, power: i32) -> Option<Iv>
    requires low { pos 6 ≤ℤ power }
    requires high { power ≤ℤ pos 36 }
    ensures { MatchOption result ((w : Interval) → IsFittingEntry correlation.now one.now other.now power w → ⊥) (IsFittingEntry correlation.now one.now other.now power) }
{
    match (one, other) {
        (Some(s), Some(t)) => product_of(correlation, s, t, power),
        _ => None,
    }
}
