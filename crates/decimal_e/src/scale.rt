//! Decimals times powers of ten, rounded to whole numbers.

ghost use Rattle.std.specs.Prelude.{pos, negsuc, ◌≤ℤ◌, ◌≤◌, ◌^◌, unsigned_abs, SomeIff};
ghost use Rattle.whole_numbers.specs.Intervals.{size};
ghost use Rattle.decimal_e.specs.Scales.{decimal_interval, HoldsValue};

use crate::dec::Dec;
use interval_word::Iv;
use whole_numbers::{scale_ceil, scale_floor};

/// The floor of `d * 10^k`, and None exactly where it passes `10^37` in size.
pub fn floor_at(d: &Dec, k: i32) -> Option<i128>
    requires low { negsuc 99 ≤ℤ k }
    requires high { k ≤ℤ pos 100 }
    ensures { let floor = (decimal_interval d.now k).lo in SomeIff result (unsigned_abs floor ≤ 10 ^ 37) floor }
{
    scale_floor(d.mant(), d.exp() + k)
}

/// The ceiling of `d * 10^k`, and None exactly where it passes `10^37` in size.
pub fn ceil_at(d: &Dec, k: i32) -> Option<i128>
    requires low { negsuc 99 ≤ℤ k }
    requires high { k ≤ℤ pos 100 }
    ensures { let ceiling = (decimal_interval d.now k).hi in SomeIff result (unsigned_abs ceiling ≤ 10 ^ 37) ceiling }
{
    scale_ceil(d.mant(), d.exp() + k)
}

#[tactic(auto, using(crate::proofs::SizeLaws::interval_rules))]
/// The interval from the floor to the ceiling of `d * 10^k`, and None exactly where an end passes `10^37` in size.
pub fn interval_at(d: &Dec, k: i32) -> Option<Iv>
    requires low { negsuc 99 ≤ℤ k }
    requires high { k ≤ℤ pos 100 }
    ensures { SomeIff result (size (decimal_interval d.now k) ≤ 10 ^ 37) (decimal_interval d.now k) }
{
    let low = floor_at(d, k)?;
    let high = ceil_at(d, k)?;
    Iv::new(low, high)
}

/// The interval from floor to ceiling holds the exact value of `d * 10^k`.
pub fn holds_value()
    ensures { HoldsValue }
{}
