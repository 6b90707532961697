//! Intervals by their ends, as sums of products are made of them: no sum asks whether the ends are in order.

ghost use Rattle.std.specs.Prelude.{◌≡◌, ◌≤◌, ◌*◌, ◌^◌, ◌+ℤ◌, ◌-ℤ◌, ◌*ℤ◌, FitsSigned, unsigned_abs};
ghost use Rattle.std.specs.Int.{w128};
ghost use Rattle.whole_numbers.specs.Intervals.{Interval, point_interval, interval_add, interval_sub, interval_scale, interval_shift, size};
ghost use Rattle.enclosure_check.specs.Defects.{end_product};

use crate::products::short_product;
use std::marker::Model;
use whole_numbers::{shift_ceil, shift_floor};

/// The ends of an interval or of a sum of intervals.
#[derive(Clone, Copy)]
pub struct Ends {
    pub lo: i128,
    pub hi: i128,
}

impl Model for Ends {
    ghost Value = { Interval };

    ghost view = { λ e. record { lo = e.lo; hi = e.hi } };

    ghost inverse = { λ w. record { lo = w.lo; hi = w.hi } };
}

/// The product of `x` with `up`, or with `down` where `x` is below 0.
fn wide_product(x: i128, up: i128, down: i128) -> i128
    requires with_up { unsigned_abs x * unsigned_abs up ≤ 2 ^ 126 }
    requires with_down { unsigned_abs x * unsigned_abs down ≤ 2 ^ 126 }
    ensures { result ≡ end_product x up down }
{
    let end = if x < 0 { down } else { up };
    short_product(x, end)
}

impl Ends {
    pub fn plus(self, other: Ends) -> Ends
        requires lo_fits { FitsSigned w128 (self.lo +ℤ other.lo) }
        requires hi_fits { FitsSigned w128 (self.hi +ℤ other.hi) }
        ensures { result ≡ interval_add self other }
    {
        Ends {
            lo: self.lo + other.lo,
            hi: self.hi + other.hi,
        }
    }

    pub fn minus(self, other: Ends) -> Ends
        requires lo_fits { FitsSigned w128 (self.lo -ℤ other.hi) }
        requires hi_fits { FitsSigned w128 (self.hi -ℤ other.lo) }
        ensures { result ≡ interval_sub self other }
    {
        Ends {
            lo: self.lo - other.hi,
            hi: self.hi - other.lo,
        }
    }

    /// The products with `x`.
    pub fn times(self, x: i128) -> Ends
        requires { unsigned_abs x * size self ≤ 2 ^ 126 }
        ensures { result ≡ interval_scale x self }
    {
        Ends {
            lo: wide_product(x, self.lo, self.hi),
            hi: wide_product(x, self.hi, self.lo),
        }
    }

    /// The greater size of the two.
    pub fn magnitude(self) -> u128
        ensures { result ≡ size self }
    {
        self.lo.unsigned_abs().max(self.hi.unsigned_abs())
    }

    /// The ends over 2^h, rounded outward.
    pub fn shifted(self, h: u32) -> Ends
        requires { h ≤ 126 }
        ensures { result ≡ interval_shift h self }
    {
        Ends {
            lo: shift_floor(self.lo, h),
            hi: shift_ceil(self.hi, h),
        }
    }

    /// The greater size of what the ends leave of `v`.
    pub fn left_of(self, v: i128) -> u128
        requires lo_fits { FitsSigned w128 (v -ℤ self.hi) }
        requires hi_fits { FitsSigned w128 (v -ℤ self.lo) }
        ensures { result ≡ size (interval_sub (point_interval v) self) }
    {
        (v - self.hi)
            .unsigned_abs()
            .max((v - self.lo).unsigned_abs())
    }
}
