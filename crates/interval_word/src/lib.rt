//! Intervals of whole numbers of 128 bits. Each call gives the exact range of what it computes from numbers
//! of its intervals, and where an end is no whole number, the low end is rounded down and the high end up
//! (outward rounding, as in interval arithmetic: Rump, Verification methods, 2010).
#![tactic(auto)]

ghost use Rattle.std.specs.Prelude.{◌≡◌, ℕ, ℤ, pos, negsuc, ◌+ℤ◌, ◌-ℤ◌, ◌*ℤ◌, neg_ℤ, ◌≤ℤ◌, ◌<ℤ◌, ◌≤◌, ◌<◌, ◌*◌, ◌^◌, FitsSigned, unsigned_abs, SomeIff, IsTrue, ◌↔◌, max};
ghost use Rattle.std.specs.Int.{w128};
ghost use Rattle.whole_numbers.specs.Quotients.{floor_over};
ghost use Rattle.whole_numbers.specs.Scaling.{interval_scale10};
ghost use Rattle.whole_numbers.specs.Intervals.{Interval, Within, point_interval, interval_add, interval_sub, interval_neg, interval_scale, interval_shift, interval_mul, least_of, greatest_of, IsProductRange, size};

use std::marker::Model;
use whole_numbers::{product, scale_ceil, scale_floor, shift_ceil, shift_floor};

/// The whole numbers from `lo` to `hi`, with `lo <= hi`.
#[derive(Clone, Copy, PartialEq, Eq, Debug)]
pub struct Iv {
    lo: i128,
    hi: i128,
}

impl Model for Iv {
    ghost Value = { Interval };

    ghost view = { λ w. record { lo = w.lo; hi = w.hi } };

    ghost invariant = { λ w. w.lo ≤ℤ w.hi };

    ghost inverse = { λ w. record { lo = w.lo; hi = w.hi } };
}

fn made(lo: i128, hi: i128) -> Iv
    requires { lo ≤ℤ hi }
    ensures { result ≡ record { lo = lo; hi = hi } }
{
    Iv { lo, hi }
}

impl Iv {
    /// The interval with these ends, and None exactly where they are out of order.
    pub fn new(lo: i128, hi: i128) -> Option<Iv>
        ensures { SomeIff result (lo ≤ℤ hi) (record { lo = lo; hi = hi }) }
    {
        if lo <= hi { Some(Iv { lo, hi }) } else { None }
    }

    /// The interval of one number.
    pub fn point(v: i128) -> Iv
        ensures { result ≡ point_interval v }
    {
        Iv { lo: v, hi: v }
    }

    /// The low end.
    pub fn lo(&self) -> i128
        ensures value { result ≡ self.now.lo }
        ensures ordered { result ≤ℤ self.now.hi }
    {
        self.lo
    }

    /// The high end.
    pub fn hi(&self) -> i128
        ensures value { result ≡ self.now.hi }
        ensures ordered { self.now.lo ≤ℤ result }
    {
        self.hi
    }

    /// The sums of a number of each.
    pub fn add(&self, other: &Iv) -> Iv
        requires lo_fits { FitsSigned w128 (self.now.lo +ℤ other.now.lo) }
        requires hi_fits { FitsSigned w128 (self.now.hi +ℤ other.now.hi) }
        ensures { result ≡ interval_add self.now other.now }
    {
        made(self.lo() + other.lo(), self.hi() + other.hi())
    }

    /// The differences of a number of this and one of the other.
    pub fn sub(&self, other: &Iv) -> Iv
        requires lo_fits { FitsSigned w128 (self.now.lo -ℤ other.now.hi) }
        requires hi_fits { FitsSigned w128 (self.now.hi -ℤ other.now.lo) }
        ensures { result ≡ interval_sub self.now other.now }
    {
        made(self.lo() - other.hi(), self.hi() - other.lo())
    }

    /// The numbers with the other sign.
    pub fn neg(&self) -> Iv
        requires lo_fits { FitsSigned w128 (neg_ℤ self.now.hi) }
        requires hi_fits { FitsSigned w128 (neg_ℤ self.now.lo) }
        ensures { result ≡ interval_neg self.now }
    {
        made(-self.hi(), -self.lo())
    }

    /// The numbers times `k`.
    #[tactic(auto, using(crate::proofs::Fits::scale_rules))]
    pub fn mul_small(&self, k: i128) -> Iv
        requires { unsigned_abs k * size self.now ≤ 2 ^ 126 }
        ensures { result ≡ interval_scale k self.now }
    {
        let a = product(k, self.lo());
        let b = product(k, self.hi());
        if 0 <= k { made(a, b) } else { made(b, a) }
    }

    /// The least interval with each product of a number of this and one of the other.
    #[tactic(auto, using(crate::proofs::Fits::mul_rules))]
    pub fn mul(&self, other: &Iv) -> Iv
        requires { size self.now * size other.now ≤ 2 ^ 126 }
        ensures value { result ≡ interval_mul self.now other.now }
        ensures exact { IsProductRange self.now other.now result }
    {
        let a = product(self.lo(), other.lo());
        let b = product(self.lo(), other.hi());
        let c = product(self.hi(), other.lo());
        let d = product(self.hi(), other.hi());
        made(least(a, b, c, d), greatest(a, b, c, d))
    }

    /// The greater size of the ends.
    pub fn mag(&self) -> u128
        ensures { result ≡ size self.now }
    {
        self.lo.unsigned_abs().max(self.hi.unsigned_abs())
    }

    /// Half the sum of the ends, rounded down.
    pub fn mid(&self) -> i128
        ensures { result ≡ floor_over (self.now.lo +ℤ self.now.hi) 2 }
    {
        half_sum(self.lo(), self.hi())
    }

    /// Whether the number is in the interval.
    pub fn holds(&self, v: i128) -> bool
        ensures { IsTrue result ↔ Within self.now v }
    {
        self.lo() <= v && v <= self.hi()
    }

    /// The interval over 2^h, the low end rounded down and the high end up.
    #[tactic(auto, using(crate::proofs::Fits::shift_rules))]
    pub fn shift_out(&self, h: u32) -> Iv
        requires { h ≤ 126 }
        ensures { result ≡ interval_shift h self.now }
    {
        made(shift_floor(self.lo(), h), shift_ceil(self.hi(), h))
    }

    /// The interval times 10^k, the low end rounded down and the high end up, and None exactly where an end
    /// passes 10^37 in size.
    #[tactic(auto, using(crate::proofs::Fits::scale10_rules))]
    pub fn scale10(&self, k: i32) -> Option<Iv>
        ensures { SomeIff result (size (interval_scale10 self.now k) ≤ 10 ^ 37) (interval_scale10 self.now k) }
    {
        let lo = scale_floor(self.lo(), k)?;
        let hi = scale_ceil(self.hi(), k)?;
        Some(made(lo, hi))
    }

    /// The interval times 10^k, rounded outward as in `scale10`, and None exactly where an end passes the limit in
    /// size.
    pub fn scale10_within(&self, k: i32, limit: u128) -> Option<Iv>
        requires { limit ≤ 10 ^ 37 }
        ensures { SomeIff result (size (interval_scale10 self.now k) ≤ limit) (interval_scale10 self.now k) }
    {
        let scaled = self.scale10(k)?;
        if scaled.mag() <= limit {
            Some(scaled)
        } else {
            None
        }
    }
}

// Half the sum, rounded down, by halves: the sum itself may pass 128 bits.
fn half_sum(a: i128, b: i128) -> i128
    ensures { result ≡ floor_over (a +ℤ b) 2 }
{
    let rest = a.rem_euclid(2) + b.rem_euclid(2);
    a.div_euclid(2) + b.div_euclid(2) + rest.div_euclid(2)
}

fn least(a: i128, b: i128, c: i128, d: i128) -> i128
    ensures value { result ≡ least_of a b c d }
    ensures bound { result ≤ℤ a }
{
    a.min(b).min(c.min(d))
}

fn greatest(a: i128, b: i128, c: i128, d: i128) -> i128
    ensures value { result ≡ greatest_of a b c d }
    ensures bound { a ≤ℤ result }
{
    a.max(b).max(c.max(d))
}

#[cfg(test)]
mod tests {
    use super::*;
    use std::test::Fail;

    fn crosses_threads<T: Send + Sync>() {}

    #[test]
    fn each_call_once(rt: HostRuntime) -> Result<(), Fail> {
        crosses_threads::<Iv>();
        let w = Iv::point(-3).add(&Iv::point(0));
        let v = Iv::point(7).sub(&Iv::point(2));
        assert_eq!(rt; Iv::new(-3, 5).map(|w: Iv| w.mid()), Some(1));
        assert_eq!(rt; Iv::new(5, -3), None);
        assert_eq!(rt; w.neg(), Iv::point(3));
        assert_eq!(rt; v.mul_small(-2), Iv::point(-10));
        assert_eq!(rt; w.mul(&v), Iv::point(-15));
        assert_eq!(rt; w.mag(), 3);
        assert!(rt; w.holds(-3));
        assert_eq!(rt; Some(w.shift_out(1)), Iv::new(-2, -1));
        assert_eq!(rt; w.scale10(-1), Iv::new(-1, 0));
        assert_eq!(rt; v.scale10(37), None);
        assert_eq!(rt; v.scale10_within(1, 50), Some(Iv::point(50)));
        assert_eq!(rt; v.scale10_within(1, 49), None);
        assert_eq!(rt; (w.lo(), v.hi()), (-3, 5));
        Ok(())
    }
}
