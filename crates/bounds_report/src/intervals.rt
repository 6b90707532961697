//! Differences and products of intervals, with how large they are.

ghost use Rattle.std.specs.Prelude.{◌≡◌, ◌+◌, ◌*◌, ◌≤◌, ◌<◌, ◌^◌};
ghost use Rattle.whole_numbers.specs.Intervals.{size, interval_sub, interval_mul};

use interval_word::Iv;

/// The differences of a number of the first and one of the second.
#[tactic(auto, using(crate::proofs::IntervalSizes::difference_rules))]
pub fn interval_difference(a: &Iv, b: &Iv) -> Iv
    requires { size a.now + size b.now < 2 ^ 127 }
    ensures value { result ≡ interval_sub a.now b.now }
    ensures bound { size result ≤ size a.now + size b.now }
{
    a.sub(b)
}

/// The products of a number of the first and one of the second.
#[tactic(auto, using(whole_numbers::proofs::Sizes::product_size))]
pub fn interval_product(a: &Iv, b: &Iv) -> Iv
    requires { size a.now * size b.now ≤ 2 ^ 126 }
    ensures value { result ≡ interval_mul a.now b.now }
    ensures bound { size result ≤ size a.now * size b.now }
{
    a.mul(b)
}
