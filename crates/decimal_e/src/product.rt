//! Products of decimals.

ghost use Rattle.std.specs.Prelude.{◌≡◌, ◌≢◌, ℕ, ℤ, pos, ◌+ℤ◌, ◌*ℤ◌, ◌*◌, ◌^◌, ◌%◌, ◌≤◌, ◌<◌, SomeIff};
ghost use Rattle.decimal_e.specs.Decimals.{Decimal, SameValue, IsDecOf, product, signed_like};
ghost use Rattle.decimal_e.specs.Fractions.{Means};
ghost use Rattle.decimal_e.specs.Scales.{decimal_interval};

use crate::dec::{Dec, LIMIT};

// What is left of two sizes when a 2 is taken out of the first and a 5 out of the second as often as both have one,
// and how often that is.
fn matched(twos: u128, fives: u128) -> (u128, u128, u32)
    requires twos { (0 < twos) × (twos < 10 ^ 36) }
    requires fives { (0 < fives) × (fives < 10 ^ 36) }
    ensures first { result.0 * 2 ^ result.2 ≡ twos }
    ensures second { result.1 * 5 ^ result.2 ≡ fives }
    ensures end { result.0 % 2 ≡ 0 → result.1 % 5 ≢ 0 }
    ensures count { result.2 ≤ 120 }
{
    let mut two = twos;
    let mut five = fives;
    let mut pairs = 0;
    while two % 2 == 0 && five % 5 == 0 {
        two /= 2;
        five /= 5;
        pairs += 1;
    }
    (two, five, pairs)
}

// Two sizes whose product is no multiple of 10, and how many zeros follow it in the product of the given ones.
fn parted(left: u128, right: u128) -> (u128, u128, u32)
    requires left { (left < 10 ^ 36) × (left % 10 ≢ 0) }
    requires right { (right < 10 ^ 36) × (right % 10 ≢ 0) }
    ensures value { result.0 * result.1 * 10 ^ result.2 ≡ left * right }
    ensures end { (result.0 * result.1) % 10 ≢ 0 }
    ensures count { result.2 ≤ 240 }
{
    let (left, right, pairs) = matched(left, right);
    let (right, left, more) = matched(right, left);
    (left, right, pairs + more)
}

// The product, and None exactly where it is no size of a mantissa.
fn small_product(left: u128, right: u128) -> Option<u128>
    requires { 0 < right }
    ensures { SomeIff result (left * right < 10 ^ 36) (left * right) }
{
    if left <= (LIMIT - 1) / right {
        Some(left * right)
    } else {
        None
    }
}

// The number of this size with the sign of the product of two numbers.
fn with_signs(left: i128, right: i128, size: u128) -> i128
    requires left { left ≢ pos 0 }
    requires right { right ≢ pos 0 }
    requires small { size < 10 ^ 36 }
    ensures { result ≡ signed_like (left *ℤ right) size }
{
    if (left < 0) == (right < 0) {
        size as i128
    } else {
        -(size as i128)
    }
}

// The exponent of a product of which so many zeros are taken off.
fn exponent_of(left: &Dec, right: &Dec, zeros: u32) -> i32
    requires { zeros ≤ 240 }
    ensures { result ≡ left.now.exp +ℤ right.now.exp +ℤ pos zeros }
{
    left.exp() + right.exp() + zeros as i32
}

impl Dec {
    /// The exact product, and None exactly where its canonical form passes the bounds of the type.
    pub fn times(&self, other: &Dec) -> Option<Dec>
        ensures { IsDecOf (product self.now other.now) result }
    {
        if self.is_zero() || other.is_zero() {
            return Some(Dec::zero());
        }
        let (left, right, zeros) = parted(self.mant().unsigned_abs(), other.mant().unsigned_abs());
        match small_product(left, right) {
            Some(size) => Dec::new(
                with_signs(self.mant(), other.mant(), size),
                exponent_of(self, other, zeros),
            ),
            None => None,
        }
    }
}

/// Decimals of one value have the same interval at each power of ten, and mean the same fractions.
pub fn same_values()
    ensures interval { (a b : Decimal) (k : ℤ) → SameValue a b → decimal_interval a k ≡ decimal_interval b k }
    ensures fraction { (a b : Decimal) (x : ℤ) (q : ℕ) → SameValue a b → Means a x q → Means b x q }
{}

/// One times a decimal is that decimal.
pub fn one_times()
    ensures { (d : Decimal) → product (record { mant = pos 1; exp = pos 0 }) d ≡ d }
{}
