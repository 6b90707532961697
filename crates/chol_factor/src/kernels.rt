//! The sums and quotients that the factor and the columns are made of.

ghost use Rattle.std.specs.Prelude.{◌≡◌, ◌≤◌, ◌<◌, ◌*◌, ◌^◌, ℕ, ℤ, pos, ◌≤ℤ◌, length, unsigned_abs};
ghost use Rattle.whole_numbers.specs.Sum.{sum_to};
ghost use Rattle.chol_factor.specs.Factor.{fixed_product, fixed_quotient};
ghost use Rattle.whole_numbers.specs.Lists.{at, AllAtMost};

use whole_numbers::{floor_div, product};

/// The number 1 in units of 2^-60.
const ONE: i128 = 1 << 60;

/// The product of two numbers over 2^60, rounded down.
fn fixed_product(a: i64, b: i64) -> i128
    requires left { unsigned_abs a ≤ 2 ^ 61 }
    requires right { unsigned_abs b ≤ 2 ^ 61 }
    ensures value { result ≡ fixed_product a b }
    ensures bound { unsigned_abs result ≤ 2 ^ 62 }
{
    (i128::from(a) * i128::from(b)) >> 60
}

/// The sum of the products of two rows, each over 2^60 and rounded down.
pub fn fixed_products(a: &[i64], b: &[i64]) -> i128
    requires lengths { length a.now ≡ length b.now }
    requires few { length a.now ≤ 1000 }
    requires left { AllAtMost (2 ^ 61) a.now }
    requires right { AllAtMost (2 ^ 61) b.now }
    ensures value { result ≡ sum_to (length a.now) (λ k. fixed_product (at a.now k) (at b.now k)) }
    ensures bound { unsigned_abs result ≤ 1000 * 2 ^ 62 }
{
    let mut sum: i128 = 0;
    for k in 0..a.len() {
        sum += fixed_product(a[k], b[k]);
    }
    sum
}

/// The quotient of a number by one above 0, times 2^60 and rounded down.
pub fn fixed_quotient(a: i128, b: i64) -> i128
    requires left { unsigned_abs a ≤ 2 ^ 66 }
    requires right { pos 1 ≤ℤ b }
    ensures { result ≡ fixed_quotient a b }
{
    floor_div(product(a, ONE), i128::from(b))
}
