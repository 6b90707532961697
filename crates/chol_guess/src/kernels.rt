//! The sums that the columns are made of.

ghost use Rattle.std.specs.Prelude.{◌≡◌, ◌≤◌, ◌*◌, ◌^◌, ℤ, length, unsigned_abs};
ghost use Rattle.whole_numbers.specs.Sum.{sum_to};
ghost use Rattle.chol_factor.specs.Factor.{fixed_product};
ghost use Rattle.whole_numbers.specs.Lists.{at, AllAtMost};

/// The product of two numbers over 2^60, rounded down.
fn wide_fixed_product(a: i64, u: i128) -> i128
    requires left { unsigned_abs a ≤ 2 ^ 61 }
    requires right { unsigned_abs u ≤ 2 ^ 64 }
    ensures value { result ≡ fixed_product a u }
    ensures bound { unsigned_abs result ≤ 2 ^ 65 }
{
    (i128::from(a) * u) >> 60
}

/// The sum of the products of two rows, each over 2^60 and rounded down.
pub fn wide_fixed_products(a: &[i64], u: &[i128]) -> i128
    requires lengths { length a.now ≡ length u.now }
    requires few { length a.now ≤ 1000 }
    requires left { AllAtMost (2 ^ 61) a.now }
    requires right { AllAtMost (2 ^ 64) u.now }
    ensures value { result ≡ sum_to (length a.now) (λ k. fixed_product (at a.now k) (at u.now k)) }
    ensures bound { unsigned_abs result ≤ 1000 * 2 ^ 65 }
{
    let mut sum: i128 = 0;
    for k in 0..a.len() {
        sum += wide_fixed_product(a[k], u[k]);
    }
    sum
}
