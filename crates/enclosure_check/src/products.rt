//! Products of 128 bits whose factors mostly fit 64.

ghost use Rattle.std.specs.Prelude.{◌≡◌, ◌≤◌, ◌*◌, ◌^◌, ◌*ℤ◌, unsigned_abs};

use whole_numbers::product;

/// The product of two numbers whose sizes have a product of at most 2^126: `product` of `whole_numbers`, by one multiplication of 64 bits
/// where both fit these. In the passes over a table they mostly do.
pub fn short_product(x: i128, y: i128) -> i128
    requires { unsigned_abs x * unsigned_abs y ≤ 2 ^ 126 }
    ensures { result ≡ x *ℤ y }
{
    match (i64::try_from(x), i64::try_from(y)) {
        (Ok(a), Ok(b)) => i128::from(a) * i128::from(b),
        _ => product(x, y),
    }
}

/// The product of two numbers of 64 bits.
pub fn long_product(a: i64, b: i64) -> i128
    ensures { result ≡ a *ℤ b }
{
    i128::from(a) * i128::from(b)
}
