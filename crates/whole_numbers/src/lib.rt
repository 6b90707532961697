//! Arithmetic of whole numbers that fit 128 bits: products, quotients rounded down and up, and scaling by
//! powers of two and ten. The definitions and the laws of whole numbers, of their sums, and of intervals
//! (pairs of whole numbers between which fractions lie) stand in `specs/` and `proofs/`, for the crates above.
#![tactic(auto)]

ghost use Rattle.std.specs.Prelude.{◌≡◌, ℕ, ℤ, pos, ◌+ℤ◌, ◌-ℤ◌, ◌*ℤ◌, neg_ℤ, ◌≤ℤ◌, ◌<ℤ◌, ◌≤◌, ◌<◌, ◌*◌, ◌^◌, FitsSigned, unsigned_abs};
ghost use Rattle.whole_numbers.specs.Quotients.{floor_over, ceil_over};

mod least;
mod scaling;
mod squares;
mod transposes;

pub use least::least_passed;
pub use scaling::{scale_ceil, scale_floor, ten_to};
pub use squares::Square;
pub use transposes::{set_column, transposed};

/// The product of two numbers whose sizes have a product of at most 2^126.
#[tactic(auto, using(crate::proofs::Fits::product_bits, crate::proofs::Fits::product_value))]
pub fn product(a: i128, b: i128) -> i128
    requires { unsigned_abs a * unsigned_abs b ≤ 2 ^ 126 }
    ensures { result ≡ a *ℤ b }
{
    a * b
}

/// The quotient rounded down.
pub fn floor_div(x: i128, den: i128) -> i128
    requires { pos 0 <ℤ den }
    ensures { result ≡ floor_over x (unsigned_abs den) }
{
    x.div_euclid(den)
}

/// The quotient rounded up.
pub fn ceil_div(x: i128, den: i128) -> i128
    requires { pos 0 <ℤ den }
    ensures { result ≡ ceil_over x (unsigned_abs den) }
{
    let below = x.div_euclid(den);
    if x.rem_euclid(den) == 0 {
        below
    } else {
        below + 1
    }
}

/// The number over 2^h, rounded down.
pub fn shift_floor(x: i128, h: u32) -> i128
    requires { h ≤ 126 }
    ensures { result ≡ floor_over x (2 ^ h) }
{
    x >> h
}

/// The number over 2^h, rounded up.
pub fn shift_ceil(x: i128, h: u32) -> i128
    requires { h ≤ 126 }
    ensures { result ≡ ceil_over x (2 ^ h) }
{
    ceil_div(x, 1 << h)
}
