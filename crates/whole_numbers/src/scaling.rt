//! Powers of ten, and whole numbers scaled by them.

ghost use Rattle.std.specs.Prelude.{◌≡◌, ℕ, ℤ, pos, negsuc, ◌*ℤ◌, ◌≤ℤ◌, ◌≤◌, ◌<◌, ◌^◌, unsigned_abs, SomeIff};
ghost use Rattle.whole_numbers.specs.Quotients.{floor_over, ceil_over};
ghost use Rattle.whole_numbers.specs.Scaling.{floor_scaled, ceil_scaled};

use crate::{ceil_div, floor_div, product};

/// The greatest size that a scaled number may have.
const LIMIT: u128 = 10_000_000_000_000_000_000_000_000_000_000_000_000;

/// The power 10^k.
pub fn ten_to(k: u32) -> i128
    requires { k ≤ 38 }
    ensures { result ≡ pos (10 ^ k) }
{
    10_i128.pow(k)
}

/// The number, and None exactly where its size passes 10^37.
fn limited(z: i128) -> Option<i128>
    ensures { SomeIff result (unsigned_abs z ≤ 10 ^ 37) z }
{
    if z.unsigned_abs() <= LIMIT {
        Some(z)
    } else {
        None
    }
}

/// The product with 10^k, and None exactly where its size passes 10^37.
fn raised(z: i128, k: u32) -> Option<i128>
    ensures { SomeIff result (unsigned_abs (z *ℤ pos (10 ^ k)) ≤ 10 ^ 37) (z *ℤ pos (10 ^ k)) }
{
    if z == 0 {
        return Some(0);
    }
    if k > 37 {
        return None;
    }
    let ten = ten_to(k);
    if z.unsigned_abs() > LIMIT / ten.unsigned_abs() {
        return None;
    }
    Some(product(z, ten))
}

/// The quotient by 10^k, rounded down.
fn lowered_floor(z: i128, k: u32) -> i128
    ensures { result ≡ floor_over z (10 ^ k) }
{
    if k <= 38 {
        floor_div(z, ten_to(k))
    } else if z < 0 {
        -1
    } else {
        0
    }
}

/// The quotient by 10^k, rounded up.
fn lowered_ceil(z: i128, k: u32) -> i128
    ensures { result ≡ ceil_over z (10 ^ k) }
{
    if k <= 38 {
        ceil_div(z, ten_to(k))
    } else if z > 0 {
        1
    } else {
        0
    }
}

/// The number times 10^k, rounded down, and None exactly where that passes 10^37 in size.
pub fn scale_floor(z: i128, k: i32) -> Option<i128>
    ensures { SomeIff result (unsigned_abs (floor_scaled z k) ≤ 10 ^ 37) (floor_scaled z k) }
{
    if k < 0 {
        limited(lowered_floor(z, k.unsigned_abs()))
    } else {
        raised(z, k.unsigned_abs())
    }
}

/// The number times 10^k, rounded up, and None exactly where that passes 10^37 in size.
pub fn scale_ceil(z: i128, k: i32) -> Option<i128>
    ensures { SomeIff result (unsigned_abs (ceil_scaled z k) ≤ 10 ^ 37) (ceil_scaled z k) }
{
    if k < 0 {
        limited(lowered_ceil(z, k.unsigned_abs()))
    } else {
        raised(z, k.unsigned_abs())
    }
}
