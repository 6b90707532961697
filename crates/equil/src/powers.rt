//! The power of ten of a row.

ghost use Rattle.std.specs.Prelude.{◌≡◌, ◌≤◌, ◌<◌, ◌*◌, ◌^◌, ℕ, ℤ, pos, negsuc, ◌≤ℤ◌, ◌<ℤ◌};
ghost use Rattle.equil.specs.Exponents.{IsExponent, IsInRange};

/// The greatest high end that a scaled diagonal interval may have.
const TOP: u128 = 1_152_921_504_606_846_976;

/// The least `k` with `h / 100^k` at most 2^60.
fn divisions(h: u128) -> u32
    requires some { 2 ^ 60 < 100 * h }
    requires few { h < 2 ^ 127 }
    ensures above { 2 ^ 60 * 100 ^ result < 100 * h }
    ensures below { h ≤ 2 ^ 60 * 100 ^ result }
    ensures few { result ≤ 11 }
{
    let mut rest = h;
    let mut k = 0;
    while rest > TOP {
        rest = rest.div_ceil(100);
        k += 1;
    }
    k
}

/// The greatest `k` with `h * 100^k` at most 2^60.
fn products(h: u128) -> u32
    requires some { 0 < h }
    requires most { h ≤ 2 ^ 60 }
    ensures above { 2 ^ 60 < 100 * (h * 100 ^ result) }
    ensures below { h * 100 ^ result ≤ 2 ^ 60 }
    ensures few { result ≤ 9 }
{
    let mut rest = h;
    let mut k = 0;
    while rest <= TOP / 100 {
        rest *= 100;
        k += 1;
    }
    k
}

/// The whole number `e` with `hi * 10^(-2e)` above 2^60 / 100 and at most 2^60, and 0 where `hi` is not above 0.
pub fn exponent(hi: i128) -> i32
    ensures value { IsExponent hi result }
    ensures range { IsInRange result }
{
    if hi <= 0 {
        return 0;
    }
    let h = hi.unsigned_abs();
    if h > TOP / 100 {
        divisions(h).cast_signed()
    } else {
        -products(h).cast_signed()
    }
}
