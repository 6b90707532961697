//! Rounding to 15 significant digits.

ghost use Rattle.std.specs.Prelude.{◌≡◌, ◌+◌, ◌*◌, ◌/◌, ◌≤◌, ◌<◌, ◌^◌, unsigned_abs, nat_lt};
ghost use Rattle.whole_numbers.specs.Least.{least_below};
ghost use Rattle.bounds_report.specs.Digits.{to_15_digits};

use whole_numbers::ten_to;

/// The power 10^k.
#[tactic(auto, using(crate::proofs::RoundingLaws::ten_rules))]
fn ten_power(k: u32) -> u128
    requires { k ≤ 38 }
    ensures value { result ≡ 10 ^ k }
    ensures some { 0 < result }
    ensures bound { result ≤ 10 ^ 38 }
{
    ten_to(k).unsigned_abs()
}

/// Whether the number has at most 15 digits before its last `k`.
fn has_15_before(size: u128, k: u32) -> bool
    requires { k ≤ 23 }
    ensures { result ≡ nat_lt size (10 ^ (15 + k)) }
{
    size < ten_power(15 + k)
}

/// How many digits a number has after its first 15.
fn digits_beyond(size: u128) -> u32
    requires { size ≤ 10 ^ 37 }
    ensures value { result ≡ least_below 40 (λ k. nat_lt size (10 ^ (15 + k))) }
    ensures bound { result ≤ 23 }
{
    let mut k = 0;
    while k < 23 && !has_15_before(size, k) {
        k += 1;
    }
    k
}

/// The multiple of 10^k next to the number, halves upwards.
#[tactic(auto, using(crate::proofs::RoundingLaws::rounded_rules))]
fn rounded(size: u128, k: u32) -> u128
    requires small { size ≤ 10 ^ 37 }
    requires few { k ≤ 23 }
    ensures value { result ≡ (size + 10 ^ k / 2) / 10 ^ k * 10 ^ k }
    ensures bound { result ≤ 10 ^ 38 }
{
    let ten = ten_power(k);
    (size + ten / 2) / ten * ten
}

/// The number rounded to 15 significant digits, halves away from zero.
pub fn to_15_digits(v: i128) -> i128
    requires { unsigned_abs v ≤ 10 ^ 37 }
    ensures value { result ≡ to_15_digits v }
    ensures bound { unsigned_abs result ≤ 10 ^ 38 }
{
    let size = v.unsigned_abs();
    let near = rounded(size, digits_beyond(size)) as i128;
    if v < 0 { -near } else { near }
}
