//! Whole numbers rounded to so many digits.

ghost use Rattle.std.specs.Prelude.{◌≡◌, ◌≤◌, ◌<◌, ◌+◌, ◌*◌, ◌/◌, ◌^◌, ◌≤ℤ◌, ◌+ℤ◌, pos, negsuc};
ghost use Rattle.decimal_text.specs.Texts.{rounded_digits, printed_exponent};

use whole_numbers::ten_to;

/// The number `0.ddd * 10^exponent` by its digits.
#[derive(Drop)]
pub(crate) struct Rounded {
    pub digits: u64,
    pub exponent: i32,
}

// The number over 10^k, rounded to nearest, halves upwards.
fn over(size: u128, k: u32) -> u128
    requires size { size ≤ 2 ^ 127 }
    requires some { 1 ≤ k }
    requires most { k ≤ 38 }
    ensures { result ≡ (2 * size + 10 ^ k) / (2 * 10 ^ k) }
{
    let ten = ten_to(k).unsigned_abs();
    let half = ten / 2;
    (size + half) / ten
}

// Digits with an exponent, where rounding may have made one digit too many: a one and zeros.
fn carried(m: u64, exponent: i32, digits: u32) -> Rounded
    requires digits { digits ≤ 18 }
    requires most { m ≤ 10 ^ digits }
    requires exponent { exponent ≤ℤ pos 10000 }
    ensures kept { m < 10 ^ digits → (result.digits ≡ m) × (result.exponent ≡ exponent) }
    ensures more { m ≡ 10 ^ digits → (result.digits ≡ 10 ^ digits / 10) × (result.exponent ≡ exponent +ℤ pos 1) }
{
    let limit = 10_u64.pow(digits);
    if m < limit {
        Rounded {
            digits: m,
            exponent,
        }
    } else {
        Rounded {
            digits: limit / 10,
            exponent: exponent + 1,
        }
    }
}

/// The number `size * 10^exp`, rounded to so many digits.
pub(crate) fn round_to(size: u128, exp: i32, digits: u32) -> Rounded
    requires size { size ≤ 2 ^ 127 }
    requires low { negsuc 999 ≤ℤ exp }
    requires high { exp ≤ℤ pos 1000 }
    requires some { 1 ≤ digits }
    requires most { digits ≤ 18 }
    ensures digits { result.digits ≡ rounded_digits digits size }
    ensures exponent { result.exponent ≡ printed_exponent digits size exp }
    ensures few { result.digits < 10 ^ digits }
{
    if size == 0 {
        return Rounded {
            digits: 0,
            exponent: 0,
        };
    }
    let count = size.ilog10() + 1;
    let exponent = exp + count as i32;
    if count <= digits {
        return Rounded {
            digits: size as u64 * 10_u64.pow(digits - count),
            exponent,
        };
    }
    carried(over(size, count - digits) as u64, exponent, digits)
}
