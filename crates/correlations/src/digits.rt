//! Decimals with 18 digits.

ghost use Rattle.std.specs.Prelude.{◌≡◌, ◌≤◌, ◌<◌, ◌^◌, ℕ, ℤ, pos, negsuc, ◌≤ℤ◌, MatchOption};
ghost use Rattle.correlations.specs.Correlations.{HasDigits};

use decimal_e::Dec;

/// The least number of 18 digits.
const LEAST: u64 = 100_000_000_000_000_000;

/// The greatest.
const MOST: i128 = 999_999_999_999_999_999;

/// A whole number of 18 digits, times a power of ten.
#[derive(Clone, Copy)]
pub struct Digits {
    /// The number.
    pub mantissa: u64,
    /// The power.
    pub power: i32,
}

/// A number with zeros behind it, as many as give 18 digits.
fn raised(number: u64, power: i32) -> Digits
    requires some { 0 < number }
    requires few { number < 10 ^ 18 }
    requires low { negsuc 799 ≤ℤ power }
    requires high { power ≤ℤ pos 120 }
    ensures digits { HasDigits (record { mant = pos number; exp = power }) result.mantissa result.power }
    ensures low { negsuc 899 ≤ℤ result.power }
    ensures high { result.power ≤ℤ pos 120 }
{
    let mut mantissa = number;
    let mut zeros: u32 = 0;
    while mantissa < LEAST {
        mantissa *= 10;
        zeros += 1;
    }
    Digits {
        mantissa,
        power: power - zeros as i32,
    }
}

/// A positive decimal with 18 digits, and None exactly where it has more or is not positive.
pub fn digits_of(d: &Dec) -> Option<Digits>
    ensures { MatchOption result ((m : ℕ) (k : ℤ) → HasDigits d.now m k → ⊥)
        (λ digits. HasDigits d.now digits.mantissa digits.power × ((negsuc 899 ≤ℤ digits.power) × (digits.power ≤ℤ pos 120))) }
{
    let mant = d.mant();
    if mant <= 0 || mant > MOST {
        return None;
    }
    Some(raised(mant as u64, d.exp()))
}
