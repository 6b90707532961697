//! Digits, read as numbers.

ghost use Rattle.std.specs.Prelude.{◌≡◌, ℕ, ◌+◌, ◌-◌, ◌*◌, ◌≤◌, ◌<◌, ◌^◌, List, [], ◌∷◌, ◌++◌, length, min};
ghost use Rattle.decimal_e.specs.Grammar.{IsRun, digits_of};
ghost use Rattle.decimal_e.specs.Cuts.{mantissa_of};
ghost use Rattle.decimal_e.specs.Digits.{number};
ghost use Rattle.decimal_e.specs.Tallies.{Tallies};

use crate::cut::{Kind, MantissaText};

/// What is kept of the digits of a mantissa: how many there are from the first that isn't 0 to the last
/// that isn't, their number while these are at most 18, and how many zeros stand behind them.
#[derive(Clone, Copy)]
pub(crate) struct Tally {
    pub(crate) digits: usize,
    pub(crate) value: u64,
    pub(crate) zeros: usize,
}

// The number of a tally's digits, its zeros and one digit more, where these are at most 18.
fn value_with(tally: Tally, byte: u8) -> u64
    requires digit { (48 ≤ byte) × (byte ≤ 57) }
    requires few { tally.digits + tally.zeros < 18 }
    requires small { tally.value < 10 ^ tally.digits }
    ensures value { result ≡ tally.value * 10 ^ (tally.zeros + 1) + (byte - 48) }
    ensures small { result < 10 ^ (tally.digits + tally.zeros + 1) }
{
    tally.value * 10_u64.pow(tally.zeros as u32 + 1) + u64::from(byte - b'0')
}

// The tally with one digit more.
fn tally_digit(tally: Tally, byte: u8) -> Tally
    requires digit { (48 ≤ byte) × (byte ≤ 57) }
    requires room { tally.digits + tally.zeros + 1 < 2 ^ 64 }
    requires small { tally.digits ≤ 18 → tally.value < 10 ^ tally.digits }
    ensures tallies { (before : List ℕ) → Tallies tally before → Tallies result (before ++ byte ∷ []) }
    ensures room { result.digits + result.zeros ≤ tally.digits + tally.zeros + 1 }
    ensures small { result.digits ≤ 18 → result.value < 10 ^ result.digits }
{
    if byte == b'0' {
        let zeros = if tally.digits == 0 {
            0
        } else {
            tally.zeros + 1
        };
        return Tally { zeros, ..tally };
    }
    let value = if tally.digits + tally.zeros < 18 {
        value_with(tally, byte)
    } else {
        0
    };
    Tally {
        digits: tally.digits + tally.zeros + 1,
        value,
        zeros: 0,
    }
}

// The tally with more digits.
fn tally_more(tally: Tally, digits: &[u8]) -> Tally
    requires run { IsRun Kind.Digit digits.now }
    requires room { tally.digits + tally.zeros + length digits.now < 2 ^ 64 }
    requires small { tally.digits ≤ 18 → tally.value < 10 ^ tally.digits }
    ensures tallies { (before : List ℕ) → Tallies tally before → Tallies result (before ++ digits.now) }
    ensures room { result.digits + result.zeros ≤ tally.digits + tally.zeros + length digits.now }
    ensures small { result.digits ≤ 18 → result.value < 10 ^ result.digits }
{
    let mut all = tally;
    for byte in digits {
        all = tally_digit(all, *byte);
    }
    all
}

/// The tally of the digits of a mantissa.
pub(crate) fn tally_of(mantissa: &MantissaText) -> Tally
    requires whole { IsRun Kind.Digit mantissa.now.whole.now }
    requires fraction { IsRun Kind.Digit mantissa.now.fraction.now }
    ensures { Tallies result (digits_of (mantissa_of mantissa.now)) }
{
    let none = Tally {
        digits: 0,
        value: 0,
        zeros: 0,
    };
    tally_more(tally_more(none, mantissa.whole), mantissa.fraction)
}

/// The number that the digits write, or 1000 where it is more.
pub(crate) fn capped(digits: &[u8]) -> u32
    requires { IsRun Kind.Digit digits.now }
    ensures { result ≡ min (number digits.now) 1000 }
{
    let mut power = 0_u32;
    for byte in digits {
        power = (power * 10 + u32::from(*byte - b'0')).min(1000);
    }
    power
}
