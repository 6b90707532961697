//! Decimals, read from text.

ghost use Rattle.std.specs.Prelude.{◌≡◌, pos, ◌+ℤ◌, ◌-ℤ◌, ◌*ℤ◌, ◌≤◌, unsigned_abs, length, Result};
ghost use Rattle.decimal_e.specs.Decimals.{Decimal};
ghost use Rattle.decimal_e.specs.Grammar.{IsMantissa, IsPower, sign_of};
ghost use Rattle.decimal_e.specs.Cuts.{numeral_of, mantissa_of, power_of};
ghost use Rattle.decimal_e.specs.Answers.{IsAnswer, IsValue, OneNumeral, OneAnswer};

use crate::cut::{NumeralText, cut_numeral};
use crate::dec::{Dec, made};
use crate::digits::{capped, tally_of};
use thiserror::Error;

/// What is wrong with the text of a decimal.
#[derive(Debug, Clone, Copy, PartialEq, Eq, Error)]
pub enum DecFault {
    /// Only blanks or nothing.
    #[error("no number")]
    Empty,
    /// Not a decimal; `at` is the length of the longest prefix that some decimal begins with.
    #[error("byte {at} does not belong to a number")]
    Char { at: usize },
    /// More than 18 digits from the first that isn't 0 to the last that isn't.
    #[error("more than 18 digits")]
    Digits,
    /// The written exponent passes 999 in size, or the canonical one of a number that isn't zero is outside -400 to 60.
    #[error("exponent out of range")]
    Exponent,
}

/// The most digits from the first that isn't 0 to the last that isn't.
const MOST_DIGITS: usize = 18;

/// The greatest size of a written exponent.
const GREATEST_WRITTEN: u32 = 999;

/// The least and the greatest canonical exponent of a number that isn't zero.
const LEAST_EXPONENT: i128 = -400;

const GREATEST_EXPONENT: i128 = 60;

// The sign's factor times the size.
fn signed(sign: &[u8], size: u64) -> i128
    ensures value { result ≡ sign_of sign.now *ℤ pos size }
    ensures size { unsigned_abs result ≡ size }
{
    if !sign.is_empty() && sign[0] == b'-' {
        -i128::from(size)
    } else {
        i128::from(size)
    }
}

// The exponent of a numeral, of which the digits behind the point and zeros at the end are taken off.
fn exponent_of(numeral: &NumeralText, written: u32, zeros: usize) -> i128
    requires { written ≤ 999 }
    ensures { let n = numeral_of numeral.now in
        result ≡ sign_of n.power.sign *ℤ pos written -ℤ pos (length n.mantissa.fraction) +ℤ pos zeros }
{
    let fraction = numeral.mantissa.fraction.len();
    signed(numeral.power.sign, u64::from(written)) - fraction as i128 + zeros as i128
}

// The number of a numeral.
fn numeral_value(numeral: &NumeralText) -> Result<Dec, DecFault>
    requires mantissa { IsMantissa (mantissa_of numeral.now.mantissa) }
    requires power { IsPower (power_of numeral.now.power) }
    ensures { IsValue (numeral_of numeral.now) result }
{
    let tally = tally_of(&numeral.mantissa);
    if tally.digits > MOST_DIGITS {
        return Err(DecFault::Digits);
    }
    let written = capped(numeral.power.digits);
    if written > GREATEST_WRITTEN {
        return Err(DecFault::Exponent);
    }
    if tally.value == 0 {
        return Ok(made(0, 0));
    }
    let exp = exponent_of(numeral, written, tally.zeros);
    if exp < LEAST_EXPONENT || exp > GREATEST_EXPONENT {
        return Err(DecFault::Exponent);
    }
    Ok(made(signed(numeral.mantissa.sign, tally.value), exp as i32))
}

/// Reads a decimal in its canonical form: blanks, an optional sign, digits with at most one point among or around them and at
/// least one digit, an optional exponent, blanks. A blank is a space or a tab. An exponent is one of
/// `E e D d`, an optional sign and at least one digit, or a bare sign and at least one digit. Faults are
/// tested in the order of [`DecFault`]. The text may have any length.
pub fn read_dec(text: &[u8]) -> Result<Dec, DecFault>
    ensures answer { IsAnswer text.now result }
    // No other answer is right.
    ensures only { (other : Result Decimal DecFault) → IsAnswer text.now other → other ≡ result }
{
    match cut_numeral(text) {
        Ok(numeral) => numeral_value(&numeral),
        Err(fault) => Err(fault),
    }
}

/// The grammar is unambiguous: a text has at most one numeral.
pub fn one_numeral()
    ensures { OneNumeral }
{}

/// At most one answer to a text is right.
pub fn one_answer()
    ensures { OneAnswer }
{}
