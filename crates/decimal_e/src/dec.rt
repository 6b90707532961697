//! The type of decimals.

ghost use Rattle.std.specs.Prelude.{◌≡◌, ◌≢◌, pos, negsuc, ◌+ℤ◌, ◌≤ℤ◌, ◌≤◌, ◌<◌, ◌*◌, ◌^◌, ◌%◌, MatchBool};
ghost use Rattle.decimal_e.specs.Decimals.{Decimal, IsCanonical, IsBounded, IsDecOf, OneCanonical, OneForm, signed_like};

use std::marker::Model;

/// A decimal `mant * 10^exp`, canonical: zero has exponent 0, another mantissa is no multiple of 10.
/// The mantissa is below `10^36` in size, the exponent from -800 to 120. So equal values are equal fields.
#[derive(Clone, Copy, PartialEq, Eq, Debug)]
pub struct Dec {
    mant: i128,
    exp: i32,
}

impl Model for Dec {
    ghost Value = { Decimal };

    ghost view = { λ d. record { mant = d.mant; exp = d.exp } };

    ghost invariant = { λ d. IsCanonical (record { mant = d.mant; exp = d.exp }) × IsBounded (record { mant = d.mant; exp = d.exp }) };

    ghost inverse = { λ d. record { mant = d.mant; exp = d.exp } };
}

pub(crate) fn made(mant: i128, exp: i32) -> Dec
    requires canonical { IsCanonical (record { mant = mant; exp = exp }) }
    requires bounded { IsBounded (record { mant = mant; exp = exp }) }
    ensures { result ≡ record { mant = mant; exp = exp } }
{
    Dec { mant, exp }
}

impl Dec {
    /// The number zero.
    pub fn zero() -> Dec
        ensures { result ≡ record { mant = pos 0; exp = pos 0 } }
    {
        made(0, 0)
    }

    /// The whole number in front of the power of ten.
    pub fn mant(&self) -> i128
        ensures value { result ≡ self.now.mant }
        ensures canonical { IsCanonical self.now }
        ensures bounded { IsBounded self.now }
    {
        self.mant
    }

    /// The exponent of ten.
    pub fn exp(&self) -> i32
        ensures value { result ≡ self.now.exp }
        ensures canonical { IsCanonical self.now }
        ensures bounded { IsBounded self.now }
    {
        self.exp
    }

    /// The canonical form of `mant * 10^exp`, and None exactly where it passes the bounds of the type.
    pub fn new(mant: i128, exp: i32) -> Option<Dec>
        requires low { negsuc 9999 ≤ℤ exp }
        requires high { exp ≤ℤ pos 10000 }
        ensures { IsDecOf (record { mant = mant; exp = exp }) result }
    {
        if mant == 0 {
            return Some(made(0, 0));
        }
        let (size, zeros) = stripped(mant.unsigned_abs());
        let exp = raised(exp, zeros);
        if is_bounded(size, exp) {
            Some(made(with_sign(mant, size), exp))
        } else {
            None
        }
    }
}

/// The mantissa is below this in size.
pub(crate) const LIMIT: u128 = 1_000_000_000_000_000_000_000_000_000_000_000_000;

// The exponent of a mantissa without so many zeros at its end.
fn raised(exp: i32, zeros: u32) -> i32
    requires low { negsuc 9999 ≤ℤ exp }
    requires high { exp ≤ℤ pos 10000 }
    requires few { zeros ≤ 38 }
    ensures { result ≡ exp +ℤ pos zeros }
{
    exp + zeros as i32
}

// Whether a mantissa of this size and this exponent are within the bounds of the type.
fn is_bounded(size: u128, exp: i32) -> bool
    ensures { let within = (size < 10 ^ 36) × (negsuc 799 ≤ℤ exp) × (exp ≤ℤ pos 120) in MatchBool result within (¬ within) }
{
    size < LIMIT && -800 <= exp && exp <= 120
}

// The number of this size with the sign of another.
fn with_sign(like: i128, size: u128) -> i128
    requires { size < 10 ^ 36 }
    ensures { result ≡ signed_like like size }
{
    if like < 0 {
        -(size as i128)
    } else {
        size as i128
    }
}

// The number without the zeros at its end, and how many these are.
fn stripped(size: u128) -> (u128, u32)
    requires { 0 < size }
    ensures value { result.0 * 10 ^ result.1 ≡ size }
    ensures end { result.0 % 10 ≢ 0 }
    ensures count { result.1 ≤ 38 }
{
    let mut rest = size;
    let mut zeros = 0;
    while rest % 10 == 0 {
        rest /= 10;
        zeros += 1;
    }
    (rest, zeros)
}

/// Two canonical decimals with one value are one, so equality of fields is equality of numbers.
pub fn one_canonical()
    ensures { OneCanonical }
{}

/// Each decimal has one canonical form.
pub fn one_form()
    ensures { OneForm }
{}
