//! Texts, cut into the pieces of a numeral.

ghost use Rattle.std.specs.Prelude.{◌≡◌, ◌≢◌, ◌≤◌, ◌-◌, ◌↔◌, [], ◌++◌, length, take, drop, IsTrue, MatchBool, MatchResult};
ghost use Rattle.decimal_e.specs.Grammar.{Is, IsRun, Spells};
ghost use Rattle.decimal_e.specs.Cuts.{Begins, CutsRun, CutsOptional, CutsMantissa, CutsPower, mantissa_of, power_of, numeral_of};
ghost use Rattle.decimal_e.specs.Answers.{IsFault};

use crate::read::DecFault;

/// The bytes that a numeral is written with.
#[derive(Clone, Copy)]
pub(crate) enum Kind {
    Blank,
    Sign,
    Digit,
    Point,
    Letter,
}

/// The pieces of a mantissa.
#[derive(Clone, Copy)]
pub(crate) struct MantissaText<'a> {
    pub(crate) sign: &'a [u8],
    pub(crate) whole: &'a [u8],
    pub(crate) point: &'a [u8],
    pub(crate) fraction: &'a [u8],
}

/// The pieces of an exponent.
#[derive(Clone, Copy)]
pub(crate) struct PowerText<'a> {
    pub(crate) letter: &'a [u8],
    pub(crate) sign: &'a [u8],
    pub(crate) digits: &'a [u8],
}

/// A numeral in its pieces.
#[derive(Clone, Copy)]
pub(crate) struct NumeralText<'a> {
    pub(crate) mantissa: MantissaText<'a>,
    pub(crate) power: PowerText<'a>,
}

fn is_of(kind: Kind, byte: u8) -> bool
    ensures { IsTrue result ↔ Is kind byte }
{
    match kind {
        Kind::Blank => byte == b' ' || byte == b'\t',
        Kind::Sign => byte == b'+' || byte == b'-',
        Kind::Digit => byte >= b'0' && byte <= b'9',
        Kind::Point => byte == b'.',
        Kind::Letter => byte == b'E' || byte == b'D' || byte == b'e' || byte == b'd',
    }
}

fn run_len(kind: Kind, text: &[u8]) -> usize
    ensures within { result ≤ length text.now }
    ensures run { IsRun kind (take result text.now) }
    ensures stop { Begins kind (drop result text.now) → ⊥ }
{
    for (i, byte) in text.iter().enumerate() {
        if !is_of(kind, *byte) {
            return i;
        }
    }
    text.len()
}

fn optional_len(kind: Kind, text: &[u8]) -> usize
    ensures within { result ≤ length text.now }
    ensures one { result ≤ 1 }
    ensures run { IsRun kind (take result text.now) }
    ensures stop { result ≡ 0 → Begins kind text.now → ⊥ }
{
    if text.is_empty() || !is_of(kind, text[0]) {
        0
    } else {
        1
    }
}

fn cut_run(kind: Kind, text: &[u8]) -> (&[u8], &[u8])
    ensures { CutsRun kind text.now result.0.now result.1.now }
{
    text.split_at(run_len(kind, text))
}

fn cut_optional(kind: Kind, text: &[u8]) -> (&[u8], &[u8])
    ensures { CutsOptional kind text.now result.0.now result.1.now }
{
    text.split_at(optional_len(kind, text))
}

fn cut_mantissa(text: &[u8]) -> (MantissaText, &[u8])
    ensures { CutsMantissa text.now (mantissa_of result.0) result.1.now }
{
    let (sign, rest) = cut_optional(Kind::Sign, text);
    let (whole, rest) = cut_run(Kind::Digit, rest);
    let (point, rest) = cut_optional(Kind::Point, rest);
    let (fraction, rest) = cut_run(Kind::Digit, rest);
    let mantissa = MantissaText {
        sign,
        whole,
        point,
        fraction,
    };
    (mantissa, rest)
}

fn cut_power(text: &[u8]) -> (PowerText, &[u8])
    ensures { CutsPower text.now (power_of result.0) result.1.now }
{
    let (letter, rest) = cut_optional(Kind::Letter, text);
    let (sign, rest) = cut_optional(Kind::Sign, rest);
    let (digits, rest) = cut_run(Kind::Digit, rest);
    let power = PowerText {
        letter,
        sign,
        digits,
    };
    (power, rest)
}

// Whether a mantissa has a digit.
fn has_digits(mantissa: &MantissaText) -> bool
    ensures { let m = mantissa_of mantissa.now in MatchBool result (m.whole ++ m.fraction ≢ []) (m.whole ++ m.fraction ≡ []) }
{
    !mantissa.whole.is_empty() || !mantissa.fraction.is_empty()
}

// Whether an exponent has begun, and has no digit.
fn is_open(power: &PowerText) -> bool
    ensures { let p = power_of power.now in MatchBool result ((p.letter ++ p.sign ≢ []) × (p.digits ≡ [])) (p.letter ++ p.sign ≢ [] → p.digits ≢ []) }
{
    power.digits.is_empty() && !(power.letter.is_empty() && power.sign.is_empty())
}

/// Cuts a text into the pieces of its numeral, or says where it leaves the grammar.
pub(crate) fn cut_numeral(text: &[u8]) -> Result<NumeralText, DecFault>
    ensures { MatchResult result (λ n. Spells (numeral_of n) text.now) (IsFault text.now) }
{
    let (_, rest) = cut_run(Kind::Blank, text);
    if rest.is_empty() {
        return Err(DecFault::Empty);
    }
    let (mantissa, rest) = cut_mantissa(rest);
    if !has_digits(&mantissa) {
        return Err(left_at(text, rest));
    }
    let (power, rest) = cut_power(rest);
    if is_open(&power) {
        return Err(left_at(text, rest));
    }
    let (_, rest) = cut_run(Kind::Blank, rest);
    if !rest.is_empty() {
        return Err(left_at(text, rest));
    }
    Ok(NumeralText { mantissa, power })
}

// The fault of a text that is in the grammar up to the rest.
fn left_at(text: &[u8], rest: &[u8]) -> DecFault
    requires { length rest.now ≤ length text.now }
    ensures { result ≡ DecFault.Char (length text.now - length rest.now) }
{
    DecFault::Char {
        at: text.len() - rest.len(),
    }
}
