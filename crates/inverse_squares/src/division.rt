//! Whole numbers divided by others and multiplied by powers of ten, within 128 bits.

ghost use Rattle.std.specs.Prelude.{◌≡◌, ◌≢◌, ℕ, ℤ, pos, negsuc, ◌≤ℤ◌, ◌<ℤ◌, ◌≤◌, ◌<◌, ◌*◌, ◌^◌, suc, unsigned_abs, Option, Some, SomeIff};
ghost use Rattle.whole_numbers.specs.Intervals.{Interval, size};
ghost use Rattle.inverse_squares.specs.Quotients.{quotient, AreTensFor, IsTimesTens};

use interval_word::Iv;
use whole_numbers::{ceil_div, floor_div, product, scale_floor, ten_to};

/// Ten times a number is within 10^37 exactly where the number is at most this.
const TENTH: u128 = 1_000_000_000_000_000_000_000_000_000_000_000_000;

/// The interval with these ends, which are in order: it is never None.
fn between(lo: i128, hi: i128) -> Option<Iv>
    requires { lo ≤ℤ hi }
    ensures { result ≡ Some (record { lo = lo; hi = hi }) }
{
    Iv::new(lo, hi)
}

/// The whole numbers next to `x / den`, below it and above it: never None.
#[tactic(auto, using(crate::proofs::QuotientLaws::next_rules))]
fn next_to(x: i128, den: i128) -> Option<Iv>
    requires { pos 0 <ℤ den }
    ensures { result ≡ Some (quotient x (unsigned_abs den)) }
{
    between(floor_div(x, den), ceil_div(x, den))
}

/// The whole numbers next to `h / den`, for each `den` above `h` in size: never None.
fn next_to_small(h: i128) -> Option<Iv>
    ensures { (den : ℕ) → unsigned_abs h < den → result ≡ Some (quotient h den) }
{
    if h < 0 {
        between(-1, 0)
    } else if h == 0 {
        between(0, 0)
    } else {
        between(0, 1)
    }
}

/// The whole numbers next to `h / (den * 10^k)`, also where that denominator passes 128 bits: never None.
fn divided(h: i128, den: i128, k: i32) -> Option<Iv>
    requires some { pos 0 <ℤ den }
    requires few { unsigned_abs h ≤ 10 ^ 24 }
    requires tens { pos 0 ≤ℤ k }
    ensures { result ≡ Some (quotient h (unsigned_abs den * 10 ^ unsigned_abs k)) }
{
    match scale_floor(den, k) {
        Some(raised) => next_to(h, raised),
        None => next_to_small(h),
    }
}

/// The greatest number up to `most` with `h * 10^tens` at most 10^37 in size.
fn tens_for(h: i128, most: u32) -> u32
    requires { unsigned_abs h ≤ 10 ^ 24 }
    ensures { AreTensFor h most result }
{
    let mut raised = h.unsigned_abs();
    let mut tens = 0;
    while tens < most && raised <= TENTH {
        raised *= 10;
        tens += 1;
    }
    tens
}

/// The interval of `h / den * 10^power`: as many tens as fit are multiplied by before the division, the others after it.
/// None exactly where an end passes 10^37 in size.
fn multiplied(h: i128, den: i128, power: u32) -> Option<Iv>
    requires some { pos 0 <ℤ den }
    requires few { unsigned_abs h ≤ 10 ^ 24 }
    requires high { power ≤ 2000 }
    ensures { (w : Interval) × IsTimesTens h (unsigned_abs den) (pos power) w × SomeIff result (size w ≤ 10 ^ 37) w }
{
    if h == 0 {
        return Some(Iv::point(0));
    }
    let tens = tens_for(h, power);
    let whole = next_to(product(h, ten_to(tens)), den)?;
    whole.scale10((power - tens) as i32)
}

/// The interval of `h / den * 10^power` for a power of either sign, and None exactly where an end passes 10^37 in size.
pub(crate) fn times_tens(h: i128, den: i128, power: i32) -> Option<Iv>
    requires some { pos 0 <ℤ den }
    requires few { unsigned_abs h ≤ 10 ^ 24 }
    requires low { negsuc 1999 ≤ℤ power }
    requires high { power ≤ℤ pos 2000 }
    ensures { (w : Interval) × IsTimesTens h (unsigned_abs den) power w × SomeIff result (size w ≤ 10 ^ 37) w }
{
    if power < 0 {
        divided(h, den, -power)
    } else {
        multiplied(h, den, power.unsigned_abs())
    }
}
