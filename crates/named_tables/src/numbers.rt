//! Numbers times the weight as intervals, and powers of ten.

ghost use Rattle.std.specs.Prelude.{◌≡◌, ◌<◌, pos, negsuc, ◌≤ℤ◌, ◌-ℤ◌, All, length};
ghost use Rattle.whole_numbers.specs.Lists.{at};
ghost use Rattle.decimal_e.specs.Decimals.{product};
ghost use Rattle.decimal_e.specs.Scales.{decimal_interval};
ghost use Rattle.param_ids.specs.Tables.{IsScale};
ghost use Rattle.named_tables.specs.Parts.{IsKept, StandsFor, pair_power};

use decimal_e::{Dec, interval_at};
use interval_word::Iv;
use snx_matrices::Content;

/// A number past every bound.
const FAR: i128 = 100_000_000_000_000_000_000_000_000_000_000_000;

/// The interval of a decimal times 10^k, or one that is too great, as it is.
fn shown_at(d: &Dec, k: i32) -> Iv
    requires low { negsuc 99 ≤ℤ k }
    requires high { k ≤ℤ pos 100 }
    ensures { IsKept (decimal_interval d.now k) result }
{
    match interval_at(d, k) {
        Some(interval) => interval,
        None => Iv::point(FAR),
    }
}

/// The interval of a decimal times the weight, times 10^k, or one that is too great, as it is.
pub fn weighted_at(weight: &Dec, d: &Dec, k: i32) -> Iv
    requires low { negsuc 99 ≤ℤ k }
    requires high { k ≤ℤ pos 100 }
    ensures { StandsFor (product weight.now d.now) k result }
{
    match weight.times(d) {
        Some(number) => shown_at(&number, k),
        None => Iv::point(FAR),
    }
}

/// A scale exponent.
fn exponent_at(exponents: &[i32], row: usize) -> i32
    requires within { row < length exponents.now }
    requires scales { All IsScale exponents.now }
    ensures value { result ≡ at exponents.now row }
    ensures range { IsScale result }
{
    exponents[row]
}

/// The power of ten of a row: 18 less its scale exponent.
pub fn row_scale(exponents: &[i32], row: usize) -> i32
    requires within { row < length exponents.now }
    requires scales { All IsScale exponents.now }
    ensures value { result ≡ pos 18 -ℤ at exponents.now row }
    ensures low { pos 12 ≤ℤ result }
    ensures high { result ≤ℤ pos 22 }
{
    18 - exponent_at(exponents, row)
}

/// The power of ten of a row and a column: of an information matrix 18 less both scale exponents, of covariances 24 and both, of
/// correlations 18.
pub fn pair_scale(content: Content, exponents: &[i32], row: usize, col: usize) -> i32
    requires row { row < length exponents.now }
    requires col { col < length exponents.now }
    requires scales { All IsScale exponents.now }
    ensures value { result ≡ pair_power content exponents.now row col }
    ensures low { pos 6 ≤ℤ result }
    ensures high { result ≤ℤ pos 36 }
{
    let (one, other) = (exponent_at(exponents, row), exponent_at(exponents, col));
    match content {
        Content::Info => 18 - one - other,
        Content::Cova => 24 + one + other,
        Content::Corr => 18,
    }
}
