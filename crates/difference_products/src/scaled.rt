//! The differences in the units of a working table.

ghost use Rattle.std.specs.Prelude.{◌≡◌, ◌≤◌, ◌<◌, ◌^◌, ℕ, pos, ◌+ℤ◌, ◌-ℤ◌, All, length, IfOk, IfErr, IsTrue, ◌↔◌, SomeIff};
ghost use Rattle.whole_numbers.specs.Intervals.{size};
ghost use Rattle.whole_numbers.specs.Lists.{at};
ghost use Rattle.sym_blocks.specs.Tables.{zero_interval};
ghost use Rattle.equil.specs.Rows.{AllInRange};
ghost use Rattle.equil.specs.Tables.{exponent_of};
ghost use Rattle.param_ids.specs.Tables.{IsScale};
ghost use Rattle.difference_products.specs.Answers.{IfRange};
ghost use Rattle.difference_products.specs.Parts.{OnDiagonal, interval_of, scaled_of, AreScaledTo, IsFirstFar};

use crate::ProductError;
use interval_word::Iv;
use std::alloc::Global;

/// The greatest sum of the sizes of the scaled differences.
const SUM_LIMIT: u128 = 1 << 64;

/// Whether the interval is that of the number zero.
fn is_zero(w: &Iv) -> bool
    ensures { IsTrue result ↔ (w.now ≡ zero_interval) }
{
    w.mag() == 0
}

/// Whether all differences are zero.
pub fn are_zero(differences: &[Iv]) -> bool
    ensures { IsTrue result ↔ All (λ w. w ≡ zero_interval) differences.now }
{
    differences.iter().all(|w| is_zero(w))
}

/// The power of ten by which a difference comes into the units of the working table.
fn power(scales: &[i32], exponents: &[i32], j: usize) -> i32
    requires scale { j < length scales.now }
    requires exponent { j < length exponents.now }
    requires scaled { All IsScale scales.now }
    requires range { AllInRange exponents.now }
    ensures { result ≡ at scales.now j +ℤ exponent_of exponents.now j -ℤ pos 8 }
{
    scales[j] + exponents[j] - 8
}

/// A difference in the units of the working table, and None exactly where it is greater than the limit in size.
fn scaled_within(
    differences: &[Iv],
    scales: &[i32],
    exponents: &[i32],
    j: usize,
    limit: u128,
) -> Option<Iv>
    requires row { j < length differences.now }
    requires scales { length scales.now ≡ length differences.now }
    requires exponents { length exponents.now ≡ length differences.now }
    requires scaled { All IsScale scales.now }
    requires range { AllInRange exponents.now }
    requires most { limit ≤ 10 ^ 37 }
    ensures { SomeIff result (size (scaled_of differences.now scales.now exponents.now j) ≤ limit) (scaled_of differences.now scales.now exponents.now j) }
{
    differences[j].scale10_within(power(scales, exponents, j), limit)
}

/// The differences in the units of the working table. Range comes exactly where their sizes pass 2^64 in sum, with the row at which
/// they first do.
pub fn scaled_differences(
    alloc: Global,
    differences: &[Iv],
    scales: &[i32],
    exponents: &[i32],
) -> Result<Vec<Iv>, ProductError>
    requires scales { length scales.now ≡ length differences.now }
    requires exponents { length exponents.now ≡ length differences.now }
    requires scaled { All IsScale scales.now }
    requires range { AllInRange exponents.now }
    ensures scaled { IfOk result (λ zs. AreScaledTo (length differences.now) differences.now scales.now exponents.now zs.items) }
    ensures far { IfErr result (IfRange (OnDiagonal (IsFirstFar (length differences.now) differences.now scales.now exponents.now))) }
{
    let mut all = Vec::new(alloc);
    let mut room = SUM_LIMIT;
    for row in 0..differences.len() {
        match scaled_within(differences, scales, exponents, row, room) {
            Some(z) => {
                room -= z.mag();
                if all.push(z).is_err() {
                    return Err(ProductError::Memory);
                }
            }
            None => return Err(ProductError::Range { row, col: row }),
        }
    }
    Ok(all)
}
