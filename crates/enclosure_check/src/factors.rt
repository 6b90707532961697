//! Numbers that rows are multiplied with.

ghost use Rattle.std.specs.Prelude.{◌≡◌, ◌≤◌, ◌<◌, ℕ, length, IfOk, IsTrue, ◌↔◌};
ghost use Rattle.std.specs.Vec.{vec_len};
ghost use Rattle.whole_numbers.specs.Lists.{at};
ghost use Rattle.enclosure_check.specs.Rows.{BeginsAs, ZeroOutside};

use std::alloc::{AllocError, Global};

/// A list of numbers, with the places between which all stand that are not zero: a sum of products goes along these alone. Beside it
/// the numbers in 64 bits, up to the first that does not fit these.
#[derive(Drop)]
pub struct Factors<'a> {
    pub numbers: &'a [i128],
    pub first: usize,
    pub end: usize,
    pub short: Vec<i64>,
    pub ghost order: { first ≤ end },
    pub ghost within: { end ≤ length numbers.now },
    pub ghost zeros: { ZeroOutside numbers.now first end },
    pub ghost same: { BeginsAs numbers.now short.items },
}

/// The place of the first number that is not zero, and the place after the last such number.
fn places(numbers: &[i128]) -> (usize, usize)
    ensures order { result.0 ≤ result.1 }
    ensures within { result.1 ≤ length numbers.now }
    ensures zeros { ZeroOutside numbers.now result.0 result.1 }
{
    let mut first = 0;
    let mut end = 0;
    for k in 0..numbers.len() {
        if numbers[k] != 0 {
            if end == 0 {
                first = k;
            }
            end = k + 1;
        }
    }
    (first, end)
}

/// The numbers in 64 bits, up to the first that does not fit these.
fn shortened(alloc: Global, numbers: &[i128]) -> Result<Vec<i64>, AllocError>
    ensures { IfOk result (λ v. BeginsAs numbers.now v.items) }
{
    let mut short = Vec::with_capacity(alloc, numbers.len())?;
    for k in 0..numbers.len() {
        match i64::try_from(numbers[k]) {
            Ok(number) => short.push(number)?,
            Err(_) => return Ok(short),
        }
    }
    Ok(short)
}

impl<'a> Factors<'a> {
    /// The numbers of a list.
    pub fn of(alloc: Global, numbers: &'a [i128]) -> Result<Factors<'a>, AllocError>
        ensures { IfOk result (λ f. f.numbers.now ≡ numbers.now) }
    {
        let (first, end) = places(numbers);
        let short = shortened(alloc, numbers)?;
        Ok(Factors {
            numbers,
            first,
            end,
            short,
        })
    }

    /// Whether each number that is not zero fits 64 bits.
    pub fn is_short(&self) -> bool
        ensures { IsTrue result ↔ (self.now.end ≤ length self.now.short.items) }
    {
        self.end <= self.short.len()
    }
}
