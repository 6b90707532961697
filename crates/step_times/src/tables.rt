//! The table that is measured.

ghost use Rattle.std.specs.Prelude.{◌≤◌, ◌≡◌, ◌^◌, unsigned_abs, IfOk};

use interval_word::Iv;
use std::alloc::{AllocError, Global};
use sym_blocks::SymBlock;

/// The next number of the sequence (xorshift, Marsaglia 2003).
fn next(s: u64) -> u64 {
    let s = s ^ (s << 13);
    let s = s ^ (s >> 7);
    s ^ (s << 17)
}

/// The low end of an entry at the diagonal, or beside it in a table of `n` rows.
fn low_end(s: u64, is_diagonal: bool, n: usize) -> i128
    requires { 1 ≤ n }
    ensures { unsigned_abs result ≤ 2 ^ 60 }
{
    let v = i128::from(s >> 6);
    if is_diagonal {
        return (1 << 59) + v;
    }
    let small = v / (4 * n as i128);
    if s % 2 == 1 { small } else { -small }
}

/// The interval from `low` to the next number.
fn width_one(low: i128) -> Iv
    requires { unsigned_abs low ≤ 2 ^ 60 }
{
    match Iv::new(low, low + 1) {
        Some(interval) => interval,
        None => Iv::point(low),
    }
}

/// A strongly diagonal table of `n` rows.
pub fn strongly_diagonal(alloc: Global, n: usize) -> Result<SymBlock<16>, AllocError>
    requires some { 1 ≤ n }
    requires few { n ≤ 1000 }
    ensures { IfOk result (λ t. t.size ≡ n) }
{
    let mut table = SymBlock::zero(alloc, n)?;
    let mut s = 88_172_645_463_325_252;
    for i in 0..n {
        for j in 0..i + 1 {
            s = next(s);
            table.set(i, j, width_one(low_end(s, i == j, n)));
        }
    }
    Ok(table)
}
