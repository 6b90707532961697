//! One column of the approximate inverse at a scale.

ghost use Rattle.std.specs.Prelude.{◌≡◌, ◌≤◌, ◌<◌, ◌^◌, ℕ, ℤ, pos, ◌≤ℤ◌, length, SomeIff};
ghost use Rattle.std.specs.Bool.{OnTrue, OnFalse};
ghost use Rattle.chol_factor.specs.Factor.{fixed_quotient};
ghost use Rattle.whole_numbers.specs.Squares.{square_at};
ghost use Rattle.whole_numbers.specs.Lists.{at};
ghost use Rattle.chol_guess.specs.Columns.{forward_left, back_left, IsForwardSolution, IsBackSolution, IsInverseColumn};
ghost use Rattle.chol_guess.specs.Rows.{IsTransposed, QuotientFits, IsForwardBefore, IsBackStart, IsBackAfter};

use crate::kernels::wide_fixed_products;
use chol_factor::{Factor, fixed_products, fixed_quotient};
use whole_numbers::Square;

/// The greatest size of what is left of a row.
const LEFT_LIMIT: u128 = 1 << 66;

/// The greatest size of a number of the forward substitution.
const FORWARD_LIMIT: u128 = 1 << 64;

/// The greatest size of a number of the back substitution.
const BACK_LIMIT: u128 = 1 << 60;

/// The quotient, and None exactly where it passes the limit or what is left of the row passes its own.
fn quotient(left: i128, diagonal: i64, limit: u128) -> Option<i128>
    requires { pos 1 ≤ℤ diagonal }
    ensures { SomeIff result (QuotientFits left diagonal limit) (fixed_quotient left diagonal) }
{
    if left.unsigned_abs() > LEFT_LIMIT {
        return None;
    }
    let next = fixed_quotient(left, diagonal);
    if next.unsigned_abs() <= limit {
        Some(next)
    } else {
        None
    }
}

/// What the earlier rows leave of row `i` of the unit column `c`. The numbers before row `c` are 0, and are skipped.
fn forward_left(f: &Factor, g: u32, c: usize, u: &[i128], i: usize) -> i128
    requires { IsForwardBefore f.now.size i (square_at f.now) g c u.now }
    ensures { result ≡ forward_left (square_at f.now) g c (at u.now) i }
{
    let earlier = wide_fixed_products(&f.row(i)[c..i], &u[c..i]);
    if i == c {
        (1 << (g + 10)) - earlier
    } else {
        -earlier
    }
}

/// The number of row `i`, and None exactly where it passes its bounds.
fn next_forward(f: &Factor, g: u32, c: usize, u: &[i128], i: usize) -> Option<i128>
    requires { IsForwardBefore f.now.size i (square_at f.now) g c u.now }
    ensures { SomeIff result (QuotientFits (forward_left (square_at f.now) g c (at u.now) i) (square_at f.now i i) (2 ^ 64)) (fixed_quotient (forward_left (square_at f.now) g c (at u.now) i) (square_at f.now i i)) }
{
    quotient(forward_left(f, g, c, u, i), f.diagonal(i), FORWARD_LIMIT)
}

/// Makes the first `c` numbers 0.
fn clear(u: &mut [i128], c: usize)
    requires { c ≤ length u.old }
    ensures { (k : ℕ) → k < c → at u.new k ≡ pos 0 }
{
    for k in 0..c {
        u[k] = 0;
    }
}

/// Solves for the unit column `c` at the scale `g` by the factor, row by row, and answers whether all of it stays in bounds.
fn forward_substitute(f: &Factor, g: u32, c: usize, u: &mut [i128]) -> bool
    requires scale { g ≤ 50 }
    requires column { c < f.now.size }
    requires len { length u.old ≡ f.now.size }
    ensures up { OnTrue result (IsForwardSolution f.now.size (square_at f.now) g c (at u.new)) }
    ensures none { OnFalse result ((v : ℕ → ℤ) → ¬ (IsForwardSolution f.now.size (square_at f.now) g c v)) }
{
    clear(u, c);
    for i in c..f.size() {
        match next_forward(f, g, c, u, i) {
            Some(next) => u[i] = next,
            None => return false,
        }
    }
    true
}

/// What the later rows leave of row `i` of `u`.
fn back_left(f: &Factor, t: &Square, u: &[i128], x: &[i64], i: usize) -> i128
    requires start { IsBackStart f.now.size (square_at f.now) t.now u.now }
    requires after { IsBackAfter f.now.size i (square_at f.now) u.now x.now }
    ensures { result ≡ back_left f.now.size (square_at f.now) (at u.now) (at x.now) i }
{
    let n = f.size();
    u[i] - fixed_products(&t.row(i)[i + 1..n], &x[i + 1..n])
}

/// The number of row `i`, and None exactly where it passes its bounds.
fn next_back(f: &Factor, t: &Square, u: &[i128], x: &[i64], i: usize) -> Option<i64>
    requires start { IsBackStart f.now.size (square_at f.now) t.now u.now }
    requires after { IsBackAfter f.now.size i (square_at f.now) u.now x.now }
    ensures { SomeIff result (QuotientFits (back_left f.now.size (square_at f.now) (at u.now) (at x.now) i) (square_at f.now i i) (2 ^ 60)) (fixed_quotient (back_left f.now.size (square_at f.now) (at u.now) (at x.now) i) (square_at f.now i i)) }
{
    match quotient(back_left(f, t, u, x, i), f.diagonal(i), BACK_LIMIT) {
        Some(next) => Some(next as i64),
        None => None,
    }
}

/// Solves for `u` by the transpose of the factor, from the last row on, and answers whether all of it stays in bounds.
fn back_substitute(f: &Factor, t: &Square, u: &[i128], x: &mut [i64]) -> bool
    requires start { IsBackStart f.now.size (square_at f.now) t.now u.now }
    requires len { length x.old ≡ f.now.size }
    ensures down { OnTrue result (IsBackSolution f.now.size (square_at f.now) (at u.now) (at x.new)) }
    ensures none { OnFalse result ((y : ℕ → ℤ) → ¬ (IsBackSolution f.now.size (square_at f.now) (at u.now) y)) }
{
    for i in (0..f.size()).rev() {
        match next_back(f, t, u, x, i) {
            Some(next) => x[i] = next,
            None => return false,
        }
    }
    true
}

/// Makes column `c` at the scale `g`, and answers whether all of it stays in bounds.
pub fn column(f: &Factor, t: &Square, g: u32, c: usize, u: &mut [i128], x: &mut [i64]) -> bool
    requires transposed { IsTransposed f.now.size (square_at f.now) t.now }
    requires scale { g ≤ 50 }
    requires within { c < f.now.size }
    requires u_len { length u.old ≡ f.now.size }
    requires x_len { length x.old ≡ f.now.size }
    ensures column { OnTrue result (IsInverseColumn f.now.size (square_at f.now) g c (at x.new)) }
    ensures none { OnFalse result ((y : ℕ → ℤ) → ¬ (IsInverseColumn f.now.size (square_at f.now) g c y)) }
{
    forward_substitute(f, g, c, u) && back_substitute(f, t, u, x)
}
