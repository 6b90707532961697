//! All columns at a scale, and the greatest scale at which all of them stay in their bounds.

ghost use Rattle.std.specs.Prelude.{◌≡◌, ◌≤◌, ◌<◌, ◌^◌, ℕ, ℤ, length, unsigned_abs, IfSome, IfNone, IfOk, IfErr};
ghost use Rattle.std.specs.Bool.{OnTrue, OnFalse};
ghost use Rattle.whole_numbers.specs.Squares.{square_at};
ghost use Rattle.whole_numbers.specs.Lists.{at, AllAtMost};
ghost use Rattle.chol_guess.specs.Columns.{IsInverseColumn};
ghost use Rattle.chol_guess.specs.Pilots.{nearest};
ghost use Rattle.chol_guess.specs.Rows.{IsTransposed, HasColumn, PlacesColumns, KeepsColumns, IsFirstFailing, IsGreatestScale, IsFailure, IsRoom};

use crate::columns::column;
use chol_factor::Factor;
use whole_numbers::{Square, set_column};

/// The number over 1024, to nearest.
fn nearest(x: i64) -> i64
    requires { unsigned_abs x ≤ 2 ^ 60 }
    ensures value { result ≡ nearest x }
    ensures small { unsigned_abs result ≤ 2 ^ 50 }
{
    (x + 512) >> 10
}

/// Brings the numbers to units of 2^10, to nearest.
fn round(x: &mut [i64])
    requires { AllAtMost (2 ^ 60) x.old }
    ensures value { (k : ℕ) → k < length x.old → at x.new k ≡ nearest (at x.old k) }
    ensures small { AllAtMost (2 ^ 50) x.new }
{
    for k in 0..x.len() {
        x[k] = nearest(x[k]);
    }
}

/// Writes column `c` at the scale `g` into `r`, and answers whether all of it stays in bounds.
fn place_column(
    f: &Factor,
    t: &Square,
    g: u32,
    c: usize,
    u: &mut [i128],
    x: &mut [i64],
    r: &mut Square,
) -> bool
    requires transposed { IsTransposed f.now.size (square_at f.now) t.now }
    requires scale { g ≤ 50 }
    requires within { c < f.now.size }
    requires room { IsRoom f.now.size u.old x.old r.old }
    ensures column { OnTrue result (HasColumn f.now.size (square_at f.now) g r.new c) }
    ensures size { r.new.size ≡ f.now.size }
    ensures others { KeepsColumns f.now.size c r.old r.new }
    ensures small { AllAtMost (2 ^ 50) r.new.numbers }
    ensures none { OnFalse result ((y : ℕ → ℤ) → ¬ (IsInverseColumn f.now.size (square_at f.now) g c y)) }
{
    if !column(f, t, g, c, u, x) {
        return false;
    }
    round(x);
    set_column(r, c, x);
    true
}

/// Writes all columns at the scale `g` into `r`, and answers the first that fails its bounds.
fn place_columns(
    f: &Factor,
    t: &Square,
    g: u32,
    u: &mut [i128],
    x: &mut [i64],
    r: &mut Square,
) -> Option<usize>
    requires transposed { IsTransposed f.now.size (square_at f.now) t.now }
    requires scale { g ≤ 50 }
    requires room { IsRoom f.now.size u.old x.old r.old }
    ensures columns { IfNone result (PlacesColumns f.now.size (square_at f.now) g r.new f.now.size) }
    ensures first { IfSome result (IsFirstFailing f.now.size (square_at f.now) g) }
    ensures size { r.new.size ≡ f.now.size }
    ensures small { AllAtMost (2 ^ 50) r.new.numbers }
{
    for c in 0..f.size() {
        if !place_column(f, t, g, c, u, x, r) {
            return Some(c);
        }
    }
    None
}

/// The greatest scale at which all columns stay in their bounds, with these in `r`, or the first column that
/// fails at the least scale.
pub fn greatest_scale(
    f: &Factor,
    t: &Square,
    u: &mut [i128],
    x: &mut [i64],
    r: &mut Square,
) -> Result<u32, usize>
    requires transposed { IsTransposed f.now.size (square_at f.now) t.now }
    requires room { IsRoom f.now.size u.old x.old r.old }
    ensures size { r.new.size ≡ f.now.size }
    ensures scale { IfOk result (λ g. IsGreatestScale f.now.size (square_at f.now) g r.new) }
    ensures small { AllAtMost (2 ^ 50) r.new.numbers }
    ensures failure { IfErr result (IsFailure f.now.size (square_at f.now)) }
{
    let mut g = 50;
    'scales: loop {
        match place_columns(f, t, g, u, x, r) {
            None => return Ok(g),
            Some(col) => {
                if g == 0 {
                    return Err(col);
                }
            }
        }
        g -= 10;
    }
}
