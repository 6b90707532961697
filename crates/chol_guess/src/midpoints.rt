//! The midpoints of a working table.

ghost use Rattle.std.specs.Prelude.{◌≡◌, ◌≤◌, ◌<◌, ◌+◌, ◌^◌, unsigned_abs, IfOk};
ghost use Rattle.whole_numbers.specs.Lists.{AllAtMost};
ghost use Rattle.chol_guess.specs.Midpoints.{midpoints, HasRows};

use equil::Working;
use std::alloc::{AllocError, Global};
use whole_numbers::Square;

/// The midpoint of the working interval (i, j).
fn midpoint<const N: usize>(w: &Working<N>, i: usize, j: usize) -> i64
    requires row { i < w.now.a.size }
    requires column { j < w.now.a.size }
    ensures value { result ≡ midpoints w.now.a i j }
    ensures bound { unsigned_abs result ≤ 2 ^ 61 }
{
    w.a.get(i, j).mid() as i64
}

/// Makes row `i` of the square the midpoints of that row, after the rows before it.
fn fill_row<const N: usize>(s: &mut Square, w: &Working<N>, i: usize)
    requires size { s.old.size ≡ w.now.a.size }
    requires row { i < w.now.a.size }
    requires small { AllAtMost (2 ^ 61) s.old.numbers }
    requires before { HasRows i w.now.a s.old }
    ensures size { s.new.size ≡ w.now.a.size }
    ensures small { AllAtMost (2 ^ 61) s.new.numbers }
    ensures rows { HasRows (i + 1) w.now.a s.new }
{
    for k in 0..s.size() {
        s.set(i, k, midpoint(w, i, k));
    }
}

/// The midpoints of all working intervals.
pub fn midpoint_square<const N: usize>(alloc: Global, w: &Working<N>) -> Result<Square, AllocError>
    ensures size { IfOk result (λ s. s.size ≡ w.now.a.size) }
    ensures small { IfOk result (λ s. AllAtMost (2 ^ 61) s.numbers) }
    ensures numbers { IfOk result (HasRows w.now.a.size w.now.a) }
{
    let mut square = Square::zeros(alloc, w.a.size())?;
    for i in 0..square.size() {
        fill_row(&mut square, w, i);
    }
    Ok(square)
}
