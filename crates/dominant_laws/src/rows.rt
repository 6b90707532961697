//! The test for a dominant working table, row by row.

ghost use Rattle.std.specs.Prelude.{◌≡◌, ◌≤◌, ◌<◌, ◌*◌, ◌^◌, ◌↔◌, ℕ, pos, ◌≤ℤ◌, slice_index_or, IsTrue, cond, eqb, unsigned_abs};
ghost use Rattle.whole_numbers.specs.Intervals.{size};
ghost use Rattle.sym_blocks.specs.Tables.{entry_at, zero_interval};
ghost use Rattle.chol_guess.specs.Midpoints.{midpoints};
ghost use Rattle.equil.specs.Tables.{table_of};
ghost use Rattle.dominant_laws.specs.Dominant.{IsDominant, IsDominantRow, IsNarrow, off_diagonal_sum};

use equil::Working;
use interval_word::Iv;

/// The least diagonal.
const LEAST: i128 = 1 << 53;

/// How many times the rest of its row a diagonal comes to.
const TIMES: u128 = 4;

/// The greatest size of an interval of the right side.
const RIGHT_LIMIT: u128 = 1 << 100;

/// Whether the interval is one number or two neighbours.
fn is_narrow(w: &Iv) -> bool
    requires { size w.now ≤ 10 ^ 37 }
    ensures { IsTrue result ↔ IsNarrow w.now }
{
    w.hi() - w.lo() <= 1
}

/// The size of the midpoint at (i, j), and 0 on the diagonal.
fn off_diagonal<const N: usize>(w: &Working<N>, i: usize, j: usize) -> u128
    requires row { i < w.now.a.size }
    requires column { j < w.now.a.size }
    ensures value { result ≡ cond (eqb j i) 0 (unsigned_abs (midpoints w.now.a i j)) }
    ensures bound { result ≤ 2 ^ 61 }
{
    if j == i {
        0
    } else {
        w.a.get(i, j).mid().unsigned_abs()
    }
}

/// The sizes of the midpoints of row `i` off the diagonal, in sum.
fn off_diagonals<const N: usize>(w: &Working<N>, i: usize) -> u128
    requires { i < w.now.a.size }
    ensures value { result ≡ off_diagonal_sum w.now.a.size (midpoints w.now.a) i }
    ensures bound { result ≤ 1000 * 2 ^ 61 }
{
    let mut sum: u128 = 0;
    for j in 0..w.a.size() {
        sum += off_diagonal(w, i, j);
    }
    sum
}

/// Whether each interval of row `i` is narrow.
fn is_narrow_row<const N: usize>(w: &Working<N>, i: usize) -> bool
    requires { i < w.now.a.size }
    ensures { IsTrue result ↔ ((j : ℕ) → j < w.now.a.size → IsNarrow (entry_at w.now.a i j)) }
{
    for j in 0..w.a.size() {
        if !is_narrow(&w.a.get(i, j)) {
            return false;
        }
    }
    true
}

/// Whether the diagonal of row `i` is great, and outweighs the rest of the row.
fn dominates<const N: usize>(w: &Working<N>, i: usize) -> bool
    requires { i < w.now.a.size }
    ensures { IsTrue result ↔ ((pos (2 ^ 53) ≤ℤ midpoints w.now.a i i) × (pos (4 * off_diagonal_sum w.now.a.size (midpoints w.now.a) i) ≤ℤ midpoints w.now.a i i)) }
{
    let diagonal = w.a.get(i, i).mid();
    diagonal >= LEAST && TIMES * off_diagonals(w, i) <= diagonal.unsigned_abs()
}

/// Whether interval `i` of the right side is narrow and at most 2^100 in size.
fn is_moderate_right<const N: usize>(w: &Working<N>, i: usize) -> bool
    requires { i < w.now.a.size }
    ensures { IsTrue result ↔ (IsNarrow (slice_index_or w.now.d.items i zero_interval) × (size (slice_index_or w.now.d.items i zero_interval) ≤ 2 ^ 100)) }
{
    let right = w.d[i];
    is_narrow(&right) && right.mag() <= RIGHT_LIMIT
}

/// Whether row `i` is dominant.
fn is_dominant_row<const N: usize>(w: &Working<N>, i: usize) -> bool
    requires { i < w.now.a.size }
    ensures { IsTrue result ↔ IsDominantRow w.now.a.size (table_of w.now.a w.now.d.items) i }
{
    dominates(w, i) && is_narrow_row(w, i) && is_moderate_right(w, i)
}

/// Whether the working table is dominant. Of each row the midpoint of the diagonal is at least 2^53 and at least four times
/// the sizes of the row's other midpoints in sum; each interval of the row and of the right side is at most 1 wide; and the
/// right side is at most 2^100 in size.
pub fn dominant<const N: usize>(w: &Working<N>) -> bool
    ensures { IsTrue result ↔ IsDominant w.now.a.size (table_of w.now.a w.now.d.items) }
{
    for i in 0..w.a.size() {
        if !is_dominant_row(w, i) {
            return false;
        }
    }
    true
}
