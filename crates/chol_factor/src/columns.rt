//! The factor of a table, column by column.

ghost use Rattle.std.specs.Prelude.{◌≡◌, ◌≤◌, ◌<◌, ◌+◌, ◌*◌, ◌^◌, ℕ, ℤ, pos, ◌≤ℤ◌, unsigned_abs, IfOk, IfErr, IfSome, IfNone, SomeIff};
ghost use Rattle.std.specs.Bool.{OnTrue, OnFalse};
ghost use Rattle.whole_numbers.specs.Sum.{sum_to};
ghost use Rattle.chol_factor.specs.Factor.{fixed_product, fixed_quotient, left_of, IsColumn, HasColumns};
ghost use Rattle.whole_numbers.specs.Lists.{AllAtMost};
ghost use Rattle.whole_numbers.specs.Squares.{square_at};
ghost use Rattle.chol_factor.specs.Making.{AgreeBefore, IsWaiting, IsDiagonal, IsBounded, IsStuck};
ghost use Rattle.chol_factor.specs.Refusals.{IsFactorRefused};

use crate::FactorError;
use crate::factors::Factor;
use crate::kernels::{fixed_products, fixed_quotient};
use whole_numbers::{Square, product};

/// The number 1 in units of 2^-60.
const UNIT: i128 = 1 << 60;

/// The greatest size of a number, and of what is left of one.
const LIMIT: u128 = 1 << 61;

/// The sum of the products of rows `i` and `j` before column `j`.
fn taken(f: &Square, i: usize, j: usize) -> i128
    requires small { AllAtMost (2 ^ 61) f.now.numbers }
    requires row { i < f.now.size }
    requires column { j < f.now.size }
    ensures value { result ≡ sum_to j (λ k. fixed_product (square_at f.now i k) (square_at f.now j k)) }
    ensures bound { unsigned_abs result ≤ 1000 * 2 ^ 62 }
{
    fixed_products(f.row_before(i, j), f.row_before(j, j))
}

/// What the columns before column `j` leave of the number at (i, j), where that is still the table's.
fn left(f: &Square, i: usize, j: usize) -> i128
    requires small { AllAtMost (2 ^ 61) f.now.numbers }
    requires row { i < f.now.size }
    requires column { j < f.now.size }
    ensures { result ≡ left_of (square_at f.now) (square_at f.now) i j }
{
    i128::from(f.get(i, j)) - taken(f, i, j)
}

/// The number of the diagonal, and None exactly where it has none in bounds.
fn diagonal(t: i128) -> Option<i64>
    ensures found { IfSome result (IsDiagonal t) }
    ensures none { IfNone result ((r : ℤ) → ¬ (IsDiagonal t r)) }
{
    if t < 1 || t.unsigned_abs() > LIMIT {
        return None;
    }
    Some(product(t, UNIT).isqrt() as i64)
}

/// The quotient of what is left by the number of the diagonal, and None exactly where one of them is out of bounds.
fn quotient(t: i128, root: i64) -> Option<i64>
    requires { pos 1 ≤ℤ root }
    ensures { SomeIff result (IsBounded t root) (fixed_quotient t root) }
{
    if t.unsigned_abs() > LIMIT {
        return None;
    }
    let entry = fixed_quotient(t, root);
    if entry.unsigned_abs() > LIMIT {
        return None;
    }
    Some(entry as i64)
}

/// Makes column `j` from the table's numbers that stand in it, after the columns before it, and answers whether there is one.
/// Where there is none, no table with the same columns before it has one. The columns after it keep the table's numbers.
fn make_column(f: &mut Square, j: usize) -> bool
    requires small { AllAtMost (2 ^ 61) f.old.numbers }
    requires column { j < f.old.size }
    ensures size { f.new.size ≡ f.old.size }
    ensures bounded { AllAtMost (2 ^ 61) f.new.numbers }
    ensures kept { AgreeBefore f.old.size (square_at f.old) (square_at f.new) j }
    ensures waiting { IsWaiting f.old.size (square_at f.old) (square_at f.new) (j + 1) }
    ensures made { OnTrue result (IsColumn f.old.size (square_at f.old) (square_at f.new) j) }
    ensures stuck { OnFalse result (IsStuck f.old.size (square_at f.old) (square_at f.old) j) }
{
    let size = f.size();
    let Some(root) = diagonal(left(f, j, j)) else {
        return false;
    };
    f.set(j, j, root);
    for i in j + 1..size {
        let Some(entry) = quotient(left(f, i, j), root) else {
            return false;
        };
        f.set(i, j, entry);
    }
    true
}

/// The factor of a table, made in its place. Pivot comes exactly where a column has none, with the first such. The numbers
/// above the diagonal are not read.
pub fn factor(midpoints: Square) -> Result<Factor, FactorError>
    requires { AllAtMost (2 ^ 61) midpoints.numbers }
    ensures size { IfOk result (λ f. f.size ≡ midpoints.size) }
    ensures columns { IfOk result (λ f. HasColumns midpoints.size (square_at midpoints) (square_at f) midpoints.size) }
    ensures refused { IfErr result (IsFactorRefused midpoints.size (square_at midpoints)) }
{
    let mut square = midpoints;
    for row in 0..square.size() {
        if !make_column(&mut square, row) {
            return Err(FactorError::Pivot { row });
        }
    }
    Ok(Factor::new(square))
}
