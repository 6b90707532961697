//! The type of a factor.

ghost use Rattle.std.specs.Prelude.{◌≡◌, ◌≤◌, ◌<◌, ◌^◌, ℕ, pos, ◌≤ℤ◌, length, unsigned_abs, IfOk};
ghost use Rattle.chol_factor.specs.Factor.{IsFactorTable};
ghost use Rattle.whole_numbers.specs.Lists.{at, AllAtMost};
ghost use Rattle.whole_numbers.specs.Squares.{square_at, IsTranspose};

use std::alloc::{AllocError, Global};
use std::marker::Model;
use whole_numbers::{Square, transposed};

/// A square table of numbers of at most 2^61 in size in units of 2^-60, with a diagonal above 0. Above the diagonal stands
/// what stood there in the table that it is made from.
#[derive(Drop)]
pub struct Factor {
    square: Square,
}

impl Model for Factor {
    ghost use Rattle.whole_numbers.specs.Squares.{SquareTable};
    ghost use Rattle.chol_factor.specs.Factor.{IsFactorTable};

    ghost Value = { SquareTable };

    ghost view = { λ f. f.square };

    ghost invariant = { λ f. IsFactorTable f.square };
}

impl Factor {
    pub(crate) fn new(square: Square) -> Factor
        requires { IsFactorTable square }
        ensures { result ≡ square }
    {
        Factor { square }
    }

    /// How many rows and columns the table has.
    pub fn size(&self) -> usize
        ensures value { result ≡ self.now.size }
        ensures bound { result ≤ 1000 }
    {
        self.square.size()
    }

    /// The numbers of row `i`.
    pub fn row(&self, i: usize) -> &[i64]
        requires { i < self.now.size }
        ensures len { length result.now ≡ self.now.size }
        ensures numbers { (k : ℕ) → k < self.now.size → at result.now k ≡ square_at self.now i k }
        ensures small { AllAtMost (2 ^ 61) result.now }
    {
        self.square.row(i)
    }

    /// The number at the diagonal of row `i`.
    pub fn diagonal(&self, i: usize) -> i64
        requires { i < self.now.size }
        ensures value { result ≡ square_at self.now i i }
        ensures positive { pos 1 ≤ℤ result }
        ensures small { unsigned_abs result ≤ 2 ^ 61 }
    {
        self.square.get(i, i)
    }

    /// The transpose: its columns are the rows of the factor.
    pub fn transposed(&self, alloc: Global) -> Result<Square, AllocError>
        ensures transpose { IfOk result (IsTranspose self.now) }
        ensures small { IfOk result (λ t. AllAtMost (2 ^ 61) t.numbers) }
    {
        transposed(alloc, &self.square)
    }
}
