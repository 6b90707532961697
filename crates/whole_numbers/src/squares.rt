//! Square tables of whole numbers.

ghost use Rattle.std.specs.Prelude.{◌≡◌, ◌≤◌, ◌<◌, ◌*◌, ℕ, length, unsigned_abs, IfOk};
ghost use Rattle.whole_numbers.specs.Lists.{at, AllAtMost};
ghost use Rattle.whole_numbers.specs.Squares.{IsSquareTable, square_at, SetsNumber};

use std::alloc::{AllocError, Global};
use std::marker::Model;

/// A square table of at most 1,000 rows.
#[derive(Drop)]
pub struct Square {
    size: usize,
    numbers: Vec<i64>,
}

impl Model for Square {
    ghost use Rattle.whole_numbers.specs.Squares.{SquareTable, IsSquareTable};

    ghost Value = { SquareTable };

    ghost view = { λ s. record { size = s.size; numbers = s.numbers.items } };

    ghost invariant = { λ s. IsSquareTable (record { size = s.size; numbers = s.numbers.items }) };
}

impl Square {
    /// The table with these numbers, row by row.
    pub fn new(size: usize, numbers: Vec<i64>) -> Square
        requires { IsSquareTable (record { size = size; numbers = numbers.items }) }
        ensures { result ≡ record { size = size; numbers = numbers.items } }
    {
        Square { size, numbers }
    }

    /// The table of zeros with `size` rows.
    pub fn zeros(alloc: Global, size: usize) -> Result<Square, AllocError>
        requires { size ≤ 1000 }
        ensures size { IfOk result (λ s. s.size ≡ size) }
        ensures zeros { IfOk result (λ s. AllAtMost 0 s.numbers) }
    {
        let numbers = vec![in alloc; 0i64; size * size]?;
        Ok(Square { size, numbers })
    }

    /// How many rows and columns the table has.
    pub fn size(&self) -> usize
        ensures value { result ≡ self.now.size }
        ensures bound { result ≤ 1000 }
    {
        self.size
    }

    /// The numbers of row `i`.
    pub fn row(&self, i: usize) -> &[i64]
        requires { i < self.now.size }
        ensures len { length result.now ≡ self.now.size }
        ensures numbers { (k : ℕ) → k < self.now.size → at result.now k ≡ square_at self.now i k }
        ensures small { (a : ℕ) → AllAtMost a self.now.numbers → AllAtMost a result.now }
    {
        &self.numbers[i * self.size..(i + 1) * self.size]
    }

    /// The numbers of row `i` before column `k`.
    pub fn row_before(&self, i: usize, k: usize) -> &[i64]
        requires row { i < self.now.size }
        requires column { k < self.now.size }
        ensures len { length result.now ≡ k }
        ensures few { k ≤ 1000 }
        ensures numbers { (c : ℕ) → c < k → at result.now c ≡ square_at self.now i c }
        ensures small { (a : ℕ) → AllAtMost a self.now.numbers → AllAtMost a result.now }
    {
        &self.numbers[i * self.size..i * self.size + k]
    }

    /// The number of row `i` and column `k`.
    pub fn get(&self, i: usize, k: usize) -> i64
        requires row { i < self.now.size }
        requires column { k < self.now.size }
        ensures value { result ≡ square_at self.now i k }
        ensures small { (a : ℕ) → AllAtMost a self.now.numbers → unsigned_abs result ≤ a }
    {
        self.numbers[i * self.size + k]
    }

    /// Makes `v` the number of row `i` and column `k`, and keeps every other.
    pub fn set(&mut self, i: usize, k: usize, v: i64)
        requires row { i < self.old.size }
        requires column { k < self.old.size }
        ensures { SetsNumber self.old self.new i k v }
    {
        self.numbers[i * self.size + k] = v;
    }

    /// The numbers, row by row.
    pub fn into_numbers(self) -> Vec<i64>
        ensures numbers { result.items ≡ self.numbers }
        ensures square { length result.items ≡ self.size * self.size }
    {
        self.numbers
    }
}
