//! The lower triangle.

ghost use Rattle.std.specs.Prelude.{◌≡◌, ◌≤◌, ◌<◌, ◌+◌, ◌*◌, ◌/◌, ℕ, ℤ, pos, List, length, replicate, slice_index_or, IfOk};
ghost use Rattle.sym_blocks.specs.Tables.{before, lower_place, TriTable, number};

use crate::places::{entries_before, lower_place_of};
use std::alloc::{AllocError, Global};
use std::marker::Model;

/// A lower triangle of whole numbers with at most 1,000 rows.
#[derive(Drop)]
pub struct Tri<const N: usize> {
    size: usize,
    numbers: Vec<i128>,
}

impl<const N: usize> Model for Tri<N> {
    ghost use Rattle.std.specs.Prelude.{◌≡◌, ◌≤◌, length};
    ghost use Rattle.sym_blocks.specs.Tables.{TriTable, before};

    ghost Value = { TriTable };

    ghost view = { λ t. record { size = t.size; numbers = t.numbers.items } };

    ghost invariant = { λ t. (t.size ≤ 1000) × (length t.numbers.items ≡ before t.size) };
}

fn zeros(alloc: Global, n: usize) -> Result<Vec<i128>, AllocError>
    requires { n ≤ 1000 }
    ensures { IfOk result (λ v. v.items ≡ replicate (before n) (pos 0)) }
{
    vec![in alloc; 0i128; entries_before(n)]
}

fn number_at(numbers: &[i128], at: usize) -> i128
    requires { at < length numbers.now }
    ensures { result ≡ slice_index_or numbers.now at (pos 0) }
{
    numbers[at]
}

impl<const N: usize> Tri<N> {
    /// The triangle of zeros with `n` rows. Only memory can be wanting.
    pub fn zero(alloc: Global, n: usize) -> Result<Tri<N>, AllocError>
        requires { n ≤ 1000 }
        ensures size { IfOk result (λ t. t.size ≡ n) }
        ensures numbers { IfOk result (λ t. (i j : ℕ) → i < n → j ≤ i → number t i j ≡ pos 0) }
    {
        let numbers = zeros(alloc, n)?;
        Ok(Tri { size: n, numbers })
    }

    /// How many rows the triangle has.
    pub fn size(&self) -> usize
        ensures value { result ≡ self.now.size }
        ensures bound { result ≤ 1000 }
    {
        self.size
    }

    /// The number at (i, j), with `j <= i`.
    pub fn get(&self, i: usize, j: usize) -> i128
        requires row { i < self.now.size }
        requires column { j ≤ i }
        ensures { result ≡ number self.now i j }
    {
        number_at(&self.numbers, lower_place_of(i, j))
    }

    /// Makes `v` the number at (i, j), with `j <= i`, and keeps every other number.
    pub fn set(&mut self, i: usize, j: usize, v: i128)
        requires row { i < self.old.size }
        requires column { j ≤ i }
        ensures size { self.new.size ≡ self.old.size }
        ensures here { number self.new i j ≡ v }
        ensures others { (k l : ℕ) → k < self.old.size → l ≤ k → ¬ ((k ≡ i) × (l ≡ j)) → number self.new k l ≡ number self.old k l }
    {
        self.numbers[lower_place_of(i, j)] = v;
    }
}
