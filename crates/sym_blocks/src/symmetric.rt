//! The symmetric table.

ghost use Rattle.std.specs.Prelude.{◌≡◌, ◌≤◌, ◌<◌, ◌+◌, ◌*◌, ◌/◌, ℕ, ℤ, List, length, replicate, slice_index_or, IfOk, max, min, FitsSigned, ◌+ℤ◌};
ghost use Rattle.std.specs.Int.{w128};
ghost use Rattle.whole_numbers.specs.Intervals.{Interval, interval_add};
ghost use Rattle.sym_blocks.specs.Tables.{before, place, SymTable, entry_at, zero_interval, IsPair, SumFits};

use crate::places::{entries_before, lower_place_of};
use interval_word::Iv;
use std::alloc::{AllocError, Global};
use std::marker::Model;

/// A symmetric table of intervals with at most 1,000 rows.
#[derive(Drop)]
pub struct SymBlock<const N: usize> {
    size: usize,
    entries: Vec<Iv>,
}

impl<const N: usize> Model for SymBlock<N> {
    ghost use Rattle.std.specs.Prelude.{◌≡◌, ◌≤◌, length};
    ghost use Rattle.sym_blocks.specs.Tables.{SymTable, before};

    ghost Value = { SymTable };

    ghost view = { λ b. record { size = b.size; entries = b.entries.items } };

    ghost invariant = { λ b. (b.size ≤ 1000) × (length b.entries.items ≡ before b.size) };
}

fn place_of(i: usize, j: usize) -> usize
    requires row { i < 1000 }
    requires column { j < 1000 }
    ensures { result ≡ place i j }
{
    lower_place_of(i.max(j), i.min(j))
}

fn nth_entry(entries: &[Iv], at: usize) -> Iv
    requires { at < length entries.now }
    ensures { result ≡ slice_index_or entries.now at zero_interval }
{
    entries[at]
}

fn add_entries(entries: &mut [Iv], other: &[Iv])
    requires lengths { length entries.old ≡ length other.now }
    requires fits { (k : ℕ) → k < length entries.old → SumFits (slice_index_or entries.old k zero_interval) (slice_index_or other.now k zero_interval) }
    ensures { (k : ℕ) → k < length entries.old → slice_index_or entries.new k zero_interval ≡ interval_add (slice_index_or entries.old k zero_interval) (slice_index_or other.now k zero_interval) }
{
    for k in 0..entries.len() {
        entries[k] = nth_entry(entries, k).add(&nth_entry(other, k));
    }
}

fn zeros(alloc: Global, n: usize) -> Result<Vec<Iv>, AllocError>
    requires { n ≤ 1000 }
    ensures { IfOk result (λ v. v.items ≡ replicate (before n) zero_interval) }
{
    vec![in alloc; Iv::point(0); entries_before(n)]
}

impl<const N: usize> SymBlock<N> {
    /// The table of zeros with `n` rows. Only memory can be wanting.
    pub fn zero(alloc: Global, n: usize) -> Result<SymBlock<N>, AllocError>
        requires { n ≤ 1000 }
        ensures size { IfOk result (λ b. b.size ≡ n) }
        ensures entries { IfOk result (λ b. (i j : ℕ) → i < n → j < n → entry_at b i j ≡ zero_interval) }
        ensures whole { IfOk result (λ b. length b.entries ≡ before b.size) }
    {
        let entries = zeros(alloc, n)?;
        Ok(SymBlock { size: n, entries })
    }

    /// How many rows the table has.
    pub fn size(&self) -> usize
        ensures value { result ≡ self.now.size }
        ensures bound { result ≤ 1000 }
        ensures whole { length self.now.entries ≡ before self.now.size }
    {
        self.size
    }

    /// The interval of the pair, in either order.
    pub fn get(&self, i: usize, j: usize) -> Iv
        requires row { i < self.now.size }
        requires column { j < self.now.size }
        ensures { result ≡ entry_at self.now i j }
    {
        nth_entry(&self.entries, place_of(i, j))
    }

    /// Makes `v` the interval of the pair, in either order, and keeps every other interval.
    pub fn set(&mut self, i: usize, j: usize, v: Iv)
        requires row { i < self.old.size }
        requires column { j < self.old.size }
        ensures size { self.new.size ≡ self.old.size }
        ensures here { (k l : ℕ) → IsPair i j k l → entry_at self.new k l ≡ v }
        ensures others { (k l : ℕ) → k < self.old.size → l < self.old.size → ¬ (IsPair i j k l) → entry_at self.new k l ≡ entry_at self.old k l }
        ensures whole { length self.new.entries ≡ before self.new.size }
    {
        self.entries[place_of(i, j)] = v;
    }

    /// Adds the other table's intervals.
    pub fn add_assign(&mut self, other: &SymBlock<N>)
        requires sizes { self.old.size ≡ other.now.size }
        requires fits { (i j : ℕ) → i < self.old.size → j ≤ i → SumFits (entry_at self.old i j) (entry_at other.now i j) }
        ensures size { self.new.size ≡ self.old.size }
        ensures entries { (i j : ℕ) → i < self.old.size → j < self.old.size → entry_at self.new i j ≡ interval_add (entry_at self.old i j) (entry_at other.now i j) }
    {
        add_entries(&mut self.entries, &other.entries);
    }

    /// A copy of the table. Only memory can be wanting.
    pub fn clone_in(&self) -> Result<SymBlock<N>, AllocError>
        ensures { IfOk result (λ b. b ≡ self.now) }
    {
        let entries = self.entries.clone()?;
        Ok(SymBlock {
            size: self.size,
            entries,
        })
    }
}
