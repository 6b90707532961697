//! The type of an approximate inverse.

ghost use Rattle.std.specs.Prelude.{◌≡◌, ◌≤◌, ◌<◌, ◌+◌, ◌*◌, ◌^◌, ℕ, ℤ, List, length, unsigned_abs, SomeIff, IsTrue, ◌↔◌};
ghost use Rattle.enclosures.specs.Pilots.{PilotTable, IsPilotScale, IsPilotTable, pilot_entry};
ghost use Rattle.whole_numbers.specs.Lists.{at, AllAtMost};

use std::marker::Model;

/// The greatest size of a number.
const LIMIT: u64 = 1 << 50;

/// A pilot: an approximate inverse R of a table, as a square table of numbers of at most 2^50 in size, in units of
/// 2^-(g + 60), where `g` is 0, 10, 20, 30, 40 or 50.
#[derive(Drop)]
pub struct Pilot {
    g: u32,
    size: usize,
    entries: Vec<i64>,
}

impl Model for Pilot {
    ghost use Rattle.enclosures.specs.Pilots.{PilotTable, IsPilotTable};

    ghost Value = { PilotTable };

    ghost view = { λ p. record { g = p.g; size = p.size; entries = p.entries.items } };

    ghost invariant = { λ p. IsPilotTable (record { g = p.g; size = p.size; entries = p.entries.items }) };
}

/// Whether a pilot may have this scale.
fn is_scale(g: u32) -> bool
    ensures { IsTrue result ↔ IsPilotScale g }
{
    g <= 50 && g % 10 == 0
}

/// Whether no number passes 2^50 in size.
fn are_small(entries: &[i64]) -> bool
    ensures { IsTrue result ↔ AllAtMost (2 ^ 50) entries.now }
{
    for k in 0..entries.len() {
        if entries[k].unsigned_abs() > LIMIT {
            return false;
        }
    }
    true
}

impl Pilot {
    /// The pilot with these numbers, row by row. `from_entries` tests what is required here.
    pub fn new(g: u32, size: usize, entries: Vec<i64>) -> Pilot
        requires { IsPilotTable (record { g = g; size = size; entries = entries.items }) }
        ensures { result ≡ record { g = g; size = size; entries = entries.items } }
    {
        Pilot { g, size, entries }
    }

    /// The pilot with these numbers, row by row, and None exactly where `g` is no scale, a number passes 2^50 in size, or
    /// there are not `size * size` numbers.
    pub fn from_entries(g: u32, size: usize, entries: Vec<i64>) -> Option<Pilot>
        ensures { SomeIff result (IsPilotTable (record { g = g; size = size; entries = entries.items })) (record { g = g; size = size; entries = entries.items }) }
    {
        if is_scale(g) && size.checked_mul(size) == Some(entries.len()) && are_small(&entries) {
            Some(Pilot { g, size, entries })
        } else {
            None
        }
    }

    /// The scale.
    pub fn g(&self) -> u32
        ensures value { result ≡ self.now.g }
        ensures scale { IsPilotScale result }
    {
        self.g
    }

    /// How many rows and columns the table has.
    pub fn size(&self) -> usize
        ensures { result ≡ self.now.size }
    {
        self.size
    }

    /// The numbers of a row.
    pub fn row(&self, i: usize) -> &[i64]
        requires { i < self.now.size }
        ensures len { length result.now ≡ self.now.size }
        ensures entries { (k : ℕ) → k < self.now.size → at result.now k ≡ pilot_entry self.now i k }
        ensures small { AllAtMost (2 ^ 50) result.now }
    {
        &self.entries[i * self.size..(i + 1) * self.size]
    }

    /// The number of row `i` and column `k`.
    pub fn entry(&self, i: usize, k: usize) -> i64
        requires row { i < self.now.size }
        requires column { k < self.now.size }
        ensures value { result ≡ pilot_entry self.now i k }
        ensures small { unsigned_abs result ≤ 2 ^ 50 }
    {
        self.row(i)[k]
    }
}
