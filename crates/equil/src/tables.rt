//! The type of a working table.

ghost use Rattle.std.specs.Prelude.{◌≡◌, ◌≤◌, ◌<◌, ◌^◌, ℕ, ℤ, slice_index_or};
ghost use Rattle.std.specs.Vec.{vec_len};
ghost use Rattle.whole_numbers.specs.Intervals.{Interval, size};
ghost use Rattle.sym_blocks.specs.Tables.{SymTable, entry_at, zero_interval};
ghost use Rattle.equil.specs.Rows.{AllInRange};

use interval_word::Iv;
use sym_blocks::SymBlock;

/// A table, a right side and their exponents, within the sizes that later sums need: the intervals of the table are
/// at most 2^61 in size, those of the right side at most 10^37, and the exponents lie from -9 to 11.
#[derive(Drop)]
pub struct Working<const N: usize> {
    /// The table, interval (i, j) times 10^(-e_i - e_j).
    pub a: SymBlock<N>,
    /// The right side, interval i times 10^(12 - e_i).
    pub d: Vec<Iv>,
    /// The exponents.
    pub e: Vec<i32>,
    ghost few: { a.size ≤ 1000 },
    ghost rows: { vec_len d ≡ a.size },
    ghost powers: { vec_len e ≡ a.size },
    ghost entries_small: { (i j : ℕ) → i < a.size → j < a.size → size (entry_at a i j) ≤ 2 ^ 61 },
    ghost right_small: { (i : ℕ) → i < a.size → size (slice_index_or d.items i zero_interval) ≤ 10 ^ 37 },
    ghost in_range: { AllInRange e.items },
}
