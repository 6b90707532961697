//! The intervals of a working table, row by row.

ghost use Rattle.std.specs.Prelude.{◌≡◌, ◌<◌, ◌^◌, ℕ, length, IfOk};
ghost use Rattle.sym_blocks.specs.Tables.{entry_at};
ghost use Rattle.whole_numbers.specs.Lists.{at, AllAtMost};
ghost use Rattle.enclosure_check.specs.Inputs.{IsWorkingTable};
ghost use Rattle.enclosure_check.specs.Rows.{HasEntries};

use std::alloc::{AllocError, Global};
use sym_blocks::SymBlock;
use whole_numbers::Square;

/// The intervals of a working table, row by row: made once for a table, for all its right sides.
#[derive(Drop)]
pub struct WorkingRows<'a, const N: usize> {
    /// The table.
    pub table: &'a SymBlock<N>,
    low: Square,
    high: Square,
    pub ghost working: { IsWorkingTable table.now },
    ghost low_size: { low.size ≡ table.now.size },
    ghost high_size: { high.size ≡ table.now.size },
    ghost low_ends: { AllAtMost (2 ^ 61) low.numbers },
    ghost high_ends: { AllAtMost (2 ^ 61) high.numbers },
    ghost entries: { HasEntries table.now.size table.now low.numbers high.numbers },
}

/// The ends of the interval of a pair.
pub(crate) fn ends_at<const N: usize>(a: &SymBlock<N>, j: usize, k: usize) -> (i64, i64)
    requires entries { IsWorkingTable a.now }
    requires row { j < a.now.size }
    requires column { k < a.now.size }
    ensures low { result.0 ≡ (entry_at a.now j k).lo }
    ensures high { result.1 ≡ (entry_at a.now j k).hi }
{
    let interval = a.get(j, k);
    (interval.lo() as i64, interval.hi() as i64)
}

impl<'a, const N: usize> WorkingRows<'a, N> {
    /// The rows of a table. Only memory can be wanting.
    pub fn of(alloc: Global, a: &'a SymBlock<N>) -> Result<WorkingRows<'a, N>, AllocError>
        requires { IsWorkingTable a.now }
        ensures { IfOk result (λ rows. rows.table.now ≡ a.now) }
    {
        let size = a.size();
        let mut low = Vec::with_capacity(alloc, size * size)?;
        let mut high = Vec::with_capacity(alloc, size * size)?;
        for place in 0..size * size {
            let (lo, hi) = ends_at(a, place / size, place % size);
            low.push(lo)?;
            high.push(hi)?;
        }
        Ok(WorkingRows {
            table: a,
            low: Square::new(size, low),
            high: Square::new(size, high),
        })
    }

    /// The low ends of row `i`.
    pub(crate) fn lows(&self, i: usize) -> &[i64]
        requires { i < self.now.table.now.size }
        ensures len { length result.now ≡ self.now.table.now.size }
        ensures ends { (k : ℕ) → k < self.now.table.now.size → at result.now k ≡ (entry_at self.now.table.now i k).lo }
        ensures small { AllAtMost (2 ^ 61) result.now }
    {
        self.low.row(i)
    }

    /// The high ends of row `i`.
    pub(crate) fn highs(&self, i: usize) -> &[i64]
        requires { i < self.now.table.now.size }
        ensures len { length result.now ≡ self.now.table.now.size }
        ensures ends { (k : ℕ) → k < self.now.table.now.size → at result.now k ≡ (entry_at self.now.table.now i k).hi }
        ensures small { AllAtMost (2 ^ 61) result.now }
    {
        self.high.row(i)
    }
}
