//! What the estimates leave of the right side.

ghost use Rattle.std.specs.Prelude.{◌≡◌, ◌≤◌, ◌<◌, ◌*◌, ◌^◌};
ghost use Rattle.whole_numbers.specs.Intervals.{size, interval_mul};
ghost use Rattle.sym_blocks.specs.Tables.{entry_at};
ghost use Rattle.equil.specs.Tables.{table_of};
ghost use Rattle.bounds_report.specs.Differences.{nth_entry};
ghost use Rattle.bounds_report.specs.Residuals.{AreSmallIntervals, row_sum, residual_size};

use crate::intervals::{interval_difference, interval_product};
use equil::Working;
use interval_word::Iv;

/// The product of an interval of the table and a difference.
fn term<const N: usize>(w: &Working<N>, zs: &[Iv], i: usize, j: usize) -> Iv
    requires differences { AreSmallIntervals w.now.a.size zs.now }
    requires row { i < w.now.a.size }
    requires column { j < w.now.a.size }
    ensures value { result ≡ interval_mul (entry_at w.now.a i j) (nth_entry zs.now j) }
    ensures bound { size result ≤ 2 ^ 61 * size (nth_entry zs.now j) }
{
    interval_product(&w.a.get(i, j), &zs[j])
}

/// What the differences make of a row of the table.
fn row_sum<const N: usize>(w: &Working<N>, zs: &[Iv], i: usize) -> Iv
    requires differences { AreSmallIntervals w.now.a.size zs.now }
    requires row { i < w.now.a.size }
    ensures value { result ≡ row_sum w.now.a.size (table_of w.now.a w.now.d.items) zs.now i }
    ensures bound { size result ≤ 2 ^ 126 }
{
    let mut sum = Iv::point(0);
    for j in 0..zs.len() {
        sum = sum.add(&term(w, zs, i, j));
    }
    sum
}

/// The greatest size of what the differences leave of the right side of a row.
pub fn residual<const N: usize>(w: &Working<N>, zs: &[Iv], i: usize) -> u128
    requires differences { AreSmallIntervals w.now.a.size zs.now }
    requires row { i < w.now.a.size }
    ensures { result ≡ residual_size w.now.a.size (table_of w.now.a w.now.d.items) zs.now i }
{
    interval_difference(&w.d[i], &row_sum(w, zs, i)).mag()
}
