//! The defects of all rows: what the approximate inverse R, the pilot, times the table leaves of the identity.

ghost use Rattle.std.specs.Prelude.{◌≡◌, ◌≤◌, ◌<◌, ◌+◌, ◌*◌, ◌^◌, ℕ, pos, List, length, unsigned_abs, IfOk};
ghost use Rattle.whole_numbers.specs.Quotients.{up_over};
ghost use Rattle.whole_numbers.specs.Sum.{unit};
ghost use Rattle.whole_numbers.specs.Intervals.{Interval, interval_scale, size};
ghost use Rattle.sym_blocks.specs.Tables.{entry_at};
ghost use Rattle.whole_numbers.specs.Lists.{at, AllAtMost};
ghost use Rattle.equil.specs.Tables.{table_of};
ghost use Rattle.enclosure_check.specs.Certificates.{AreDefects, parts_of};
ghost use Rattle.enclosure_check.specs.Inputs.{IsWorkingTable};
ghost use Rattle.enclosure_check.specs.Defects.{end_product, products_to, clipped_left, turned_table, AreRows};
ghost use Rattle.enclosure_check.specs.Rows.{entry_between};

use crate::ends::Ends;
use crate::working_rows::{WorkingRows, ends_at};
use enclosures::Pilot;
use equil::Working;
use std::alloc::{AllocError, Global};
use sym_blocks::SymBlock;

/// The product of `r` with `up`, or with `down` where `r` is below 0.
fn end_product(r: i64, up: i64, down: i64) -> i128
    ensures { result ≡ end_product r up down }
{
    let end = if r < 0 { down } else { up };
    i128::from(r) * i128::from(end)
}

/// The products of a number and the interval from `low` to `high`.
fn scaled(r: i64, low: i64, high: i64) -> Ends
    ensures { result ≡ interval_scale r (record { lo = low; hi = high }) }
{
    Ends {
        lo: end_product(r, low, high),
        hi: end_product(r, high, low),
    }
}

/// The sum of the products of the numbers of a row and the intervals from `low` to `high`.
fn products(r: &[i64], low: &[i64], high: &[i64]) -> Ends
    requires { AreRows r.now low.now high.now }
    ensures value { result ≡ products_to (length r.now) (at r.now) (entry_between low.now high.now) }
    ensures small { size result ≤ 2 ^ 121 }
{
    let mut sum = Ends { lo: 0, hi: 0 };
    for k in 0..r.len() {
        sum = sum.plus(scaled(r[k], low[k], high[k]));
    }
    sum
}

/// The diagonal's number at (i, j).
fn diagonal(i: usize, j: usize, g: u32) -> i128
    requires { g ≤ 50 }
    ensures value { result ≡ unit i (pos (2 ^ (g + 60))) j }
    ensures small { unsigned_abs result ≤ 2 ^ 110 }
{
    if j == i { 1 << (g + 60) } else { 0 }
}

/// The greater size of what the sum leaves of the diagonal's number at (i, j), and 2^(g + 60) where it is more.
fn clipped(sum: Ends, i: usize, j: usize, g: u32) -> u128
    requires scale { g ≤ 50 }
    requires small { size sum ≤ 2 ^ 121 }
    ensures { result ≡ clipped_left g i j sum }
{
    sum.left_of(diagonal(i, j, g)).min(1 << (g + 60))
}

/// A total of defects in parts of 2^30, rounded up.
fn parts(total: u128, g: u32) -> u64
    requires scale { g ≤ 50 }
    requires small { total ≤ 1000 * 2 ^ (g + 60) }
    ensures { result ≡ up_over total (2 ^ (g + 30)) }
{
    total.div_ceil(1 << (g + 30)) as u64
}

/// The products of a number and the interval of a pair.
fn scaled_at<const N: usize>(a: &SymBlock<N>, r: i64, k: usize, j: usize) -> Ends
    requires entries { IsWorkingTable a.now }
    requires row { k < a.now.size }
    requires column { j < a.now.size }
    ensures { result ≡ interval_scale r (entry_at a.now k j) }
{
    let (low, high) = ends_at(a, k, j);
    scaled(r, low, high)
}

/// The sum of the products of the numbers of a row and the intervals of column `j`.
fn column_products<const N: usize>(a: &SymBlock<N>, r: &[i64], j: usize) -> Ends
    requires entries { IsWorkingTable a.now }
    requires len { length r.now ≡ a.now.size }
    requires numbers { AllAtMost (2 ^ 50) r.now }
    requires column { j < a.now.size }
    ensures value { result ≡ products_to a.now.size (at r.now) (λ k. entry_at a.now k j) }
    ensures small { size result ≤ 2 ^ 121 }
{
    let mut sum = Ends { lo: 0, hi: 0 };
    for k in 0..r.len() {
        sum = sum.plus(scaled_at(a, r[k], k, j));
    }
    sum
}

/// The defect of row `i`, in parts of 2^30, rounded up: the sum of the greatest sizes of what the pilot times the table
/// leaves of the identity, each taken as a whole where it is more. It takes no memory.
pub fn row_defect<const N: usize>(w: &Working<N>, p: &Pilot, i: usize) -> u64
    requires sizes { p.now.size ≡ w.now.a.size }
    requires row { i < w.now.a.size }
    ensures { result ≡ parts_of w.now.a.size (table_of w.now.a w.now.d.items) p.now i }
{
    let g = p.g();
    let r = p.row(i);
    let mut total = 0;
    for j in 0..r.len() {
        total += clipped(column_products(&w.a, r, j), i, j, g);
    }
    parts(total, g)
}

/// The sum of the products of the numbers of a row and the intervals of row `j`.
fn row_products<const N: usize>(rows: &WorkingRows<'_, N>, r: &[i64], j: usize) -> Ends
    requires len { length r.now ≡ rows.now.table.now.size }
    requires numbers { AllAtMost (2 ^ 50) r.now }
    requires row { j < rows.now.table.now.size }
    ensures value { result ≡ products_to rows.now.table.now.size (at r.now) (λ k. entry_at rows.now.table.now j k) }
    ensures small { size result ≤ 2 ^ 121 }
{
    products(r, rows.lows(j), rows.highs(j))
}

/// The defect of row `i` of the pilot, in parts of 2^30, rounded up.
fn row_parts<const N: usize>(rows: &WorkingRows<'_, N>, p: &Pilot, i: usize) -> u64
    requires sizes { p.now.size ≡ rows.now.table.now.size }
    requires row { i < rows.now.table.now.size }
    ensures { result ≡ parts_of rows.now.table.now.size (turned_table rows.now.table.now) p.now i }
{
    let g = p.g();
    let r = p.row(i);
    let mut total = 0;
    for j in 0..r.len() {
        total += clipped(row_products(rows, r, j), i, j, g);
    }
    parts(total, g)
}

/// The defects of all rows of a table, once for all its right sides.
pub fn defects<const N: usize>(
    alloc: Global,
    rows: &WorkingRows<'_, N>,
    p: &Pilot,
) -> Result<Vec<u64>, AllocError>
    requires { p.now.size ≡ rows.now.table.now.size }
    ensures { IfOk result (λ v. (d : List Interval) → AreDefects rows.now.table.now.size (table_of rows.now.table.now d) p.now v.items) }
{
    let mut defects = Vec::new(alloc);
    for i in 0..p.size() {
        defects.push(row_parts(rows, p, i))?;
    }
    Ok(defects)
}
