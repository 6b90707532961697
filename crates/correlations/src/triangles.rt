//! The covariances of a table of correlations, row by row.

ghost use Rattle.std.specs.Prelude.{◌≡◌, ◌≤◌, ◌<◌, ◌+◌, ℕ, pos, ◌≤ℤ◌, All, MatchOption, length};
ghost use Rattle.stated_order.specs.First.{HoldsBelow, IsFirstFailure};
ghost use Rattle.whole_numbers.specs.Lists.{at};
ghost use Rattle.sym_blocks.specs.Tables.{before, entry_at};
ghost use Rattle.param_ids.specs.Tables.{IsScale};
ghost use Rattle.snx_matrices.specs.declared.elements.Content.TheVariants.{Cova};
ghost use Rattle.named_tables.specs.Parts.{pair_power};
ghost use Rattle.correlations.specs.Parts.{AreFilled, EntryFitsAt, IsEntryAt, IsFirstUnfit, correlation_at};

use crate::products::entry_of;
use decimal_e::Dec;
use interval_word::Iv;
use sym_blocks::SymBlock;

/// The number 1 times 10^18.
const UNIT: i128 = 1_000_000_000_000_000_000;

/// Where there is no covariance.
#[derive(Clone, Copy)]
pub enum Unfit {
    /// The row has no standard deviation.
    Bare { row: usize },
    /// The covariance of a row and a column passes a bound.
    Entry { row: usize, col: usize },
}

/// The interval of a correlation: exactly 1 on the diagonal.
fn correlation_at<const N: usize>(given: &SymBlock<N>, row: usize, col: usize) -> Iv
    requires row { row < given.now.size }
    requires col { col < given.now.size }
    ensures { result ≡ correlation_at given.now row col }
{
    if row == col {
        Iv::point(UNIT)
    } else {
        given.get(row, col)
    }
}

/// A scale exponent.
fn exponent_at(exponents: &[i32], row: usize) -> i32
    requires within { row < length exponents.now }
    requires scales { All IsScale exponents.now }
    ensures value { result ≡ at exponents.now row }
    ensures range { IsScale result }
{
    exponents[row]
}

/// The power of ten of a covariance: 24 and both scale exponents.
fn power_at(exponents: &[i32], row: usize, col: usize) -> i32
    requires row { row < length exponents.now }
    requires col { col < length exponents.now }
    requires scales { All IsScale exponents.now }
    ensures value { result ≡ pair_power Cova exponents.now row col }
    ensures low { pos 6 ≤ℤ result }
    ensures high { result ≤ℤ pos 36 }
{
    24 + exponent_at(exponents, row) + exponent_at(exponents, col)
}

/// The covariance at a place, and None exactly where there is none that fits.
fn entry_at<const N: usize>(
    given: &SymBlock<N>,
    deviations: &[Option<Dec>],
    exponents: &[i32],
    row: usize,
    col: usize,
) -> Option<Iv>
    requires row { row < given.now.size }
    requires col { col < given.now.size }
    requires deviations { length deviations.now ≡ given.now.size }
    requires exponents { length exponents.now ≡ given.now.size }
    requires scales { All IsScale exponents.now }
    ensures { MatchOption result (EntryFitsAt given.now deviations.now exponents.now row col → ⊥) (IsEntryAt given.now deviations.now exponents.now row col) }
{
    let correlation = correlation_at(given, row, col);
    entry_of(
        &correlation,
        &deviations[row],
        &deviations[col],
        power_at(exponents, row, col),
    )
}

/// Fills a row of the covariances up to the diagonal, and answers the first column whose covariance does not fit.
fn filled_row<const N: usize>(
    given: &SymBlock<N>,
    deviations: &[Option<Dec>],
    exponents: &[i32],
    row: usize,
    table: &mut SymBlock<N>,
) -> Option<usize>
    requires row { row < given.now.size }
    requires deviations { length deviations.now ≡ given.now.size }
    requires exponents { length exponents.now ≡ given.now.size }
    requires scales { All IsScale exponents.now }
    requires size { table.old.size ≡ given.now.size }
    requires whole { length table.old.entries ≡ before table.old.size }
    ensures size { table.new.size ≡ table.old.size }
    ensures whole { length table.new.entries ≡ before table.new.size }
    ensures others { (k l : ℕ) → k < row → l ≤ k → entry_at table.new k l ≡ entry_at table.old k l }
    ensures here { MatchOption result
        (HoldsBelow (row + 1) (λ j. IsEntryAt given.now deviations.now exponents.now row j (entry_at table.new row j)))
        (IsFirstFailure (row + 1) (EntryFitsAt given.now deviations.now exponents.now row)) }
{
    for col in 0..row + 1 {
        match entry_at(given, deviations, exponents, row, col) {
            Some(entry) => table.set(row, col, entry),
            None => return Some(col),
        }
    }
    None
}

/// Fills the covariances, and answers the first place, row by row, where there is none that fits.
pub fn filled<const N: usize>(
    given: &SymBlock<N>,
    deviations: &[Option<Dec>],
    exponents: &[i32],
    table: &mut SymBlock<N>,
) -> Option<Unfit>
    requires deviations { length deviations.now ≡ given.now.size }
    requires exponents { length exponents.now ≡ given.now.size }
    requires scales { All IsScale exponents.now }
    requires size { table.old.size ≡ given.now.size }
    requires whole { length table.old.entries ≡ before table.old.size }
    ensures size { table.new.size ≡ table.old.size }
    ensures whole { length table.new.entries ≡ before table.new.size }
    ensures here { MatchOption result
        (AreFilled given.now deviations.now exponents.now given.now.size table.new)
        (IsFirstUnfit given.now deviations.now exponents.now given.now.size) }
{
    for row in 0..given.size() {
        if deviations[row].is_none() {
            return Some(Unfit::Bare { row });
        }
        if let Some(col) = filled_row(given, deviations, exponents, row, table) {
            return Some(Unfit::Entry { row, col });
        }
    }
    None
}
