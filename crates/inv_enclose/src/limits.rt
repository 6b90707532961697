//! The first interval that is too great.

ghost use Rattle.std.specs.Prelude.{◌≡◌, ◌≤◌, ◌<◌, ◌+◌, ◌^◌, MatchOption};
ghost use Rattle.stated_order.specs.First.{HoldsBelow, HoldsLower, IsFirstFailure, IsFirstLowerFailure};
ghost use Rattle.sym_blocks.specs.Tables.{entry_at};
ghost use Rattle.inv_enclose.specs.Parts.{IsModest};

use sym_blocks::SymBlock;

/// The greatest size of an interval.
const LIMIT: u128 = 10_000_000_000_000_000_000_000_000_000_000_000;

/// In a row up to the diagonal, the first interval that is too great.
fn first_past_in<const N: usize>(table: &SymBlock<N>, row: usize) -> Option<usize>
    requires within { row < table.now.size }
    requires few { row < 1000 }
    ensures { MatchOption result
        (HoldsBelow (row + 1) (λ j. IsModest (entry_at table.now row j)))
        (IsFirstFailure (row + 1) (λ j. IsModest (entry_at table.now row j))) }
{
    for col in 0..row + 1 {
        if table.get(row, col).mag() > LIMIT {
            return Some(col);
        }
    }
    None
}

/// Row by row up to the diagonal, the first interval that is too great.
pub fn first_past<const N: usize>(table: &SymBlock<N>) -> Option<(usize, usize)>
    ensures { MatchOption result
        (HoldsLower table.now.size (λ i j. IsModest (entry_at table.now i j)))
        (λ place. IsFirstLowerFailure table.now.size (λ i j. IsModest (entry_at table.now i j)) place.0 place.1) }
{
    for row in 0..table.size() {
        if let Some(col) = first_past_in(table, row) {
            return Some((row, col));
        }
    }
    None
}
