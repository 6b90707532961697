//! Intervals of a part added to those of a stack, by the places of names.

ghost use Rattle.std.specs.Prelude.{◌≡◌, ◌≢◌, ◌≤◌, ◌<◌, ℕ, IfSome, length};
ghost use Rattle.whole_numbers.specs.Intervals.{interval_add};
ghost use Rattle.sym_blocks.specs.Tables.{before, entry_at, SumFits};
ghost use Rattle.neq_stack.specs.ByName.{entry_at_places, right_at_place};
ghost use Rattle.neq_stack.specs.Joining.{AreWithin, entry_by};

use crate::places::said_at;
use interval_word::Iv;
use sym_blocks::SymBlock;

/// The interval of a table at two places, or zero.
fn entry_at<const N: usize>(table: &SymBlock<N>, row: Option<usize>, col: Option<usize>) -> Iv
    requires row { IfSome row (λ i. i < table.now.size) }
    requires col { IfSome col (λ j. j < table.now.size) }
    ensures { result ≡ entry_at_places table.now row col }
{
    let Some(i) = row else {
        return Iv::point(0);
    };
    let Some(j) = col else {
        return Iv::point(0);
    };
    table.get(i, j)
}

/// The sum of two intervals.
pub fn sum(one: &Iv, other: &Iv) -> Iv
    requires { SumFits one.now other.now }
    ensures { result ≡ interval_add one.now other.now }
{
    one.add(other)
}

/// Adds a table's intervals to a row, up to the diagonal.
fn add_row<const N: usize>(
    into: &mut SymBlock<N>,
    row: usize,
    table: &SymBlock<N>,
    places: &[Option<usize>],
)
    requires row { row < into.old.size }
    requires lengths { length places.now ≡ into.old.size }
    requires within { AreWithin table.now.size places.now }
    requires whole { length into.old.entries ≡ before into.old.size }
    requires fits { (j : ℕ) → j ≤ row → SumFits (entry_at into.old row j) (entry_by table.now places.now row j) }
    ensures size { into.new.size ≡ into.old.size }
    ensures whole { length into.new.entries ≡ before into.new.size }
    ensures here { (j : ℕ) → j ≤ row → entry_at into.new row j ≡ interval_add (entry_at into.old row j) (entry_by table.now places.now row j) }
    ensures others { (i j : ℕ) → i < into.old.size → j ≤ i → i ≢ row → entry_at into.new i j ≡ entry_at into.old i j }
{
    let place = said_at(places, row);
    for col in 0..row + 1 {
        let more = entry_at(table, place, said_at(places, col));
        let both = sum(&into.get(row, col), &more);
        into.set(row, col, both);
    }
}

/// Adds a table's intervals, by the places of names in it.
pub fn add_table<const N: usize>(
    into: &mut SymBlock<N>,
    table: &SymBlock<N>,
    places: &[Option<usize>],
)
    requires lengths { length places.now ≡ into.old.size }
    requires within { AreWithin table.now.size places.now }
    requires whole { length into.old.entries ≡ before into.old.size }
    requires fits { (i j : ℕ) → i < into.old.size → j ≤ i → SumFits (entry_at into.old i j) (entry_by table.now places.now i j) }
    ensures size { into.new.size ≡ into.old.size }
    ensures whole { length into.new.entries ≡ before into.new.size }
    ensures added { (i j : ℕ) → i < into.old.size → j ≤ i → entry_at into.new i j ≡ interval_add (entry_at into.old i j) (entry_by table.now places.now i j) }
{
    for row in 0..places.len() {
        add_row(into, row, table, places);
    }
}

/// The interval of a right side at a place, or zero.
pub fn right_at(right: &[Iv], place: Option<usize>) -> Iv
    requires { IfSome place (λ i. i < length right.now) }
    ensures { result ≡ right_at_place right.now place }
{
    let Some(i) = place else {
        return Iv::point(0);
    };
    right[i]
}
