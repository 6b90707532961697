//! Tables over some of the names, spread over all of them.

ghost use Rattle.std.specs.Prelude.{◌≡◌, ◌≤◌, ◌<◌, ℕ, IfOk, IfSome, length, map};
ghost use Rattle.sym_blocks.specs.Tables.{before, entry_at};
ghost use Rattle.param_ids.specs.Order.{IsNames};
ghost use Rattle.neq_stack.specs.ByName.{entry_at_places, place_in};
ghost use Rattle.file_recovery.specs.Solved.{IsSpread};
ghost use Rattle.file_recovery.specs.Parts.{ArePlacesIn, spread_entry};

use interval_word::Iv;
use param_ids::Names;
use std::alloc::{AllocError, Global};
use sym_blocks::SymBlock;

/// The places of names among some of them.
fn places_of(alloc: Global, part: &Names, names: &Names) -> Result<Vec<Option<usize>>, AllocError>
    requires { IsNames part.now }
    ensures { IfOk result (λ places. places.items ≡ map (place_in part.now) names.now) }
{
    let mut places = Vec::new(alloc);
    for place in 0..names.len() {
        places.push(part.find(names.at(place)))?;
    }
    Ok(places)
}

/// The interval of a table at two places, and zero where one of them is missing.
fn interval_at<const N: usize>(small: &SymBlock<N>, row: Option<usize>, col: Option<usize>) -> Iv
    requires row { IfSome row (λ i. i < small.now.size) }
    requires col { IfSome col (λ j. j < small.now.size) }
    ensures { result ≡ entry_at_places small.now row col }
{
    let Some(row) = row else {
        return Iv::point(0);
    };
    match col {
        Some(col) => small.get(row, col),
        None => Iv::point(0),
    }
}

/// Puts an interval of the table to the place of two names.
fn spread_at<const N: usize>(
    table: &mut SymBlock<N>,
    small: &SymBlock<N>,
    places: &[Option<usize>],
    row: usize,
    col: usize,
)
    requires sizes { length places.now ≡ table.old.size }
    requires row { row < table.old.size }
    requires lower { col ≤ row }
    requires whole { length table.old.entries ≡ before table.old.size }
    requires places { ArePlacesIn small.now places.now }
    ensures size { table.new.size ≡ table.old.size }
    ensures whole { length table.new.entries ≡ before table.new.size }
    ensures here { entry_at table.new row col ≡ spread_entry small.now places.now row col }
    ensures others { (i j : ℕ) → i < table.old.size → j ≤ i → ((i ≡ row) × (j ≡ col) → ⊥) → entry_at table.new i j ≡ entry_at table.old i j }
{
    let interval = interval_at(small, places[row], places[col]);
    table.set(row, col, interval);
}

/// Puts the intervals of the table to the row of a name, up to the diagonal.
fn spread_row<const N: usize>(
    table: &mut SymBlock<N>,
    small: &SymBlock<N>,
    places: &[Option<usize>],
    row: usize,
)
    requires sizes { length places.now ≡ table.old.size }
    requires row { row < table.old.size }
    requires few { row < 1000 }
    requires whole { length table.old.entries ≡ before table.old.size }
    requires places { ArePlacesIn small.now places.now }
    ensures size { table.new.size ≡ table.old.size }
    ensures whole { length table.new.entries ≡ before table.new.size }
    ensures here { (j : ℕ) → j ≤ row → entry_at table.new row j ≡ spread_entry small.now places.now row j }
    ensures others { (i j : ℕ) → i < table.old.size → j ≤ i → (i ≡ row → ⊥) → entry_at table.new i j ≡ entry_at table.old i j }
{
    for col in 0..row + 1 {
        spread_at(table, small, places, row, col);
    }
}

/// Puts the intervals of the table to the places of names.
fn spread_rows<const N: usize>(
    table: &mut SymBlock<N>,
    small: &SymBlock<N>,
    places: &[Option<usize>],
)
    requires sizes { length places.now ≡ table.old.size }
    requires whole { length table.old.entries ≡ before table.old.size }
    requires places { ArePlacesIn small.now places.now }
    ensures size { table.new.size ≡ table.old.size }
    ensures whole { length table.new.entries ≡ before table.new.size }
    ensures each { (i j : ℕ) → i < table.old.size → j < table.old.size → entry_at table.new i j ≡ spread_entry small.now places.now i j }
{
    for row in 0..table.size() {
        spread_row(table, small, places, row);
    }
}

/// A table over some of these names, over all of them.
pub(crate) fn spread<const N: usize>(
    alloc: Global,
    names: &Names,
    part: &Names,
    small: &SymBlock<N>,
) -> Result<SymBlock<N>, AllocError>
    requires part { IsNames part.now }
    requires size { small.now.size ≡ length part.now }
    ensures { IfOk result (IsSpread names.now part.now small.now) }
{
    let places = places_of(alloc, part, names)?;
    let mut table = SymBlock::<N>::zero(alloc, names.len())?;
    spread_rows(&mut table, small, &places);
    Ok(table)
}
