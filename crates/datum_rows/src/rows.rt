//! The intervals of conditions: whether they fit, and added to a table.

ghost use Rattle.std.specs.Prelude.{◌≡◌, ◌≤◌, ◌<◌, ◌+◌, ◌*◌, ◌^◌, ◌↔◌, ℕ, ℤ, pos, negsuc, ◌*ℤ◌, ◌-ℤ◌, ◌≤ℤ◌, All, IfNone, IfSome, IsTrue, Some, is_some, SomeIff, length, unsigned_abs};
ghost use Rattle.stated_order.specs.First.{HoldsBelow};
ghost use Rattle.whole_numbers.specs.Intervals.{Interval, size};
ghost use Rattle.whole_numbers.specs.Lists.{at};
ghost use Rattle.sym_blocks.specs.Tables.{before, entry_at};
ghost use Rattle.inverse_squares.specs.Quotients.{IsOverSquare};
ghost use Rattle.param_ids.specs.Tables.{IsScale};
ghost use Rattle.control_doc.specs.Valid.{IsPositiveAndShort};
ghost use Rattle.datum_rows.specs.Conditions.{reach as reach_of};
ghost use Rattle.datum_rows.specs.Views.{motion_view, condition_view, coefficient_by, coordinate_at, IsNearBy};
ghost use Rattle.datum_rows.specs.Rows.{AreLaidOut, IsRowAt, FitsAt, FitsAll, IsMisfit, AreTested, AreFitting, AreFine, IsAddedAt, IsTableWith, AreAllAdded, IsTableAtMost};

use crate::motions::{Condition, Motion, coefficient, reach};
use crate::sites::Coordinate;
use decimal_e::Dec;
use interval_word::Iv;
use inverse_squares::over_square;
use sym_blocks::SymBlock;
use whole_numbers::product;

/// No interval of a condition is greater in size.
const MOST: u128 = 10_000_000_000_000_000_000_000_000_000_000_000;

/// A row and a column.
#[derive(Clone, Copy, Debug, PartialEq, Eq)]
pub struct Place {
    /// The row.
    pub row: usize,
    /// The column.
    pub col: usize,
}

/// The scale exponent at a place.
fn scale_at(scales: &[i32], k: usize) -> i32
    requires within { k < length scales.now }
    requires scaled { All IsScale scales.now }
    ensures value { result ≡ at scales.now k }
    ensures range { IsScale result }
{
    scales[k]
}

/// The power of ten of the interval of a motion, without those of scale exponents.
fn base_power(motion: Motion) -> i32
    ensures value { result ≡ pos 18 -ℤ pos (reach_of (motion_view motion)) }
    ensures low { pos 0 ≤ℤ result }
    ensures high { result ≤ℤ pos 18 }
{
    18 - reach(motion)
}

/// The power of ten of the interval of a motion at two places.
fn power_at(scales: &[i32], motion: Motion, i: usize, j: usize) -> i32
    requires row { i < length scales.now }
    requires column { j < length scales.now }
    requires scaled { All IsScale scales.now }
    ensures value { result ≡ pos 18 -ℤ pos (reach_of (motion_view motion)) -ℤ at scales.now i -ℤ at scales.now j }
    ensures low { negsuc 99 ≤ℤ result }
    ensures high { result ≤ℤ pos 100 }
{
    let row = scale_at(scales, i);
    let column = scale_at(scales, j);
    base_power(motion) - row - column
}

/// The coefficient of a motion at a place.
fn coefficient_at(coordinates: &[Option<Coordinate>], motion: Motion, k: usize) -> i128
    requires within { k < length coordinates.now }
    requires near { IsNearBy (coordinate_at coordinates.now k) }
    ensures value { result ≡ coefficient_by (motion_view motion) (coordinate_at coordinates.now k) }
    ensures near { unsigned_abs result ≤ 10 ^ 12 }
{
    match coordinates[k] {
        None => 0,
        Some(coordinate) => coefficient(motion, coordinate.axis, &coordinate.position),
    }
}

/// The product of the coefficients of a motion at two places.
#[tactic(auto, using(crate::proofs::RowLaws::product_rules))]
fn product_at(coordinates: &[Option<Coordinate>], motion: Motion, i: usize, j: usize) -> i128
    requires row { i < length coordinates.now }
    requires column { j < length coordinates.now }
    requires near { (k : ℕ) → k < length coordinates.now → IsNearBy (coordinate_at coordinates.now k) }
    ensures value { result ≡ coefficient_by (motion_view motion) (coordinate_at coordinates.now i) *ℤ coefficient_by (motion_view motion) (coordinate_at coordinates.now j) }
    ensures few { unsigned_abs result ≤ 10 ^ 24 }
{
    let one = coefficient_at(coordinates, motion, i);
    let other = coefficient_at(coordinates, motion, j);
    product(one, other)
}

/// The interval of `h * 10^z / s^2`, and None exactly where it passes 10^34 in size.
fn small_over_square(h: i128, sigma: &Dec, z: i32) -> Option<Iv>
    requires sigma { IsPositiveAndShort sigma.now }
    requires few { unsigned_abs h ≤ 10 ^ 24 }
    requires low { negsuc 99 ≤ℤ z }
    requires high { z ≤ℤ pos 100 }
    ensures { (w : Interval) × IsOverSquare h sigma.now z w × SomeIff result (size w ≤ 10 ^ 34) w }
{
    let Some(interval) = over_square(h, sigma, z) else {
        return None;
    };
    if interval.mag() <= MOST {
        Some(interval)
    } else {
        None
    }
}

/// The interval of a condition at two places, and None exactly where it passes 10^34 in size.
fn interval_at(
    coordinates: &[Option<Coordinate>],
    scales: &[i32],
    condition: &Condition,
    i: usize,
    j: usize,
) -> Option<Iv>
    requires laid { AreLaidOut coordinates.now scales.now }
    requires sigma { IsPositiveAndShort condition.now.sigma }
    requires row { i < length coordinates.now }
    requires column { j < length coordinates.now }
    ensures { (w : Interval) × IsRowAt coordinates.now scales.now (condition_view condition.now) i j w × SomeIff result (size w ≤ 10 ^ 34) w }
{
    let both = product_at(coordinates, condition.motion, i, j);
    let power = power_at(scales, condition.motion, i, j);
    small_over_square(both, &condition.sigma, power)
}

/// Whether a parameter is a coordinate of a site.
fn is_coordinate(coordinates: &[Option<Coordinate>], k: usize) -> bool
    requires { k < length coordinates.now }
    ensures { result ≡ is_some (coordinate_at coordinates.now k) }
{
    coordinates[k].is_some()
}

/// Whether the interval of a condition at two places fits, as it does where the second is no coordinate.
fn fits_at(
    coordinates: &[Option<Coordinate>],
    scales: &[i32],
    condition: &Condition,
    i: usize,
    j: usize,
) -> bool
    requires laid { AreLaidOut coordinates.now scales.now }
    requires sigma { IsPositiveAndShort condition.now.sigma }
    requires row { i < length coordinates.now }
    requires column { j < length coordinates.now }
    ensures { IsTrue result ↔ FitsAt coordinates.now scales.now (condition_view condition.now) i j }
{
    if !is_coordinate(coordinates, j) {
        return true;
    }
    match interval_at(coordinates, scales, condition, i, j) {
        Some(_) => true,
        None => false,
    }
}

/// The first column of a row, up to the diagonal, at which the interval of a condition does not fit.
fn misfit_in_row(
    coordinates: &[Option<Coordinate>],
    scales: &[i32],
    condition: &Condition,
    row: usize,
) -> Option<usize>
    requires laid { AreLaidOut coordinates.now scales.now }
    requires sigma { IsPositiveAndShort condition.now.sigma }
    requires row { row < length coordinates.now }
    ensures none { IfNone result (HoldsBelow (row + 1) (FitsAt coordinates.now scales.now (condition_view condition.now) row)) }
    ensures lower { IfSome result (λ col. col ≤ row) }
    ensures left { IfSome result (λ col. HoldsBelow col (FitsAt coordinates.now scales.now (condition_view condition.now) row)) }
    ensures fails { IfSome result (λ col. FitsAt coordinates.now scales.now (condition_view condition.now) row col → ⊥) }
{
    if !is_coordinate(coordinates, row) {
        return None;
    }
    for col in 0..row + 1 {
        if !fits_at(coordinates, scales, condition, row, col) {
            return Some(col);
        }
    }
    None
}

/// The first place, row by row up to the diagonal, at which the interval of a condition does not fit.
fn misfit(
    coordinates: &[Option<Coordinate>],
    scales: &[i32],
    condition: &Condition,
) -> Option<Place>
    requires laid { AreLaidOut coordinates.now scales.now }
    requires sigma { IsPositiveAndShort condition.now.sigma }
    ensures none { IfNone result (FitsAll coordinates.now scales.now (condition_view condition.now)) }
    ensures some { IfSome result (λ place. IsMisfit coordinates.now scales.now (condition_view condition.now) (Some place)) }
{
    for row in 0..coordinates.len() {
        if let Some(col) = misfit_in_row(coordinates, scales, condition, row) {
            return Some(Place { row, col });
        }
    }
    None
}

/// The first place at which an interval does not fit, one condition after another.
pub fn first_misfit(
    coordinates: &[Option<Coordinate>],
    scales: &[i32],
    conditions: &[Condition],
) -> Option<Place>
    requires laid { AreLaidOut coordinates.now scales.now }
    requires sigmas { AreFine conditions.now }
    ensures { AreTested coordinates.now scales.now conditions.now result }
{
    match conditions {
        [] => None,
        [condition, rest @ ..] => match misfit(coordinates, scales, condition) {
            Some(place) => Some(place),
            None => first_misfit(coordinates, scales, rest),
        },
    }
}

/// Adds the interval of a condition at a place of a row, which is nothing where the column is no coordinate.
fn add_at<const N: usize>(
    table: &mut SymBlock<N>,
    coordinates: &[Option<Coordinate>],
    scales: &[i32],
    condition: &Condition,
    row: usize,
    col: usize,
)
    requires laid { AreLaidOut coordinates.now scales.now }
    requires sigma { IsPositiveAndShort condition.now.sigma }
    requires size { table.old.size ≡ length coordinates.now }
    requires whole { length table.old.entries ≡ before table.old.size }
    requires row { row < length coordinates.now }
    requires lower { col ≤ row }
    requires fits { FitsAt coordinates.now scales.now (condition_view condition.now) row col }
    requires small { size (entry_at table.old row col) + 10 ^ 34 < 10 ^ 38 }
    ensures size { table.new.size ≡ table.old.size }
    ensures whole { length table.new.entries ≡ before table.new.size }
    ensures here { IsAddedAt coordinates.now scales.now (condition_view condition.now) table.old table.new row col }
    ensures others { (i j : ℕ) → i < table.old.size → j ≤ i → ((i ≡ row) × (j ≡ col) → ⊥) → entry_at table.new i j ≡ entry_at table.old i j }
{
    if !is_coordinate(coordinates, col) {
        return;
    }
    match interval_at(coordinates, scales, condition, row, col) {
        Some(more) => {
            let both = table.get(row, col).add(&more);
            table.set(row, col, both);
        }
        None => unreachable!(),
    }
}

/// Adds the intervals of a condition at a row, up to the diagonal: nothing where the row is no coordinate.
fn add_row<const N: usize>(
    table: &mut SymBlock<N>,
    coordinates: &[Option<Coordinate>],
    scales: &[i32],
    condition: &Condition,
    row: usize,
)
    requires laid { AreLaidOut coordinates.now scales.now }
    requires sigma { IsPositiveAndShort condition.now.sigma }
    requires size { table.old.size ≡ length coordinates.now }
    requires whole { length table.old.entries ≡ before table.old.size }
    requires row { row < length coordinates.now }
    requires fits { HoldsBelow (row + 1) (FitsAt coordinates.now scales.now (condition_view condition.now) row) }
    requires small { (j : ℕ) → j ≤ row → size (entry_at table.old row j) + 10 ^ 34 < 10 ^ 38 }
    ensures size { table.new.size ≡ table.old.size }
    ensures whole { length table.new.entries ≡ before table.new.size }
    ensures here { (j : ℕ) → j ≤ row → IsAddedAt coordinates.now scales.now (condition_view condition.now) table.old table.new row j }
    ensures others { (i j : ℕ) → i < table.old.size → j ≤ i → (i ≡ row → ⊥) → entry_at table.new i j ≡ entry_at table.old i j }
{
    if !is_coordinate(coordinates, row) {
        return;
    }
    for col in 0..row + 1 {
        add_at(table, coordinates, scales, condition, row, col);
    }
}

/// Adds the intervals of a condition.
fn add_condition<const N: usize>(
    table: &mut SymBlock<N>,
    coordinates: &[Option<Coordinate>],
    scales: &[i32],
    condition: &Condition,
)
    requires laid { AreLaidOut coordinates.now scales.now }
    requires sigma { IsPositiveAndShort condition.now.sigma }
    requires size { table.old.size ≡ length coordinates.now }
    requires whole { length table.old.entries ≡ before table.old.size }
    requires fits { FitsAll coordinates.now scales.now (condition_view condition.now) }
    requires small { (i j : ℕ) → i < table.old.size → j ≤ i → size (entry_at table.old i j) + 10 ^ 34 < 10 ^ 38 }
    ensures { IsTableWith coordinates.now scales.now (condition_view condition.now) table.old table.new }
{
    for row in 0..coordinates.len() {
        add_row(table, coordinates, scales, condition, row);
    }
}

/// Adds the intervals of some conditions, one after another.
pub fn add_all<const N: usize>(
    table: &mut SymBlock<N>,
    coordinates: &[Option<Coordinate>],
    scales: &[i32],
    conditions: &[Condition],
)
    requires laid { AreLaidOut coordinates.now scales.now }
    requires sigmas { AreFine conditions.now }
    requires size { table.old.size ≡ length coordinates.now }
    requires whole { length table.old.entries ≡ before table.old.size }
    requires fits { AreFitting coordinates.now scales.now conditions.now }
    requires small { (most : ℕ) × IsTableAtMost most table.old × (most + length conditions.now * 10 ^ 34 < 10 ^ 38) }
    ensures { AreAllAdded coordinates.now scales.now conditions.now table.old table.new }
{
    for condition in conditions {
        add_condition(table, coordinates, scales, condition);
    }
}
