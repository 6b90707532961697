//! Entries scaled within a bound, and whole rows of them.

ghost use Rattle.std.specs.Prelude.{◌≡◌, ◌≤◌, ◌<◌, ◌+◌, ◌*◌, ◌^◌, ℕ, ℤ, pos, negsuc, ◌-ℤ◌, neg_ℤ, ◌≤ℤ◌, List, length, slice_index_or, SomeIff, IfOk, IfErr, IfSome, IfNone};
ghost use Rattle.std.specs.Vec.{vec_len};
ghost use Rattle.sym_blocks.specs.Tables.{SymTable, before, entry_at, zero_interval};
ghost use Rattle.equil.specs.Exponents.{IsExponent, IsInRange};
ghost use Rattle.equil.specs.Refusals.{IfRange};
ghost use Rattle.equil.specs.Rows.{AllInRange, AreScaled, IsRowScaled, IsRightScaled, KeepsRows};
ghost use Rattle.stated_order.specs.First.{IsFirstFailure, IsFirstLowerFailure};
ghost use Rattle.equil.specs.Tables.{exponent_of, working_entry, working_right, EntryFits, RightFits, AreExponents};

use crate::EquilError;
use crate::powers::exponent;
use interval_word::Iv;
use std::alloc::{AllocError, Global};
use sym_blocks::SymBlock;

/// The greatest size of a working interval of a right side.
const LIMIT: u128 = 10_000_000_000_000_000_000_000_000_000_000_000_000;

fn exponent_at(e: &[i32], i: usize) -> i32
    requires within { i < length e.now }
    requires range { AllInRange e.now }
    ensures value { result ≡ exponent_of e.now i }
    ensures range { IsInRange result }
{
    e[i]
}

/// The power of ten of a pair.
fn entry_shift(e: &[i32], i: usize, j: usize) -> i32
    requires row { i < length e.now }
    requires column { j < length e.now }
    requires range { AllInRange e.now }
    ensures { result ≡ neg_ℤ (exponent_of e.now i) -ℤ exponent_of e.now j }
{
    -exponent_at(e, i) - exponent_at(e, j)
}

/// The power of ten of an interval of the right side.
fn right_shift(e: &[i32], i: usize) -> i32
    requires row { i < length e.now }
    requires range { AllInRange e.now }
    ensures { result ≡ pos 12 -ℤ exponent_of e.now i }
{
    12 - exponent_at(e, i)
}

fn right_at(right: &[Iv], i: usize) -> Iv
    requires { i < length right.now }
    ensures { result ≡ slice_index_or right.now i zero_interval }
{
    right[i]
}

/// The exponents of the diagonal.
pub fn exponents<const N: usize>(alloc: Global, table: &SymBlock<N>) -> Result<Vec<i32>, AllocError>
    ensures len { IfOk result (λ e. vec_len e ≡ table.now.size) }
    ensures are { IfOk result (λ e. AreExponents table.now.size (entry_at table.now) (exponent_of e.items)) }
    ensures range { IfOk result (λ e. AllInRange e.items) }
{
    let mut e = Vec::new(alloc);
    for i in 0..table.size() {
        e.push(exponent(table.get(i, i).hi()))?;
    }
    Ok(e)
}

/// The working interval of a pair, and None exactly where it passes its bound.
fn entry_scaled<const N: usize>(table: &SymBlock<N>, e: &[i32], i: usize, j: usize) -> Option<Iv>
    requires len { length e.now ≡ table.now.size }
    requires range { AllInRange e.now }
    requires row { i < table.now.size }
    requires column { j < table.now.size }
    ensures { SomeIff result (EntryFits (entry_at table.now) (exponent_of e.now) i j) (working_entry (entry_at table.now) (exponent_of e.now) i j) }
{
    table
        .get(i, j)
        .scale10_within(entry_shift(e, i, j), 1 << 61)
}

/// Puts the working intervals of a row into `a`, up to the diagonal or to the first that passes its bound, whose
/// column is the answer.
fn scale_row<const N: usize>(
    a: &mut SymBlock<N>,
    table: &SymBlock<N>,
    e: &[i32],
    i: usize,
) -> Option<usize>
    requires sizes { a.old.size ≡ table.now.size }
    requires len { length e.now ≡ table.now.size }
    requires range { AllInRange e.now }
    requires row { i < table.now.size }
    ensures size { a.new.size ≡ a.old.size }
    ensures kept { KeepsRows i a.old a.new }
    ensures whole { IfNone result (IsRowScaled i (i + 1) a.new (entry_at table.now) (exponent_of e.now)) }
    ensures list { length a.old.entries ≡ before a.old.size → length a.new.entries ≡ before a.new.size }
    ensures past { IfSome result (IsFirstFailure (i + 1) (EntryFits (entry_at table.now) (exponent_of e.now) i)) }
{
    for j in 0..i + 1 {
        match entry_scaled(table, e, i, j) {
            Some(scaled) => a.set(i, j, scaled),
            None => return Some(j),
        }
    }
    None
}

/// The working intervals of the table. Range comes exactly where one passes its bound, with the first.
pub fn scaled_table<const N: usize>(
    alloc: Global,
    table: &SymBlock<N>,
    e: &[i32],
) -> Result<SymBlock<N>, EquilError>
    requires len { length e.now ≡ table.now.size }
    requires range { AllInRange e.now }
    ensures size { IfOk result (λ a. a.size ≡ table.now.size) }
    ensures list { IfOk result (λ a. length a.entries ≡ before a.size) }
    ensures scaled { IfOk result (λ a. AreScaled table.now.size a (entry_at table.now) (exponent_of e.now)) }
    ensures past { IfErr result (IfRange (IsFirstLowerFailure table.now.size (EntryFits (entry_at table.now) (exponent_of e.now)))) }
{
    let size = table.size();
    let mut a = match SymBlock::zero(alloc, size) {
        Ok(zero) => zero,
        Err(_) => return Err(EquilError::Memory),
    };
    for row in 0..size {
        if let Some(col) = scale_row(&mut a, table, e, row) {
            return Err(EquilError::Range { row, col });
        }
    }
    Ok(a)
}

/// The working interval of a row of the right side, and None exactly where it passes its bound.
fn right_scaled(right: &[Iv], e: &[i32], i: usize) -> Option<Iv>
    requires len { length e.now ≡ length right.now }
    requires range { AllInRange e.now }
    requires row { i < length right.now }
    ensures { SomeIff result (RightFits (λ k. slice_index_or right.now k zero_interval) (exponent_of e.now) i) (working_right (λ k. slice_index_or right.now k zero_interval) (exponent_of e.now) i) }
{
    right_at(right, i).scale10_within(right_shift(e, i), LIMIT)
}

/// The working intervals of the right side. Range comes exactly where one passes its bound, with the first.
pub fn scaled_right(alloc: Global, right: &[Iv], e: &[i32]) -> Result<Vec<Iv>, EquilError>
    requires len { length e.now ≡ length right.now }
    requires range { AllInRange e.now }
    ensures len { IfOk result (λ d. vec_len d ≡ length right.now) }
    ensures scaled { IfOk result (λ d. IsRightScaled (length right.now) d.items (λ k. slice_index_or right.now k zero_interval) (exponent_of e.now)) }
    ensures past { IfErr result (IfRange (λ row col. (row ≡ col) × IsFirstFailure (length right.now) (RightFits (λ k. slice_index_or right.now k zero_interval) (exponent_of e.now)) row)) }
{
    let mut d = Vec::new(alloc);
    for row in 0..right.len() {
        match right_scaled(right, e, row) {
            Some(scaled) => {
                if d.push(scaled).is_err() {
                    return Err(EquilError::Memory);
                }
            }
            None => return Err(EquilError::Range { row, col: row }),
        }
    }
    Ok(d)
}
