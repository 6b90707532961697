//! The right sides at other a priori values.

ghost use Rattle.std.specs.Prelude.{◌≡◌, ◌≤◌, ◌<◌, ◌^◌, ℕ, All, IfErr, IfOk, Ok, Err, length, slice_index_or};
ghost use Rattle.whole_numbers.specs.Intervals.{interval_sub, size};
ghost use Rattle.sym_blocks.specs.Tables.{zero_interval};
ghost use Rattle.decimal_e.specs.Fractions.{IsAtMost};
ghost use Rattle.param_ids.specs.Tables.{IsScale};
ghost use Rattle.neq_stack.specs.ByName.{AreAtMost};
ghost use Rattle.neq_stack.specs.Neqs.{IsSound, neq_view};
ghost use Rattle.difference_products.specs.Answers.{factors_of};
ghost use Rattle.difference_products.specs.Products.{IsProduct};
ghost use Rattle.apriori_shift.specs.Answers.{IfRange};
ghost use Rattle.apriori_shift.specs.Parts.{NoneIsPast, IsFirstPast, IsMovedRight, IsPast};
ghost use Rattle.apriori_shift.specs.Shifts.{less_by};

use crate::differences::differences_of;
use crate::shifting::ShiftError;
use decimal_e::Dec;
use difference_products::{ProductError, product};
use interval_word::Iv;
use neq_stack::Neq;
use std::alloc::Global;
use sym_blocks::SymBlock;

/// The greatest size of a new right side.
const LIMIT: u128 = 100_000_000_000_000_000_000_000_000_000_000_000;

/// The products of the rows of a table with the differences.
fn products_of<const N: usize>(
    alloc: Global,
    table: &SymBlock<N>,
    differences: &[Iv],
    scales: &[i32],
) -> Result<Vec<Iv>, ShiftError>
    requires differences { length differences.now ≡ table.now.size }
    requires exponents { length scales.now ≡ table.now.size }
    requires scaled { All IsScale scales.now }
    ensures product { IfOk result (λ products. IsProduct (factors_of table.now differences.now scales.now) (Ok products.items)) }
    ensures range { IfErr result (IfRange (λ place. IsProduct (factors_of table.now differences.now scales.now) (Err place))) }
{
    match product(alloc, table, differences, scales) {
        Ok(products) => Ok(products),
        Err(ProductError::Range { row, col }) => Err(ShiftError::Range { row, col }),
        Err(ProductError::Memory) => Err(ShiftError::Memory),
    }
}

/// A right side less its product.
fn right_less(right: &[Iv], products: &[Iv], row: usize) -> Iv
    requires right { row < length right.now }
    requires product { row < length products.now }
    requires rights { (i : ℕ) → i < length right.now → size (slice_index_or right.now i zero_interval) ≤ 10 ^ 36 }
    requires products { (i : ℕ) → i < length products.now → size (slice_index_or products.now i zero_interval) ≤ 10 ^ 34 }
    ensures { result ≡ interval_sub (slice_index_or right.now row zero_interval) (slice_index_or products.now row zero_interval) }
{
    right[row].sub(&products[row])
}

/// The right sides less the products. Range comes exactly where one passes 10^35 in size, with the first.
fn rights_less(alloc: Global, right: &[Iv], products: &[Iv]) -> Result<Vec<Iv>, ShiftError>
    requires lengths { length products.now ≡ length right.now }
    requires rights { (i : ℕ) → i < length right.now → size (slice_index_or right.now i zero_interval) ≤ 10 ^ 36 }
    requires products { (i : ℕ) → i < length products.now → size (slice_index_or products.now i zero_interval) ≤ 10 ^ 34 }
    ensures less { IfOk result (λ less. less.items ≡ less_by right.now products.now) }
    ensures fit { IfOk result (λ less. NoneIsPast right.now products.now) }
    ensures past { IfErr result (IfRange (IsFirstPast right.now products.now)) }
{
    let mut less = Vec::new(alloc);
    for row in 0..right.len() {
        let w = right_less(right, products, row);
        if w.mag() > LIMIT {
            return Err(ShiftError::Range { row, col: row });
        }
        if less.push(w).is_err() {
            return Err(ShiftError::Memory);
        }
    }
    Ok(less)
}

/// The right side of normal equations at other values. Range comes exactly where an interval passes its bound, with the first.
pub fn right_at<const N: usize>(
    alloc: Global,
    neq: &Neq<N>,
    values: &[Dec],
) -> Result<Vec<Iv>, ShiftError>
    requires sound { IsSound (neq_view neq.now) }
    requires modest { AreAtMost (10 ^ 36) (neq_view neq.now) }
    requires lengths { length values.now ≡ length neq.now.names }
    requires values { All (IsAtMost (10 ^ 12)) values.now }
    ensures moved { IfOk result (λ right. IsMovedRight values.now (neq_view neq.now) right.items) }
    ensures past { IfErr result (IfRange (IsPast values.now (neq_view neq.now))) }
{
    let differences = differences_of(alloc, values, &neq.apriori)?;
    let products = products_of(alloc, &neq.table, &differences, &neq.scales)?;
    rights_less(alloc, &neq.right, &products)
}
