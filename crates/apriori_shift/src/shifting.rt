//! Normal equations at other a priori values.

ghost use Rattle.std.specs.Prelude.{◌≡◌, ◌≤◌, ◌+◌, ◌^◌, ℕ, All, IfOk, IfErr, Ok, Err, length, map};
ghost use Rattle.decimal_e.specs.Fractions.{IsAtMost};
ghost use Rattle.neq_stack.specs.ByName.{AreAtMost};
ghost use Rattle.neq_stack.specs.Neqs.{IsSound, neq_view};
ghost use Rattle.apriori_shift.specs.Shifts.{IsShift};
ghost use Rattle.apriori_shift.specs.Answers.{common_value, IfRange};
ghost use Rattle.apriori_shift.specs.declared.shifting.ShiftError.TheVariants.{Memory};

use crate::commons::Apriori;
use crate::differences::{are_same, values_of};
use crate::rights::right_at;
use decimal_e::Dec;
use neq_stack::Neq;
use std::alloc::{AllocError, Global};
use thiserror::Error;

/// Why normal equations are not brought to other a priori values.
#[derive(Clone, Copy, Debug, PartialEq, Eq, Error)]
pub enum ShiftError {
    /// An interval passes its bound: one of the working table at this row and column; or else the sum of the differences up to a row, the
    /// product of a row with them, or the new right side of a row, which have row and column equal.
    #[error("row {row}, column {col} passes its bound")]
    Range { row: usize, col: usize },
    /// Memory is wanting.
    #[error("out of memory")]
    Memory,
}

impl From<AllocError> for ShiftError {
    ghost from_gives = { λ _ r. r ≡ Memory };

    fn from(_refusal: AllocError) -> ShiftError {
        ShiftError::Memory
    }
}

/// Brings normal equations to these a priori values: the right side becomes itself less the matrix times the differences, new value less
/// old one. One pass over the matrix. Where the values are the old ones nothing changes and nothing is tested.
///
/// # Errors
///
/// Range, at the first interval that passes its bound: those of the product, and then a new right side past 10^35; or want of memory. The
/// normal equations are unchanged then.
pub fn shift_to<const N: usize>(
    alloc: Global,
    neq: &mut Neq<N>,
    values: Vec<Dec>,
) -> Result<(), ShiftError>
    requires sound { IsSound (neq_view neq.old) }
    requires modest { AreAtMost (10 ^ 36) (neq_view neq.old) }
    requires lengths { length values.items ≡ length neq.old.names }
    requires values { All (IsAtMost (10 ^ 12)) values.items }
    ensures shifted { IfOk result (λ done. IsShift values.items (neq_view neq.old) (Ok (neq_view neq.new))) }
    ensures range { IfErr result (IfRange (λ place. IsShift values.items (neq_view neq.old) (Err place))) }
    ensures unchanged { IfErr result (λ _. neq_view neq.new ≡ neq_view neq.old) }
    ensures sound { IsSound (neq_view neq.new) }
    ensures modest { (most : ℕ) → AreAtMost most (neq_view neq.old) → AreAtMost (most + 10 ^ 34) (neq_view neq.new) }
{
    if are_same(&values, &neq.apriori) {
        return Ok(());
    }
    let right = right_at(alloc, neq, &values)?;
    neq.right = right;
    neq.apriori = values;
    Ok(())
}

/// Brings normal equations to common a priori values, as `shift_to` does.
///
/// # Errors
///
/// Those of `shift_to`.
pub fn shift<const N: usize>(
    alloc: Global,
    neq: &mut Neq<N>,
    base: &Apriori,
) -> Result<(), ShiftError>
    requires sound { IsSound (neq_view neq.old) }
    requires modest { AreAtMost (10 ^ 36) (neq_view neq.old) }
    requires values { All (IsAtMost (10 ^ 12)) (map (common_value base.now) neq.old.names) }
    ensures shifted { IfOk result (λ done. IsShift (map (common_value base.now) neq.old.names) (neq_view neq.old) (Ok (neq_view neq.new))) }
    ensures range { IfErr result (IfRange (λ place. IsShift (map (common_value base.now) neq.old.names) (neq_view neq.old) (Err place))) }
    ensures unchanged { IfErr result (λ _. neq_view neq.new ≡ neq_view neq.old) }
    ensures sound { IsSound (neq_view neq.new) }
    ensures modest { (most : ℕ) → AreAtMost most (neq_view neq.old) → AreAtMost (most + 10 ^ 34) (neq_view neq.new) }
{
    let values = values_of(alloc, &neq.names, base)?;
    shift_to(alloc, neq, values)
}
