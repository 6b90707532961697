//! The intervals of a right side for names.

ghost use Rattle.std.specs.Prelude.{◌≡◌, ◌⊎◌, ◌<◌, ℕ, All, IfOk, IfErr, Ok, Err, length, slice_index_or};
ghost use Rattle.sym_blocks.specs.Tables.{zero_interval};
ghost use Rattle.param_ids.specs.Order.{IsNames};
ghost use Rattle.param_ids.specs.Tables.{IsScale};
ghost use Rattle.named_tables.specs.Tables.{IsColumn};
ghost use Rattle.named_tables.specs.Parts.{IsShownColumn, StandsFor, right_number, row_power};
ghost use Rattle.named_tables.specs.declared.faults.RecoverFault.{RecoverFault};
ghost use Rattle.named_tables.specs.declared.faults.RecoverError.TheVariants.{Memory, Fault};

use crate::columns::{exponents_of, value_or_zero};
use crate::faults::{RecoverError, RecoverFault};
use crate::limits::first_past_of;
use crate::naming::rows_by_name;
use crate::numbers::{row_scale, weighted_at};
use decimal_e::Dec;
use interval_word::Iv;
use param_ids::{Names, Scales};
use snx_rows::Row;
use std::alloc::{AllocError, Global};

/// The intervals of the values of rows times the weight.
fn rights_of(
    alloc: Global,
    weight: &Dec,
    rows: &[Option<Row>],
    exponents: &[i32],
) -> Result<Vec<Iv>, AllocError>
    requires lengths { length rows.now ≡ length exponents.now }
    requires scales { All IsScale exponents.now }
    ensures len { IfOk result (λ right. length right.items ≡ length rows.now) }
    ensures shown { IfOk result (λ right. (i : ℕ) → i < length rows.now
        → StandsFor (right_number weight.now rows.now i) (row_power exponents.now i) (slice_index_or right.items i zero_interval)) }
{
    let mut right = Vec::new(alloc);
    for place in 0..rows.len() {
        let value = value_or_zero(&rows[place]);
        right.push(weighted_at(weight, &value, row_scale(exponents, place)))?;
    }
    Ok(right)
}

/// The right side for these names, in intervals that stand for its values.
fn shown_column(
    alloc: Global,
    rows: &[Row],
    weight: &Dec,
    scales: &Scales,
    names: &Names,
) -> Result<Vec<Iv>, AllocError>
    requires { IsNames names.now }
    ensures { IfOk result (λ right. IsShownColumn rows.now weight.now scales.now names.now right.items) }
{
    let found = rows_by_name(alloc, names, rows)?;
    let exponents = exponents_of(alloc, names, scales)?;
    rights_of(alloc, weight, &found, &exponents)
}

/// The intervals of the values of the rows of these names, times the weight and `10^(18 - t)`, where t is the scale exponent of the name.
///
/// # Errors
///
/// Range, at the first value in the order of the names whose product with the weight is no decimal of the type, or whose interval passes
/// 10^34 in size; or want of memory.
pub fn column_of(
    alloc: Global,
    rows: &[Row],
    weight: &Dec,
    scales: &Scales,
    names: &Names,
) -> Result<Vec<Iv>, RecoverError>
    requires { IsNames names.now }
    ensures column { IfOk result (λ right. IsColumn rows.now weight.now scales.now names.now (Ok right.items)) }
    ensures refused { IfErr result (λ cause. (cause ≡ Memory) ⊎ ((fault : RecoverFault) × (cause ≡ Fault fault) × IsColumn rows.now weight.now scales.now names.now (Err fault))) }
{
    let right = shown_column(alloc, rows, weight, scales, names)?;
    match first_past_of(&right) {
        Some(row) => Err(RecoverError::Fault(RecoverFault::Range {
            row: *names.at(row),
            col: *names.at(row),
        })),
        None => Ok(right),
    }
}
