//! Values, units and scale exponents of names.

ghost use Rattle.std.specs.Prelude.{◌≡◌, All, IfOk, codes, map};
ghost use Rattle.std.specs.Net.Reader.{map_or};
ghost use Rattle.param_ids.specs.Order.{IsNames};
ghost use Rattle.param_ids.specs.Tables.{IsScale};
ghost use Rattle.snx_rows.specs.Named.{unit_of, value_of, zero_decimal};
ghost use Rattle.named_tables.specs.Weighted.{scale_of};

use crate::naming::rows_by_name;
use decimal_e::Dec;
use param_ids::{Names, ParamId, Scales, scale_of};
use snx_rows::Row;
use std::alloc::{AllocError, Global};

/// The value of a row, or zero.
pub fn value_or_zero(row: &Option<Row>) -> Dec
    ensures { result ≡ map_or row.now zero_decimal (λ row. row.value) }
{
    match row {
        Some(row) => row.value,
        None => Dec::zero(),
    }
}

/// The unit of a row, or blanks.
fn unit_or_blanks(row: &Option<Row>) -> [u8; 4]
    ensures { result ≡ map_or row.now (codes "    ") (λ row. row.unit) }
{
    match row {
        Some(row) => row.unit,
        None => *b"    ",
    }
}

/// The values of rows.
fn values_in(alloc: Global, rows: &[Option<Row>]) -> Result<Vec<Dec>, AllocError>
    ensures { IfOk result (λ values. values.items ≡ map (λ row. map_or row zero_decimal (λ row. row.value)) rows.now) }
{
    rows.iter().map(value_or_zero).collect(alloc)
}

/// The units of rows.
fn units_in(alloc: Global, rows: &[Option<Row>]) -> Result<Vec<[u8; 4]>, AllocError>
    ensures { IfOk result (λ units. units.items ≡ map (λ row. map_or row (codes "    ") (λ row. row.unit)) rows.now) }
{
    rows.iter().map(unit_or_blanks).collect(alloc)
}

/// The values of the rows of these names; zero where a name has none.
///
/// # Errors
///
/// Want of memory.
pub fn values_of(alloc: Global, names: &Names, rows: &[Row]) -> Result<Vec<Dec>, AllocError>
    requires { IsNames names.now }
    ensures { IfOk result (λ values. values.items ≡ map (value_of rows.now) names.now) }
{
    let found = rows_by_name(alloc, names, rows)?;
    values_in(alloc, &found)
}

/// The units of the rows of these names; blanks where a name has none.
///
/// # Errors
///
/// Want of memory.
pub fn units_of(alloc: Global, names: &Names, rows: &[Row]) -> Result<Vec<[u8; 4]>, AllocError>
    requires { IsNames names.now }
    ensures { IfOk result (λ units. units.items ≡ map (unit_of rows.now) names.now) }
{
    let found = rows_by_name(alloc, names, rows)?;
    units_in(alloc, &found)
}

/// The scale exponent of a name.
fn scale_for(id: &ParamId, scales: &Scales) -> i32
    ensures value { result ≡ scale_of scales.now id.now }
    ensures range { IsScale result }
{
    scale_of(&id.kind, scales)
}

/// The scale exponents of names.
///
/// # Errors
///
/// Want of memory.
pub fn exponents_of(alloc: Global, names: &Names, scales: &Scales) -> Result<Vec<i32>, AllocError>
    ensures exponents { IfOk result (λ exponents. exponents.items ≡ map (scale_of scales.now) names.now) }
    ensures range { IfOk result (λ exponents. All IsScale exponents.items) }
{
    let mut exponents = Vec::new(alloc);
    for place in 0..names.len() {
        exponents.push(scale_for(names.at(place), scales))?;
    }
    Ok(exponents)
}
