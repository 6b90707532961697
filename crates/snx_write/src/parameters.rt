//! The blocks with a line for each parameter.

ghost use Rattle.std.specs.Prelude.{◌≡◌, ◌≤◌, ◌<◌, ◌^◌, ◌++◌, ◌∷◌, [], pos, negsuc, map, length, All, Some, is_some, slice_get, nat_lt, unsigned_abs, OnOk};
ghost use Rattle.std.specs.Option.{option_map};
ghost use Rattle.std.specs.List.{list_any, zip};
ghost use Rattle.decimal_e.specs.Fractions.{IsAtMost};
ghost use Rattle.whole_numbers.specs.Lists.{at};
ghost use Rattle.control_doc.specs.Views.{datum_view};
ghost use Rattle.neq_stack.specs.Neqs.{IsSound, neq_view};
ghost use Rattle.param_ids.specs.Tables.{IsScale};
ghost use Rattle.datum_rows.specs.Sites as coordinates;
ghost use Rattle.bounds_report.specs.Printing.{HasSmallDeviation};
ghost use Rattle.snx_write.specs.Adding.{Adds};
ghost use Rattle.snx_write.specs.Combined as spec;

use crate::fields::{
    constraint_code, deviation_field, near_field, number_field, push_fields, push_line,
};
use bounds_report::Printed;
use control_doc::{Datum, Site};
use decimal_e::Dec;
use interval_word::Iv;
use neq_stack::Neq;
use param_ids::{ParamId, push_label};
use std::alloc::AllocError;
use whole_numbers::ten_to;

/// Whether a type is that of a coordinate.
fn is_coordinate(kind: &[u8; 6]) -> bool
    ensures { result ≡ is_some (coordinates.axis_of kind.now) }
{
    *kind == *b"STAX  " || *kind == *b"STAY  " || *kind == *b"STAZ  "
}

/// Whether a name has a site's code, point and solution.
fn is_of_site(id: &ParamId, site: &Site) -> bool
    ensures { result ≡ coordinates.is_of_site id.now site.now }
{
    id.code == site.code && (id.point == site.point && id.soln == site.soln)
}

/// Whether a name has those of one of the sites.
fn is_of_any(id: &ParamId, sites: &[Site]) -> bool
    ensures { result ≡ list_any (coordinates.is_of_site id.now) sites.now }
{
    sites.iter().any(|site| is_of_site(id, site))
}

/// Whether a parameter is a coordinate of a site of the datum.
fn is_held(datum: &Option<Datum>, id: &ParamId) -> bool
    ensures { result ≡ spec.is_held (option_map datum_view datum.now) id.now }
{
    match datum {
        Some(datum) => is_coordinate(&id.kind) && is_of_any(id, &datum.sites),
        None => false,
    }
}

/// Appends the line of a parameter with this index and these numbers.
fn push_parameter(
    out: &mut Vec<u8>,
    datum: &Option<Datum>,
    index: usize,
    id: &ParamId,
    unit: &[u8; 4],
    numbers: &[&[u8]],
) -> Result<(), AllocError>
    ensures { OnOk result (Adds
        (spec.parameter_line (option_map datum_view datum.now) index id.now unit.now (map (λ number. number.now) numbers.now) ∷ [])
        out.old.items out.new.items) }
{
    push_label(out, index, id, unit)?;
    push_fields(out, &[&constraint_code(is_held(datum, id))])?;
    push_fields(out, numbers)?;
    out.push(b'\n')?;
    Ok(())
}

/// The unit of parameter `k`, counted from 0.
fn unit_of(units: &[[u8; 4]], k: usize) -> &[u8; 4]
    requires { k < length units.now }
    ensures { slice_get units.now k ≡ Some result.now }
{
    &units[k]
}

/// The printed numbers of parameter `k`.
fn printed_of(rows: &[Printed], k: usize) -> &Printed
    requires row { k < length rows.now }
    requires small { All HasSmallDeviation rows.now }
    ensures value { slice_get rows.now k ≡ Some result.now }
    ensures small { HasSmallDeviation result.now }
{
    &rows[k]
}

/// The estimate of a row.
fn estimate_field(row: &Printed) -> [u8; 21]
    ensures { result ≡ spec.value_text row.now.estimate (negsuc 15) }
{
    near_field(row.estimate, -16, 15)
}

/// The standard deviation of a row.
fn row_deviation(row: &Printed) -> [u8; 11]
    requires { HasSmallDeviation row.now }
    ensures { result ≡ spec.deviation_text (pos row.now.deviation) row.now.deviation_place }
{
    deviation_field(row.deviation as u64, row.deviation_place)
}

/// Appends the lines of the estimates.
fn push_estimate_lines<const N: usize>(
    out: &mut Vec<u8>,
    datum: &Option<Datum>,
    free: &Neq<N>,
    rows: &[Printed],
) -> Result<(), AllocError>
    requires sound { IsSound (neq_view free.now) }
    requires rows { length rows.now ≡ length free.now.names }
    requires small { All HasSmallDeviation rows.now }
    ensures { OnOk result (Adds
        (spec.estimate_lines (option_map datum_view datum.now) (neq_view free.now) rows.now) out.old.items out.new.items) }
{
    for k in 0..free.names.len() {
        let id = free.names.at(k);
        let unit = unit_of(&free.units, k);
        let row = printed_of(rows, k);
        let value = estimate_field(row);
        let deviation = row_deviation(row);
        push_parameter(out, datum, k + 1, id, unit, &[&value, &deviation])?;
    }
    Ok(())
}

/// Appends SOLUTION/ESTIMATE.
pub(crate) fn push_estimates<const N: usize>(
    out: &mut Vec<u8>,
    datum: &Option<Datum>,
    free: &Neq<N>,
    rows: &[Printed],
) -> Result<(), AllocError>
    requires sound { IsSound (neq_view free.now) }
    requires rows { length rows.now ≡ length free.now.names }
    requires small { All HasSmallDeviation rows.now }
    ensures { OnOk result (Adds
        (spec.estimate_block (option_map datum_view datum.now) (neq_view free.now) rows.now) out.old.items out.new.items) }
{
    push_line(out, b"+SOLUTION/ESTIMATE", &[])?;
    push_estimate_lines(out, datum, free, rows)?;
    push_line(out, b"-SOLUTION/ESTIMATE", &[])
}

/// Whether a number is below 10^k in size.
fn is_below(mant: i128, k: u32) -> bool
    requires { unsigned_abs mant < 10 ^ 36 }
    ensures { result ≡ nat_lt (unsigned_abs mant) (10 ^ k) }
{
    if k < 36 {
        mant.unsigned_abs() < ten_to(k).unsigned_abs()
    } else {
        true
    }
}

/// Whether a value is below 10^-99 in size.
fn is_tiny(value: &Dec) -> bool
    ensures { result ≡ spec.is_tiny value.now }
{
    let power = value.exp() + 99;
    if power < 0 {
        is_below(value.mant(), power.unsigned_abs())
    } else {
        value.mant().unsigned_abs() == 0
    }
}

/// An a priori value: zero where it is tiny.
fn apriori_field(value: &Dec) -> [u8; 21]
    requires { IsAtMost (10 ^ 12) value.now }
    ensures { result ≡ spec.apriori_text value.now }
{
    if is_tiny(value) {
        near_field(0, 0, 15)
    } else {
        number_field(value.mant(), value.exp(), 15)
    }
}

/// The a priori value of parameter `k`.
fn apriori_of(values: &[Dec], k: usize) -> &Dec
    requires value { k < length values.now }
    requires modest { All (IsAtMost (10 ^ 12)) values.now }
    ensures value { slice_get values.now k ≡ Some result.now }
    ensures modest { IsAtMost (10 ^ 12) result.now }
{
    &values[k]
}

/// Appends the lines of the a priori values.
fn push_apriori_lines<const N: usize>(
    out: &mut Vec<u8>,
    datum: &Option<Datum>,
    free: &Neq<N>,
) -> Result<(), AllocError>
    requires { IsSound (neq_view free.now) }
    ensures { OnOk result (Adds (spec.apriori_lines (option_map datum_view datum.now) (neq_view free.now)) out.old.items out.new.items) }
{
    let deviation = deviation_field(0, 0);
    for k in 0..free.names.len() {
        let id = free.names.at(k);
        let unit = unit_of(&free.units, k);
        let value = apriori_field(apriori_of(&free.apriori, k));
        push_parameter(out, datum, k + 1, id, unit, &[&value, &deviation])?;
    }
    Ok(())
}

/// Appends SOLUTION/APRIORI.
pub(crate) fn push_apriori<const N: usize>(
    out: &mut Vec<u8>,
    datum: &Option<Datum>,
    free: &Neq<N>,
) -> Result<(), AllocError>
    requires { IsSound (neq_view free.now) }
    ensures { OnOk result (Adds (spec.apriori_block (option_map datum_view datum.now) (neq_view free.now)) out.old.items out.new.items) }
{
    push_line(out, b"+SOLUTION/APRIORI", &[])?;
    push_apriori_lines(out, datum, free)?;
    push_line(out, b"-SOLUTION/APRIORI", &[])
}

/// The interval of the right side of parameter `k`.
fn right_of(right: &[Iv], k: usize) -> Iv
    requires { k < length right.now }
    ensures { slice_get right.now k ≡ Some result }
{
    right[k]
}

/// The scale exponent of parameter `k`.
pub(crate) fn scale_of(scales: &[i32], k: usize) -> i32
    requires scale { k < length scales.now }
    requires scaled { All IsScale scales.now }
    ensures value { slice_get scales.now k ≡ Some result }
    ensures read { result ≡ at scales.now k }
    ensures scaled { IsScale result }
{
    scales[k]
}

/// The right side of a parameter with this scale exponent.
fn vector_field(right: &Iv, scale: i32) -> [u8; 21]
    requires { IsScale scale }
    ensures { result ∷ [] ≡ spec.vector_numbers (right.now, scale) }
{
    near_field(right.mid(), scale - 18, 15)
}

/// Appends the lines of the right side.
fn push_vector_lines<const N: usize>(
    out: &mut Vec<u8>,
    datum: &Option<Datum>,
    free: &Neq<N>,
) -> Result<(), AllocError>
    requires { IsSound (neq_view free.now) }
    ensures { OnOk result (Adds (spec.vector_lines (option_map datum_view datum.now) (neq_view free.now)) out.old.items out.new.items) }
{
    for k in 0..free.names.len() {
        let id = free.names.at(k);
        let unit = unit_of(&free.units, k);
        let right = right_of(&free.right, k);
        let scale = scale_of(&free.scales, k);
        let value = vector_field(&right, scale);
        push_parameter(out, datum, k + 1, id, unit, &[&value])?;
    }
    Ok(())
}

/// Appends SOLUTION/NORMAL_EQUATION_VECTOR.
pub(crate) fn push_vector<const N: usize>(
    out: &mut Vec<u8>,
    datum: &Option<Datum>,
    free: &Neq<N>,
) -> Result<(), AllocError>
    requires { IsSound (neq_view free.now) }
    ensures { OnOk result (Adds (spec.vector_block (option_map datum_view datum.now) (neq_view free.now)) out.old.items out.new.items) }
{
    push_line(out, b"+SOLUTION/NORMAL_EQUATION_VECTOR", &[])?;
    push_vector_lines(out, datum, free)?;
    push_line(out, b"-SOLUTION/NORMAL_EQUATION_VECTOR", &[])
}
