//! Standard deviations by name.

ghost use Rattle.std.specs.Prelude.{◌≡◌, ◌<◌, ◌^◌, pos, ◌<ℤ◌, All, IfSome, unsigned_abs};
ghost use Rattle.snx_rows.specs.Blocks.{HasShortDeviation};
ghost use Rattle.snx_rows.specs.Named.{is_row_of};
ghost use Rattle.named_tables.specs.Deviations.{positive, sigma_in, sigma_of};

use decimal_e::Dec;
use param_ids::ParamId;
use snx_rows::Row;
use std::cmp::Ordering;

/// A standard deviation, where it is positive.
pub fn positive(dev: &Dec) -> Option<Dec>
    ensures { result ≡ positive dev.now }
{
    if dev.mant() > 0 { Some(*dev) } else { None }
}

/// The standard deviation of a row, where it is positive.
pub fn sigma_in(row: &Row) -> Option<Dec>
    ensures { result ≡ sigma_in row.now }
{
    match row.dev {
        Some(dev) => positive(&dev),
        None => None,
    }
}

/// Whether a row has this name.
fn is_row_of(id: &ParamId, row: &Row) -> bool
    ensures { result ≡ is_row_of id.now row.now }
{
    row.id.cmp(id) == Ordering::Equal
}

/// The standard deviation of the row of a name, where it is positive. It is searched for among all rows.
pub fn sigma_of(rows: &[Row], id: &ParamId) -> Option<Dec>
    ensures value { result ≡ sigma_of rows.now id.now }
    ensures positive { IfSome result (λ d. pos 0 <ℤ d.mant) }
    ensures short { All HasShortDeviation rows.now → IfSome result (λ d. unsigned_abs d.mant < 10 ^ 18) }
{
    for row in rows {
        if is_row_of(id, row) {
            return sigma_in(row);
        }
    }
    None
}
