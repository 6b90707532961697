//! The printed bounds and the estimates of the rows, in units of 10^-16.

ghost use Rattle.std.specs.Prelude.{◌<◌, SomeIff, IfOk, IfErr};
ghost use Rattle.bounds_report.specs.Ends.{AreLimited, AreEnds, ends_of, IsRowPrintable, IsFirstRefused, IfRange};
ghost use Rattle.bounds_report.specs.Rows.{row_count};

use crate::PrintError;
use crate::rows::Rows;
use crate::terms::{estimate, high_term, low_term, printed_interval};
use std::alloc::Global;

/// The greatest size of a printed bound.
const BOUND_LIMIT: u128 = 10_000_000_000_000_000_000_000_000_000_000_000_000;

/// The greatest size of a printed estimate.
const ESTIMATE_LIMIT: u128 = 1_000_000_000_000_000_000_000_000_000_000_000;

/// The printed bounds and the estimate of a row.
#[derive(Clone, Copy)]
pub struct Ends {
    pub lower: i128,
    pub upper: i128,
    pub estimate: i128,
}

/// The ends, and None exactly where one of them is too great.
fn limited(ends: Ends) -> Option<Ends>
    ensures { SomeIff result (AreLimited ends) ends }
{
    let bounds_fit = ends.lower.unsigned_abs() <= BOUND_LIMIT
        && ends.upper.unsigned_abs() <= BOUND_LIMIT;
    if bounds_fit && ends.estimate.unsigned_abs() <= ESTIMATE_LIMIT {
        Some(ends)
    } else {
        None
    }
}

/// The ends of a row, and None exactly where they can't be printed.
fn row_ends(rows: &Rows, i: usize) -> Option<Ends>
    requires { i < row_count rows.now }
    ensures { SomeIff result (IsRowPrintable rows.now i) (ends_of rows.now i) }
{
    let low = low_term(rows, i)?;
    let high = high_term(rows, i)?;
    let interval = printed_interval(rows, i);
    limited(Ends {
        lower: interval.lo() + low,
        upper: interval.hi() + high,
        estimate: estimate(rows, i),
    })
}

/// The ends of all rows. Range comes exactly where they can't be printed, with the first such row.
pub fn all_ends(alloc: Global, rows: &Rows) -> Result<Vec<Ends>, PrintError>
    ensures ends { IfOk result (λ es. AreEnds (row_count rows.now) rows.now es.items) }
    ensures refused { IfErr result (IfRange (IsFirstRefused rows.now)) }
{
    let mut all = Vec::new(alloc);
    for row in 0..rows.count() {
        match row_ends(rows, row) {
            Some(ends) => {
                if all.push(ends).is_err() {
                    return Err(PrintError::Memory);
                }
            }
            None => return Err(PrintError::Range { row }),
        }
    }
    Ok(all)
}
