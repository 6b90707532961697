//! The rows that give a network its datum, added to normal equations.
#![tactic(auto)]

ghost use Rattle.std.specs.Prelude.{◌≡◌, ◌≤◌, ◌+◌, ◌*◌, ◌^◌, ℕ, Ok, Err, IfOk, IfErr};
ghost use Rattle.control_doc.specs.Valid.{HasPositiveSigmas};
ghost use Rattle.control_doc.specs.Views.{datum_view};
ghost use Rattle.neq_stack.specs.ByName.{AreAtMost};
ghost use Rattle.neq_stack.specs.Neqs.{IsSound, neq_view};
ghost use Rattle.datum_rows.specs.Additions.{IsAddition, OneAddition, OnlyAtSites};
ghost use Rattle.datum_rows.specs.Answers.{IfFault};
ghost use Rattle.datum_rows.specs.Exact.{DatumHolds, DatumExists, DatumMultiples};

mod motions;
mod rows;
mod sites;

use control_doc::{Datum, Site};
use motions::conditions;
use neq_stack::Neq;
use rows::{add_all, first_misfit};
use sites::{coordinates, unmatched};
use std::alloc::Global;
use thiserror::Error;

/// Why the rows of a datum are not added.
#[derive(Clone, Copy, Debug, PartialEq, Eq, Error)]
pub enum DatumError {
    /// Of this site, the first such of the datum, a coordinate is not there exactly once.
    #[error("a site without its coordinates")]
    Unmatched { site: Site },
    /// The interval that a row of the datum adds at this row and column passes its bound.
    #[error("row {row}, column {col} passes its bound")]
    Range { row: usize, col: usize },
    /// Memory is wanting.
    #[error("out of memory")]
    Memory,
}

/// Adds the rows of a datum to the matrix: for each row with coefficients h and standard deviation s, `h_i h_j / s^2` at each two
/// parameters, for a rotation or a dilation over `10^14`. The right side stays: the rows hold at the a priori values. Of s sites `(3 s)^2`
/// intervals are changed.
///
/// # Errors
///
/// Unmatched, with the first site of which STAX, STAY or STAZ is not there exactly once; Range, at the first interval past 10^34, one row
/// of the datum after another and each by the rows of the matrix up to the diagonal; or want of memory. The normal equations are unchanged
/// then.
pub fn add_datum<const N: usize>(
    alloc: Global,
    neq: &mut Neq<N>,
    datum: &Datum,
) -> Result<(), DatumError>
    requires sound { IsSound (neq_view neq.old) }
    requires modest { AreAtMost (64 * 10 ^ 36) (neq_view neq.old) }
    requires positive { HasPositiveSigmas (datum_view datum.now) }
    ensures added { IfOk result (λ done. IsAddition (datum_view datum.now) (neq_view neq.old) (Ok (neq_view neq.new))) }
    ensures refused { IfErr result (IfFault (λ fault. IsAddition (datum_view datum.now) (neq_view neq.old) (Err fault))) }
    ensures unchanged { IfErr result (λ _. neq_view neq.new ≡ neq_view neq.old) }
    ensures sound { IsSound (neq_view neq.new) }
    ensures modest { (most : ℕ) → AreAtMost most (neq_view neq.old) → AreAtMost (most + 7 * 10 ^ 34) (neq_view neq.new) }
{
    if let Some(site) = unmatched(&neq.names, &datum.sites) {
        return Err(DatumError::Unmatched { site });
    }
    let Ok(coordinates) = coordinates(alloc, neq, &datum.sites) else {
        return Err(DatumError::Memory);
    };
    let Ok(conditions) = conditions(alloc, datum) else {
        return Err(DatumError::Memory);
    };
    if let Some(place) = first_misfit(&coordinates, &neq.scales, &conditions) {
        return Err(DatumError::Range {
            row: place.row,
            col: place.col,
        });
    }
    add_all(&mut neq.table, &coordinates, &neq.scales, &conditions);
    Ok(())
}

/// A datum is added in one way or has one first fault, and changes no interval but those at two coordinates of its sites. It has an exact
/// system, and what lies in normal equations lies, with the system of the datum, in those with its rows.
pub fn datum_holds()
    ensures one { OneAddition }
    ensures holds { DatumHolds }
    ensures exists { DatumExists }
    ensures multiples { DatumMultiples }
    ensures elsewhere { OnlyAtSites }
{}

#[cfg(test)]
mod tests;
