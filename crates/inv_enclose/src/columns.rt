//! One column of an inverse.

ghost use Rattle.std.specs.Prelude.{◌≡◌, ◌≤◌, ◌<◌, ◌⊎◌, ℕ, List, replicate, IfOk, IfErr, Err};
ghost use Rattle.whole_numbers.specs.Intervals.{Interval};
ghost use Rattle.sym_blocks.specs.Tables.{zero_interval};
ghost use Rattle.equil.specs.Tables.{table_of};
ghost use Rattle.enclosures.specs.Pilots.{IsPilotScale};
ghost use Rattle.enclosure_check.specs.Certificates.{AreDefects};
ghost use Rattle.inv_enclose.specs.Columns.{IsUnitPower, IsUnitSide, IsColumn};
ghost use Rattle.inv_enclose.specs.Parts.{column_of, IsInBounds, IsEnclosedColumn};
ghost use Rattle.inv_enclose.specs.declared.InvError.TheVariants.{Memory};

use crate::InvError;
use crate::refusals::of_vector;
use enclosure_check::{WorkingRows, certificate, errors, start_vector};
use enclosures::{Pilot, Radius};
use interval_word::Iv;
use std::alloc::{AllocError, Global};
use whole_numbers::ten_to;

/// A column of the inverse of a working table, in the units of that table.
#[derive(Drop)]
pub struct EnclosedColumn {
    /// The start vector.
    pub vector: Vec<i128>,
    /// The certificate at the start vector.
    pub radius: Radius,
}

/// The exponent of the greatest power of ten of at most 2^(63 + g).
pub fn unit_power(g: u32) -> u32
    requires { IsPilotScale g }
    ensures power { IsUnitPower g result }
    ensures bound { result ≤ 34 }
{
    match g {
        50 => 34,
        40 => 31,
        30 => 27,
        20 => 24,
        10 => 21,
        _ => 18,
    }
}

/// A list of zeros.
pub fn zeros(alloc: Global, n: usize) -> Result<Vec<Iv>, AllocError>
    requires { n ≤ 1000 }
    ensures { IfOk result (λ d. d.items ≡ replicate n zero_interval) }
{
    vec![in alloc; Iv::point(0); n]
}

/// The right side of `n` rows with 10^v in row `c`, and zeros in the others.
fn unit_side(alloc: Global, n: usize, v: u32, c: usize) -> Result<Vec<Iv>, AllocError>
    requires few { n ≤ 1000 }
    requires within { c < n }
    requires power { v ≤ 34 }
    ensures { IfOk result (λ d. IsUnitSide n v c d.items) }
{
    let mut d = zeros(alloc, n)?;
    d[c] = Iv::point(ten_to(v));
    Ok(d)
}

/// Column `c` of the inverse of a working table: its start vector and its certificate, from the defects of the pilot, or of a table in its
/// place. It is work and memory of its own.
pub fn column<const N: usize>(
    alloc: Global,
    rows: &WorkingRows<'_, N>,
    pilot: &Pilot,
    defects: &[u64],
    v: u32,
    c: usize,
) -> Result<EnclosedColumn, InvError>
    requires within { c < rows.now.table.now.size }
    requires sizes { pilot.now.size ≡ rows.now.table.now.size }
    requires power { v ≤ 34 }
    requires defects { (d : List Interval) → AreDefects rows.now.table.now.size (table_of rows.now.table.now d) pilot.now defects.now }
    ensures bounds { IfOk result (λ e. IsInBounds rows.now.table.now.size (column_of e)) }
    ensures column { IfOk result (λ e. IsEnclosedColumn rows.now.table.now.size rows.now.table.now pilot.now v c (column_of e)) }
    ensures refused { IfErr result (λ cause. (cause ≡ Memory)
        ⊎ IsColumn rows.now.table.now.size rows.now.table.now pilot.now v c (Err cause)) }
{
    let d = unit_side(alloc, rows.table.size(), v, c)?;
    let y = match start_vector(alloc, rows, &d, pilot) {
        Ok(y) => y,
        Err(refusal) => return Err(of_vector(c, refusal)),
    };
    let row_errors = errors(alloc, rows, &d, pilot, &y)?;
    let radius = certificate(alloc, &row_errors, defects)?;
    Ok(EnclosedColumn { vector: y, radius })
}
