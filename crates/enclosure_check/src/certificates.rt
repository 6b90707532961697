//! The certificate.

ghost use Rattle.std.specs.Prelude.{◌≡◌, ◌≤◌, ◌<◌, ◌^◌, ℕ, length, slice_index, OnOk, IfOk, IfErr};
ghost use Rattle.std.specs.Vec.{vec_len};
ghost use Rattle.sys_model.specs.Systems.{Encloses, rho};
ghost use Rattle.whole_numbers.specs.Lists.{at, NonePast};
ghost use Rattle.enclosures.specs.Radii.{radius_at};
ghost use Rattle.equil.specs.Tables.{table_of};
ghost use Rattle.enclosure_check.specs.Answers.{IsCheckRefused};
ghost use Rattle.enclosure_check.specs.CertificateLists.{greatest_of, IsFirstGreatest, radius_from, HasRadii, IsErrorRefused, IsDefectRefused, IsRefusedOf, Certifies};
ghost use Rattle.enclosure_check.specs.Certificates.{IsCertified};
ghost use Rattle.enclosure_check.specs.Inputs.{IsRightSide};
ghost use Rattle.enclosures.specs.Vectors.{IsSmall};
ghost use Rattle.enclosure_check.specs.declared.CheckError.TheVariants.{Memory};

use crate::CheckError;
use crate::row_defects::defects;
use crate::row_errors::errors;
use crate::working_rows::WorkingRows;
use enclosures::{Pilot, Radius};
use interval_word::Iv;
use std::alloc::{AllocError, Global};
use std::thread::Threads;

/// The greatest error that passes.
const LIMIT: u128 = 1 << 66;

/// A whole, in parts of 2^30.
const WHOLE: u64 = 1 << 30;

impl From<AllocError> for CheckError {
    ghost from_gives = { λ _ e. e ≡ Memory };

    fn from(_e: AllocError) -> CheckError {
        CheckError::Memory
    }
}

/// Residual exactly where an error passes 2^66, with the first row of such an error.
fn small_errors(errors: &[u128]) -> Result<(), CheckError>
    ensures small { OnOk result (NonePast (2 ^ 66) errors.now) }
    ensures refused { IfErr result (IsErrorRefused errors.now) }
{
    for row in 0..errors.len() {
        if errors[row] > LIMIT {
            return Err(CheckError::Residual {
                row,
                size: errors[row],
            });
        }
    }
    Ok(())
}

/// The greatest error, and 0 where there is none.
fn greatest(errors: &[u128]) -> u128
    ensures { result ≡ greatest_of errors.now }
{
    let mut most = 0;
    for row in 0..errors.len() {
        most = most.max(errors[row]);
    }
    most
}

/// The greatest defect, and the first row that has it where it is above 0.
fn first_greatest(defects: &[u64]) -> (usize, u64)
    ensures greatest { result.1 ≡ greatest_of defects.now }
    ensures row { 0 < result.1 → IsFirstGreatest defects.now result.0 result.1 }
{
    let mut first = 0;
    let mut most = 0;
    for row in 0..defects.len() {
        if defects[row] > most {
            first = row;
            most = defects[row];
        }
    }
    (first, most)
}

/// How far a solution may be from the vector in any row.
fn distance(b: u64, m: u128) -> u128
    requires below { b < 2 ^ 30 }
    requires small { m ≤ 2 ^ 66 }
    ensures value { result ≡ rho b m }
    ensures bound { result ≤ 2 ^ 96 }
{
    (m << 30).div_ceil((1 << 30) - u128::from(b))
}

/// The radius of each row, from its error and its defect.
fn radii(
    alloc: Global,
    errors: &[u128],
    defects: &[u64],
    b: u64,
    m: u128,
) -> Result<Vec<u128>, AllocError>
    requires same { length errors.now ≡ length defects.now }
    requires below { b < 2 ^ 30 }
    requires small { m ≤ 2 ^ 66 }
    requires most_defects { NonePast b defects.now }
    requires most_errors { NonePast m errors.now }
    ensures len { IfOk result (λ w. vec_len w ≡ length errors.now) }
    ensures rows { IfOk result (λ w. (i : ℕ) → i < length errors.now → slice_index w.items i ≡ radius_from errors.now defects.now b m i) }
    ensures bounded { IfOk result (λ w. NonePast (2 ^ 97) w.items) }
{
    let rho = distance(b, m);
    let mut w = Vec::new(alloc);
    for i in 0..errors.len() {
        w.push(errors[i] + (u128::from(defects[i]) * rho).div_ceil(1 << 30))?;
    }
    Ok(w)
}

/// The numbers of the certificate of these errors and defects, exactly where the greatest defect is below a whole.
fn certificate_of(alloc: Global, errors: &[u128], defects: &[u64]) -> Result<Radius, CheckError>
    requires same { length errors.now ≡ length defects.now }
    requires small { NonePast (2 ^ 66) errors.now }
    ensures radii { IfOk result (HasRadii errors.now defects.now) }
    ensures refused { IfErr result (IsDefectRefused defects.now) }
{
    let (row, b) = first_greatest(defects);
    if b >= WHOLE {
        return Err(CheckError::Defect { row, parts: b });
    }
    let m = greatest(errors);
    let w = radii(alloc, errors, defects, b, m)?;
    Ok(Radius { b, m, w })
}

/// The numbers of the certificate of these errors and defects, exactly where it passes. Where they are the errors and the
/// defects of a table, a right side, a pilot and a vector, each system in the intervals of the table has exactly one solution,
/// and it lies within these radii of the vector.
///
/// Residual comes exactly where an error passes 2^66, with the first such row. Otherwise Defect comes exactly where the
/// greatest defect is 2^30 or more, with the first row that has it.
pub fn certificate(alloc: Global, errors: &[u128], defects: &[u64]) -> Result<Radius, CheckError>
    requires { length errors.now ≡ length defects.now }
    ensures small { OnOk result (NonePast (2 ^ 66) errors.now) }
    ensures radii { IfOk result (HasRadii errors.now defects.now) }
    ensures certified { IfOk result (Certifies errors.now defects.now) }
    ensures refused { IfErr result (IsRefusedOf errors.now defects.now) }
{
    small_errors(errors)?;
    certificate_of(alloc, errors, defects)
}

/// The numbers of the certificate of a right side at the vector `y`, exactly where it passes. Then each system in the intervals of
/// the table and of the right side has exactly one solution, and it lies within these radii of `y`.
///
/// Residual comes exactly where the error of a row passes 2^66, with the first such row. Otherwise Defect comes exactly
/// where the greatest defect is 2^30 or more, with the first row that has it. The number of workers, from 1 to 16, has no
/// effect yet.
pub fn check<R: Threads + Sync, const N: usize>(
    _rt: &R,
    alloc: Global,
    rows: &WorkingRows<'_, N>,
    d: &[Iv],
    p: &Pilot,
    y: &[i128],
    workers: usize,
) -> Result<Radius, CheckError>
    requires rights { IsRightSide rows.now.table.now.size d.now }
    requires sizes { p.now.size ≡ rows.now.table.now.size }
    requires len { length y.now ≡ rows.now.table.now.size }
    requires small { IsSmall rows.now.table.now.size (at y.now) }
    requires some_workers { 1 ≤ workers }
    requires few_workers { workers ≤ 16 }
    ensures certified { IfOk result (IsCertified rows.now.table.now.size (table_of rows.now.table.now d.now) p.now (at y.now)) }
    ensures encloses { IfOk result (λ v. Encloses rows.now.table.now.size (table_of rows.now.table.now d.now) (at y.now) (radius_at v)) }
    ensures refused { IfErr result (IsCheckRefused rows.now.table.now.size (table_of rows.now.table.now d.now) p.now (at y.now)) }
{
    let row_errors = errors(alloc, rows, d, p, y)?;
    small_errors(&row_errors)?;
    let row_defects = defects(alloc, rows, p)?;
    certificate(alloc, &row_errors, &row_defects)
}
