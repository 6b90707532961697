//! Pilot, start vector and certificate, one after the other; where the pilot is refused, the same with the pilot transposed.

ghost use Rattle.std.specs.Prelude.{◌≡◌, ◌≤◌, ◌⊎◌, ◌↔◌, IsTrue, IfOk, IfErr, Ok, Err};
ghost use Rattle.std.specs.Vec.{vec_len};
ghost use Rattle.sys_model.specs.Systems.{Encloses};
ghost use Rattle.chol_guess.specs.Midpoints.{midpoints};
ghost use Rattle.whole_numbers.specs.Lists.{at};
ghost use Rattle.enclosures.specs.Radii.{radius_at};
ghost use Rattle.equil.specs.Tables.{table_of};
ghost use Rattle.enclosures.specs.Vectors.{IsSmall};
ghost use Rattle.enclosure_check.specs.Enclosures.{enclosure_of, IsEnclosureBy, IsEnclosureByEither, IsEnclosureStep};
ghost use Rattle.enclosure_check.specs.EnclosureErrors.{of_pilot, of_vector, of_check};
ghost use Rattle.enclosure_check.specs.Inputs.{IsRightSide};
ghost use Rattle.enclosure_check.specs.Steps.{certificate_of};
ghost use Rattle.enclosure_check.specs.declared.EncloseError.TheVariants.{Memory};

use crate::transposes::transposed;
use crate::{CheckError, EncloseError, VectorError, WorkingRows, check, start_vector};
use chol_guess::{PilotError, pilot};
use enclosures::{Enclosed, Pilot, Radius};
use equil::Working;
use interval_word::Iv;
use std::alloc::{AllocError, Global};
use std::thread::Threads;

impl From<AllocError> for EncloseError {
    ghost from_gives = { λ _ e. e ≡ Memory };

    fn from(_e: AllocError) -> EncloseError {
        EncloseError::Memory
    }
}

impl From<PilotError> for EncloseError {
    ghost from_gives = { λ e refusal. refusal ≡ of_pilot e };

    fn from(e: PilotError) -> EncloseError {
        match e {
            PilotError::Pivot { row } => EncloseError::Pivot { row },
            PilotError::Condition { col } => EncloseError::Condition { col },
            PilotError::Memory => EncloseError::Memory,
        }
    }
}

impl From<VectorError> for EncloseError {
    ghost from_gives = { λ e refusal. refusal ≡ of_vector e };

    fn from(e: VectorError) -> EncloseError {
        match e {
            VectorError::Range { row } => EncloseError::Range { row },
            VectorError::Memory => EncloseError::Memory,
        }
    }
}

impl From<CheckError> for EncloseError {
    ghost from_gives = { λ e refusal. refusal ≡ of_check e };

    fn from(e: CheckError) -> EncloseError {
        match e {
            CheckError::Residual { row, size } => EncloseError::Residual { row, size },
            CheckError::Defect { row, parts } => EncloseError::Defect { row, parts },
            CheckError::Memory => EncloseError::Memory,
        }
    }
}

/// Whether memory is wanting.
fn wants_memory(refusal: EncloseError) -> bool
    ensures { IsTrue result ↔ (refusal ≡ Memory) }
{
    match refusal {
        EncloseError::Memory => true,
        _ => false,
    }
}

/// The start vector of a table in the place of the pilot and the certificate at it, or the first refusal of these two.
fn enclosed_by<R: Threads + Sync, const N: usize>(
    rt: &R,
    alloc: Global,
    rows: &WorkingRows<'_, N>,
    d: &[Iv],
    p: &Pilot,
    workers: usize,
) -> Result<(Vec<i128>, Radius), EncloseError>
    requires rights { IsRightSide rows.now.table.now.size d.now }
    requires sizes { p.now.size ≡ rows.now.table.now.size }
    requires some_workers { 1 ≤ workers }
    requires few_workers { workers ≤ 16 }
    ensures numbers { IfOk result (λ e. vec_len e.0 ≡ rows.now.table.now.size) }
    ensures small { IfOk result (λ e. IsSmall rows.now.table.now.size (at e.0.items)) }
    ensures radii { IfOk result (λ e. vec_len e.1.w ≡ rows.now.table.now.size) }
    ensures encloses { IfOk result (λ e. Encloses rows.now.table.now.size (table_of rows.now.table.now d.now) (at e.0.items) (radius_at e.1)) }
    ensures enclosed { IfOk result (λ e. IsEnclosureBy rows.now.table.now.size (table_of rows.now.table.now d.now) p.now (Ok (record { pilot = p.now; vector = e.0.items; certificate = certificate_of e.1 }))) }
    ensures refused { IfErr result (λ cause. (cause ≡ Memory) ⊎ IsEnclosureBy rows.now.table.now.size (table_of rows.now.table.now d.now) p.now (Err cause)) }
{
    let y = start_vector(alloc, rows, d, p)?;
    let radius = check(rt, alloc, rows, d, p, &y, workers)?;
    Ok((y, radius))
}

/// The enclosure by the pilot transposed, where the pilot itself was refused; where the transpose is refused too, that refusal.
fn enclosed_by_transposed<R: Threads + Sync, const N: usize>(
    rt: &R,
    alloc: Global,
    rows: &WorkingRows<'_, N>,
    d: &[Iv],
    p: &Pilot,
    refusal: EncloseError,
    workers: usize,
) -> Result<Enclosed, EncloseError>
    requires rights { IsRightSide rows.now.table.now.size d.now }
    requires sizes { p.now.size ≡ rows.now.table.now.size }
    requires refused { IsEnclosureBy rows.now.table.now.size (table_of rows.now.table.now d.now) p.now (Err refusal) }
    requires some_workers { 1 ≤ workers }
    requires few_workers { workers ≤ 16 }
    ensures encloses { IfOk result (λ e. Encloses rows.now.table.now.size (table_of rows.now.table.now d.now) (at e.y.items) (radius_at e.radius)) }
    ensures size { IfOk result (λ e. e.pilot.size ≡ rows.now.table.now.size) }
    ensures enclosed { IfOk result (λ e. IsEnclosureByEither rows.now.table.now.size (table_of rows.now.table.now d.now) p.now (Ok (enclosure_of e))) }
    ensures refused { IfErr result (λ cause. (cause ≡ Memory) ⊎ IsEnclosureByEither rows.now.table.now.size (table_of rows.now.table.now d.now) p.now (Err cause)) }
{
    let turned = transposed(alloc, p)?;
    match enclosed_by(rt, alloc, rows, d, &turned, workers) {
        Ok((y, radius)) => Ok(Enclosed {
            pilot: turned,
            y,
            radius,
        }),
        Err(EncloseError::Memory) => Err(EncloseError::Memory),
        Err(_) => Err(refusal),
    }
}

/// The enclosure of a working table: its pilot, a start vector and their certificate, or, where the start vector or the certificate
/// is refused, those of the pilot transposed; where both are refused, the refusal is that of the pilot. Each system in the intervals of
/// the working table has exactly one solution, and it lies within the radii of the start vector.
pub fn enclose<R: Threads + Sync, const N: usize>(
    rt: &R,
    alloc: Global,
    w: &Working<N>,
    workers: usize,
) -> Result<Enclosed, EncloseError>
    requires some_workers { 1 ≤ workers }
    requires few_workers { workers ≤ 16 }
    ensures enclosed { IfOk result (λ e. IsEnclosureStep w.now.a.size (table_of w.now.a w.now.d.items) (midpoints w.now.a) (Ok (enclosure_of e))) }
    ensures encloses { IfOk result (λ e. Encloses w.now.a.size (table_of w.now.a w.now.d.items) (at e.y.items) (radius_at e.radius)) }
    ensures size { IfOk result (λ e. e.pilot.size ≡ w.now.a.size) }
    ensures refused { IfErr result (λ cause. (cause ≡ Memory) ⊎ IsEnclosureStep w.now.a.size (table_of w.now.a w.now.d.items) (midpoints w.now.a) (Err cause)) }
{
    let pilot = pilot(rt, alloc, w, workers)?;
    let rows = WorkingRows::of(alloc, &w.a)?;
    match enclosed_by(rt, alloc, &rows, &w.d, &pilot, workers) {
        Ok((y, radius)) => Ok(Enclosed { pilot, y, radius }),
        Err(refusal) => {
            if wants_memory(refusal) {
                Err(refusal)
            } else {
                enclosed_by_transposed(rt, alloc, &rows, &w.d, &pilot, refusal, workers)
            }
        }
    }
}
