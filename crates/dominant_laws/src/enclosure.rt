//! The enclosure of a dominant working table.

ghost use Rattle.std.specs.Prelude.{◌≡◌, ◌≤◌, IfOk, Ok};
ghost use Rattle.sys_model.specs.Systems.{Encloses};
ghost use Rattle.chol_guess.specs.Midpoints.{midpoints};
ghost use Rattle.whole_numbers.specs.Lists.{at};
ghost use Rattle.enclosures.specs.Radii.{radius_at};
ghost use Rattle.equil.specs.Tables.{table_of};
ghost use Rattle.enclosure_check.specs.Enclosures.{enclosure_of, IsEnclosureStep};
ghost use Rattle.enclosure_check.specs.declared.EncloseError.TheVariants.{Memory};
ghost use Rattle.dominant_laws.specs.Dominant.{IsDominant};

use enclosure_check::{EncloseError, enclose};
use enclosures::Enclosed;
use equil::Working;
use std::alloc::{AllocError, Global};
use std::thread::Threads;

/// The one refusal that is left.
fn want_of_memory(refusal: EncloseError) -> AllocError
    requires { refusal ≡ Memory }
{
    match refusal {
        EncloseError::Memory => AllocError,
        _ => unreachable!(),
    }
}

/// The enclosure of a dominant working table. Each system in the intervals of the working table has exactly one solution,
/// and it lies within the radii of the start vector. Nothing but memory can be wanting. `dominant` tests what is required
/// here.
pub fn enclose_dominant<R: Threads + Sync, const N: usize>(
    rt: &R,
    alloc: Global,
    w: &Working<N>,
    workers: usize,
) -> Result<Enclosed, AllocError>
    requires dominant { IsDominant w.now.a.size (table_of w.now.a w.now.d.items) }
    requires some_workers { 1 ≤ workers }
    requires few_workers { workers ≤ 16 }
    ensures enclosed { IfOk result (λ e. IsEnclosureStep w.now.a.size (table_of w.now.a w.now.d.items) (midpoints w.now.a) (Ok (enclosure_of e))) }
    ensures encloses { IfOk result (λ e. Encloses w.now.a.size (table_of w.now.a w.now.d.items) (at e.y.items) (radius_at e.radius)) }
    ensures size { IfOk result (λ e. e.pilot.size ≡ w.now.a.size) }
{
    match enclose(rt, alloc, w, workers) {
        Ok(enclosed) => Ok(enclosed),
        Err(refusal) => Err(want_of_memory(refusal)),
    }
}
