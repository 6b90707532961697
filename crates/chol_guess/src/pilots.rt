//! The pilot of a working table, and of a factor.

ghost use Rattle.std.specs.Prelude.{◌≡◌, ◌≤◌, ◌*◌, length, IfOk, IfErr};
ghost use Rattle.whole_numbers.specs.Squares.{square_at};
ghost use Rattle.chol_guess.specs.Midpoints.{midpoints};
ghost use Rattle.chol_guess.specs.Made.{IsPilotOf, IsRefusedOf};
ghost use Rattle.chol_guess.specs.Pilots.{IsPilot};
ghost use Rattle.chol_guess.specs.Refusals.{IsRefused};

use crate::PilotError;
use crate::midpoints::midpoint_square;
use crate::scales::greatest_scale;
use chol_factor::{Factor, factor};
use enclosures::Pilot;
use equil::Working;
use std::alloc::Global;
use std::thread::Threads;
use whole_numbers::Square;

/// The pilot of the table that has this factor: its columns at the greatest scale at which all of them stay in their
/// bounds. Condition comes exactly where there is no such scale, with the first column that fails at the least one.
pub fn pilot_of(alloc: Global, f: &Factor) -> Result<Pilot, PilotError>
    ensures value { IfOk result (IsPilotOf f.now.size (square_at f.now)) }
    ensures square { IfOk result (λ p. length p.entries ≡ p.size * p.size) }
    ensures refused { IfErr result (IsRefusedOf f.now.size (square_at f.now)) }
{
    let n = f.size();
    let t = f.transposed(alloc)?;
    let mut u = vec![in alloc; 0i128; n]?;
    let mut x = vec![in alloc; 0i64; n]?;
    let mut r = Square::zeros(alloc, n)?;
    match greatest_scale(f, &t, &mut u, &mut x, &mut r) {
        Ok(g) => Ok(Pilot::new(g, n, r.into_numbers())),
        Err(col) => Err(PilotError::Condition { col }),
    }
}

/// The pilot of a working table: its columns at the greatest scale at which all of them stay in their bounds. Pivot and
/// Condition come exactly where a table has none, with the first such row or column. The number of workers, from 1 to 16,
/// has no effect yet.
pub fn pilot<R: Threads + Sync, const N: usize>(
    _rt: &R,
    alloc: Global,
    w: &Working<N>,
    _workers: usize,
) -> Result<Pilot, PilotError>
    requires some_workers { 1 ≤ _workers }
    requires few_workers { _workers ≤ 16 }
    ensures value { IfOk result (IsPilot w.now.a.size (midpoints w.now.a)) }
    ensures square { IfOk result (λ p. length p.entries ≡ p.size * p.size) }
    ensures refused { IfErr result (IsRefused w.now.a.size (midpoints w.now.a)) }
{
    let midpoints = midpoint_square(alloc, w)?;
    let f = factor(midpoints)?;
    pilot_of(alloc, &f)
}
