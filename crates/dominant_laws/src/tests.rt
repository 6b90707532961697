//! Two rows at the limits of dominance. `tools/solve.py` computes the numbers of
//! the enclosure apart from the program.

ghost use Rattle.std.specs.Prelude.{◌≤◌, ◌^◌, unsigned_abs};

use crate::{dominant, enclose_dominant};
use enclosures::Enclosed;
use equil::{EquilError, working};
use interval_word::Iv;
use std::alloc::Global;
use std::test::Fail;
use std::thread::Threads;
use sym_blocks::SymBlock;

/// A quarter of the diagonals.
const QUARTER: i128 = 10_000_000_000_000_000;

// The enclosure of two rows with the element `beside` off the diagonal, where they are dominant. The exponents are 0.
fn enclosed<R: Threads + Sync, const N: usize>(
    rt: &R,
    alloc: Global,
    beside: Iv,
    right: Iv,
) -> Result<Option<Enclosed>, EquilError> {
    let mut table = match SymBlock::<N>::zero(alloc, 2) {
        Ok(zero) => zero,
        Err(_) => return Err(EquilError::Memory),
    };
    table.set(0, 0, Iv::point(4 * QUARTER));
    table.set(1, 0, beside);
    table.set(1, 1, Iv::point(4 * QUARTER));
    let w = working(alloc, &table, &[right, right])?;
    if !dominant(&w) {
        return Ok(None);
    }
    match enclose_dominant(rt, alloc, &w, 16) {
        Ok(enclosed) => Ok(Some(enclosed)),
        Err(_) => Err(EquilError::Memory),
    }
}

fn is_not_dominant<R: Threads + Sync, const N: usize>(
    rt: &R,
    alloc: Global,
    beside: Iv,
    right: Iv,
) -> Result<bool, EquilError> {
    Ok(enclosed::<R, N>(rt, alloc, beside, right)?.is_none())
}

// From `low`, this much wide.
fn wide(low: i128, width: i128) -> Iv
    requires low { unsigned_abs low ≤ 2 ^ 100 }
    requires width { unsigned_abs width ≤ 2 }
{
    Iv::new(low, low + width).unwrap_or(Iv::point(low))
}

fn each_answer<R: Threads + Sync, const N: usize>(
    rt: &R,
    alloc: Global,
) -> Result<bool, EquilError> {
    let right = Iv::point(5 * QUARTER);
    let e = match enclosed::<R, N>(rt, alloc, wide(QUARTER, 1), right)? {
        Some(e) => e,
        None => return Ok(false),
    };
    Ok(
        e.pilot.g() == 40
            && (e.radius.b, e.radius.m) == (1, 2)
            && e.radius.w.as_slice() == [3, 3].as_slice()
            && e.y.as_slice() == [999_999_999_999, 999_999_999_999].as_slice()
            && is_not_dominant::<R, N>(rt, alloc, Iv::point(-QUARTER - 1), right)?
            && is_not_dominant::<R, N>(rt, alloc, wide(QUARTER, 2), right)?
            && is_not_dominant::<R, N>(rt, alloc, Iv::point(QUARTER), wide(5 * QUARTER, 1))?
            && is_not_dominant::<R, N>(rt, alloc, Iv::point(QUARTER), Iv::point(127 * QUARTER))?,
    )
}

#[test]
fn two_rows_at_the_limits(rt: HostRuntime) -> Result<(), Fail> {
    assert_eq!(rt; each_answer::<HostRuntime, 3>(&rt, rt.alloc()), Ok(true));
    assert_eq!(rt; each_answer::<HostRuntime, 16>(&rt, rt.alloc()), Ok(true));
    Ok(())
}
