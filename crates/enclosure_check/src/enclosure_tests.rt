//! Tests of the enclosure as a whole. `tools/solve.py` computes the same numbers apart from the program.

ghost use Rattle.std.specs.Prelude.{◌≡◌, ◌≤◌, ◌+◌};

use crate::{CheckError, EncloseError, Enclosed, Radius, VectorError, enclose};
use equil::{EquilError, working};
use interval_word::Iv;
use std::alloc::Global;
use std::test::Fail;
use std::thread::Threads;
use sym_blocks::SymBlock;

/// One, in the units of the table.
const ONE: i128 = 1_000_000_000_000_000_000;

fn refusal_of(refusal: EquilError) -> EncloseError {
    match refusal {
        EquilError::Range { row, .. } => EncloseError::Range { row },
        EquilError::Memory => EncloseError::Memory,
    }
}

// Two rows, with the element `beside` off the diagonal.
fn two_tied<R: Threads + Sync, const N: usize>(
    rt: &R,
    alloc: Global,
    diagonals: [Iv; 2],
    beside: Iv,
    rights: [Iv; 2],
) -> Result<Enclosed, EncloseError> {
    let mut table = match SymBlock::<N>::zero(alloc, 2) {
        Ok(zero) => zero,
        Err(_) => return Err(EncloseError::Memory),
    };
    table.set(0, 0, diagonals[0]);
    table.set(1, 0, beside);
    table.set(1, 1, diagonals[1]);
    match working(alloc, &table, &rights) {
        Ok(w) => enclose(rt, alloc, &w, 16),
        Err(refusal) => Err(refusal_of(refusal)),
    }
}

// Two unknowns that can hardly be told apart, each 1.
fn two_rows<R: Threads + Sync, const N: usize>(
    rt: &R,
    alloc: Global,
) -> Result<Enclosed, EncloseError> {
    let diagonal = Iv::point(1_000_000 * ONE);
    let right = Iv::point(1_999_999 * ONE);
    two_tied::<R, N>(
        rt,
        alloc,
        [diagonal, diagonal],
        Iv::point(999_999 * ONE),
        [right, right],
    )
}

// Differences between three stations along an axis.
fn put_axis<const N: usize>(table: &mut SymBlock<N>, first: usize)
    requires within { first + 3 ≤ table.old.size }
    requires few { first ≤ 6 }
    ensures { table.new.size ≡ table.old.size }
{
    table.set(first, first, Iv::point(2_000_000 * ONE));
    table.set(first + 1, first + 1, Iv::point(2_000_000 * ONE));
    table.set(first + 2, first + 2, Iv::point(2_000_000 * ONE));
    table.set(first + 1, first, Iv::point(-1_000_000 * ONE));
    table.set(first + 2, first, Iv::point(-1_000_000 * ONE));
    table.set(first + 2, first + 1, Iv::point(-1_000_000 * ONE));
}

// Three stations that are tied to each other alone: the table has no inverse.
fn free_network<R: Threads + Sync, const N: usize>(
    rt: &R,
    alloc: Global,
) -> Result<Enclosed, EncloseError> {
    let mut table = match SymBlock::<N>::zero(alloc, 9) {
        Ok(zero) => zero,
        Err(_) => return Err(EncloseError::Memory),
    };
    put_axis(&mut table, 0);
    put_axis(&mut table, 3);
    put_axis(&mut table, 6);
    match working(alloc, &table, &[Iv::point(0); 9]) {
        Ok(w) => enclose(rt, alloc, &w, 1),
        Err(refusal) => Err(refusal_of(refusal)),
    }
}

// Two unknowns that are tied to each other a billion times better than to anything else. The pilot is refused for its defect, and its
// transpose encloses.
fn loose_rows<R: Threads + Sync, const N: usize>(
    rt: &R,
    alloc: Global,
) -> Result<Enclosed, EncloseError> {
    let diagonals = [
        Iv::point(1_000_000_005 * ONE),
        Iv::point(1_000_000_001 * ONE),
    ];
    let rights = [Iv::point(-4 * ONE), Iv::point(-5 * ONE)];
    two_tied::<R, N>(
        rt,
        alloc,
        diagonals,
        Iv::point(-1_000_000_000 * ONE),
        rights,
    )
}

// Two unknowns that both tables refuse.
fn looser_rows<R: Threads + Sync, const N: usize>(
    rt: &R,
    alloc: Global,
) -> Result<Enclosed, EncloseError> {
    let diagonals = [
        Iv::point(640_000_000_001 * ONE),
        Iv::point(10_000_000_000 * ONE),
    ];
    let rights = [Iv::point(6 * ONE), Iv::point(-ONE)];
    two_tied::<R, N>(
        rt,
        alloc,
        diagonals,
        Iv::point(-80_000_000_000 * ONE),
        rights,
    )
}

fn each_answer<R: Threads + Sync, const N: usize>(
    rt: &R,
    alloc: Global,
) -> Result<bool, EncloseError> {
    let e = two_rows::<R, N>(rt, alloc)?;
    Ok(
        e.pilot.g() == 30
            && (e.radius.b, e.radius.m) == (1_340, 1)
            && e.radius.w.as_slice() == [2, 2].as_slice()
            && e.y.as_slice() == [999_999_999_999_999, 1_000_000_000_000_000].as_slice()
            && free_network::<R, N>(rt, alloc).err() == Some(EncloseError::Pivot { row: 2 }),
    )
}

fn second_tries<R: Threads + Sync, const N: usize>(
    rt: &R,
    alloc: Global,
) -> Result<bool, EncloseError> {
    let e = loose_rows::<R, N>(rt, alloc)?;
    let refused = EncloseError::Defect {
        row: 0,
        parts: 1 << 31,
    };
    Ok(
        e.pilot.g() == 10
            && (e.radius.b, e.radius.m) == (63_178, 1)
            && e.radius.w.as_slice() == [2, 2].as_slice()
            && e.y.as_slice() == [-149_999_999_941_666_667, -150_000_000_291_666_667].as_slice()
            && looser_rows::<R, N>(rt, alloc).err() == Some(refused),
    )
}

fn crosses_threads<T: Send + Sync>() {}

#[test]
fn enclosures_of_each_tile(rt: HostRuntime) -> Result<(), Fail> {
    assert_eq!(rt; each_answer::<HostRuntime, 1>(&rt, rt.alloc()), Ok(true));
    assert_eq!(rt; each_answer::<HostRuntime, 3>(&rt, rt.alloc()), Ok(true));
    assert_eq!(rt; each_answer::<HostRuntime, 16>(&rt, rt.alloc()), Ok(true));
    assert_eq!(rt; second_tries::<HostRuntime, 3>(&rt, rt.alloc()), Ok(true));
    crosses_threads::<Enclosed>();
    crosses_threads::<Radius>();
    crosses_threads::<VectorError>();
    crosses_threads::<CheckError>();
    crosses_threads::<EncloseError>();
    Ok(())
}
