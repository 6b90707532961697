//! Inverses of tables of one row and of two, in units of 10^-24.

use crate::{InvError, inverse, one_inverse};
use interval_word::Iv;
use std::alloc::Global;
use std::test::Fail;
use std::thread::Threads;
use sym_blocks::SymBlock;

/// One, in the table.
const ONE: i128 = 1_000_000_000_000_000_000_000_000;

/// One, in the inverse.
const UNIT: i128 = 1_000_000_000_000_000_000;

/// What all elements of a loose table have in common.
const LOOSE: i128 = 1_000_000_000 * ONE;

/// The same of a looser one.
const LOOSER: i128 = 100_000_000_000_000 * ONE;

fn of_one<R: Threads + Sync, const N: usize>(
    rt: &R,
    alloc: Global,
    corner: Iv,
) -> Result<Iv, InvError> {
    let mut table = SymBlock::<N>::zero(alloc, 1)?;
    table.set(0, 0, corner);
    let inverse = inverse(rt, alloc, &table, 24, 1)?;
    Ok(inverse.get(0, 0))
}

fn of_two<R: Threads + Sync, const N: usize>(
    rt: &R,
    alloc: Global,
    corner: i128,
    low: i128,
    last: i128,
) -> Result<(Iv, Iv, Iv), InvError> {
    let mut table = SymBlock::<N>::zero(alloc, 2)?;
    table.set(0, 0, Iv::point(corner));
    table.set(1, 0, Iv::point(low));
    table.set(1, 1, Iv::point(last));
    let inverse = inverse(rt, alloc, &table, 24, 1)?;
    Ok((inverse.get(0, 0), inverse.get(0, 1), inverse.get(1, 1)))
}

fn is_near(interval: &Iv, value: i128) -> bool {
    interval.holds(value) && interval.hi().saturating_sub(interval.lo()) < 1_000_000
}

// One of the numbers from 0 to 2 has no inverse: the defect is a whole.
fn refusal_of_wide<R: Threads + Sync, const N: usize>(rt: &R, alloc: Global) -> Option<InvError> {
    let wide = Iv::new(0, 2 * ONE)?;
    of_one::<R, N>(rt, alloc, wide).err()
}

// The inverse of (2, 1; 1, 1) is (1, -1; -1, 2), and that of .25 is 4. One over the least number passes 10^34.
fn each_answer<R: Threads + Sync, const N: usize>(rt: &R, alloc: Global) -> bool {
    let two = match of_two::<R, N>(rt, alloc, 2 * ONE, ONE, ONE) {
        Ok((corner, low, last)) => is_near(&corner, UNIT)
            && is_near(&low, -UNIT)
            && is_near(&last, 2 * UNIT),
        Err(_) => false,
    };
    two && of_one::<R, N>(rt, alloc, Iv::point(ONE / 4)) == Ok(Iv::point(4 * UNIT))
        && of_one::<R, N>(rt, alloc, Iv::point(1)) == Err(InvError::Range { row: 0, col: 0 })
        && refusal_of_wide::<R, N>(rt, alloc)
            == Some(InvError::Defect {
                row: 0,
                parts: 1 << 30,
            })
        && of_two::<R, N>(rt, alloc, ONE, ONE, ONE).err() == Some(InvError::Pivot { row: 1 })
        && of_two::<R, N>(rt, alloc, ONE, 100 * ONE, ONE).err()
            == Some(InvError::Range { row: 1, col: 0 })
}

// The inverse of (d + 1, d; d, d + 2) is (d + 2, -d; -d, d + 1) over 3 d + 2. Of the first table the pilot is refused and its transpose
// is not, of the second both are: the transpose at row 1.
fn second_tries<R: Threads + Sync, const N: usize>(rt: &R, alloc: Global) -> bool {
    let given = match of_two::<R, N>(rt, alloc, LOOSE + ONE, LOOSE, LOOSE + 2 * ONE) {
        Ok((corner, low, last)) => is_near(&corner, 333_333_333_777_777_777)
            && is_near(&low, -333_333_333_111_111_111)
            && is_near(&last, 333_333_333_444_444_444),
        Err(_) => false,
    };
    given
        && of_two::<R, N>(rt, alloc, LOOSER + ONE, LOOSER, LOOSER + 2 * ONE).err()
            == Some(InvError::Defect {
                row: 0,
                parts: 1 << 31,
            })
}

fn crosses_threads<T: Send + Sync>() {}

#[test]
fn tables_of_each_tile(rt: HostRuntime) -> Result<(), Fail> {
    crosses_threads::<InvError>();
    one_inverse();
    assert!(rt; each_answer::<HostRuntime, 1>(&rt, rt.alloc()));
    assert!(rt; each_answer::<HostRuntime, 3>(&rt, rt.alloc()));
    assert!(rt; each_answer::<HostRuntime, 16>(&rt, rt.alloc()));
    assert!(rt; second_tries::<HostRuntime, 1>(&rt, rt.alloc()));
    assert!(rt; second_tries::<HostRuntime, 3>(&rt, rt.alloc()));
    assert!(rt; second_tries::<HostRuntime, 16>(&rt, rt.alloc()));
    Ok(())
}
