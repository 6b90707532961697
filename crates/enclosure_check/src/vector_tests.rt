//! Tests of the start vector and of the errors at it. The numbers are worked out by hand from the definitions.

use crate::{VectorError, WorkingRows, errors, start_vector};
use enclosures::Pilot;
use equil::working;
use interval_word::Iv;
use std::alloc::Global;
use std::test::Fail;
use sym_blocks::SymBlock;

// The working table has one row, with the interval 4 * 10^16 and the right side 2 * 10^29, and the pilot is near its
// reciprocal. At the solution, 5 * 10^12, nothing is left.
fn one_row<const N: usize>(alloc: Global) -> Result<bool, VectorError> {
    let mut table = SymBlock::<N>::zero(alloc, 1)?;
    table.set(0, 0, Iv::point(4_000_000_000_000_000_000));
    let rights = [Iv::point(2_000_000_000_000_000_000)];
    let entries = vec![in alloc; 31_691_265_005_706i64; 1]?;
    match (
        working(alloc, &table, &rights),
        Pilot::from_entries(40, 1, entries),
    ) {
        (Ok(w), Some(p)) => {
            let rows = WorkingRows::of(alloc, &w.a)?;
            let y = start_vector(alloc, &rows, &w.d, &p)?;
            let at_start = errors(alloc, &rows, &w.d, &p, &y)?;
            let at_zero = errors(alloc, &rows, &w.d, &p, &[0])?;
            Ok(
                y.as_slice() == [5_000_000_000_000].as_slice()
                    && at_start.as_slice() == [0].as_slice()
                    && at_zero.as_slice() == [5_000_000_000_001].as_slice(),
            )
        }
        _ => Ok(false),
    }
}

// The right side of the working table is 10^12 and 10^23, and the pilot makes a 1,024th part of it: more than 2^64 in
// the second row.
fn two_rows<const N: usize>(alloc: Global) -> Result<bool, VectorError> {
    let mut table = SymBlock::<N>::zero(alloc, 2)?;
    table.set(0, 0, Iv::point(1_000_000_000_000_000_000));
    table.set(1, 1, Iv::point(1_000_000_000_000_000_000));
    let rights = [Iv::point(1), Iv::point(100_000_000_000)];
    let mut entries = vec![in alloc; 0i64; 4]?;
    entries[0] = 1_125_899_906_842_624;
    entries[3] = 1_125_899_906_842_624;
    match (
        working(alloc, &table, &rights),
        Pilot::from_entries(0, 2, entries),
    ) {
        (Ok(w), Some(p)) => {
            let rows = WorkingRows::of(alloc, &w.a)?;
            Ok(start_vector(alloc, &rows, &w.d, &p).err() == Some(VectorError::Range { row: 1 }))
        }
        _ => Ok(false),
    }
}

#[test]
fn vectors_of_each_tile(rt: HostRuntime) -> Result<(), Fail> {
    let alloc = rt.alloc();
    assert_eq!(rt; one_row::<1>(alloc), Ok(true));
    assert_eq!(rt; one_row::<16>(alloc), Ok(true));
    assert_eq!(rt; two_rows::<3>(alloc), Ok(true));
    Ok(())
}
