//! Tests of the defects and of the certificate, by tables of one row that are worked out by hand.

use crate::{CheckError, WorkingRows, check, row_defect};
use enclosures::Pilot;
use equil::Working;
use interval_word::Iv;
use std::alloc::{AllocError, Global};
use std::test::Fail;
use std::thread::Threads;
use sym_blocks::SymBlock;

/// The greatest size of an interval of a right side.
const LIMIT: u128 = 10_000_000_000_000_000_000_000_000_000_000_000_000;

/// The numbers of a certificate, or its refusal.
type Answer = Result<(u64, u128, Option<u128>), CheckError>;

/// The defect and the certificate of the pilot `r` at the vector 0. The table has the interval `a`, and the right side `d`.
fn one_row<R: Threads + Sync, const N: usize>(
    rt: &R,
    alloc: Global,
    r: i64,
    a: u64,
    d: u128,
) -> Result<(u64, Answer), AllocError> {
    let mut table = SymBlock::<N>::zero(alloc, 1)?;
    table.set(0, 0, Iv::point(i128::from(a.min(1 << 61))));
    let w = Working {
        a: table,
        d: vec![in alloc; Iv::point(d.min(LIMIT).cast_signed()); 1]?,
        e: vec![in alloc; 0; 1]?,
    };
    let p = match Pilot::from_entries(0, 1, vec![in alloc; r; 1]?) {
        Some(p) => p,
        None => return Err(AllocError),
    };
    let rows = WorkingRows::of(alloc, &w.a)?;
    let answer = match check(rt, alloc, &rows, &w.d, &p, &[0], 1) {
        Ok(v) => Ok((v.b, v.m, v.w.first().copied())),
        Err(refusal) => Err(refusal),
    };
    Ok((row_defect(&w, &p, 0), answer))
}

fn each_answer<R: Threads + Sync, const N: usize>(
    rt: &R,
    alloc: Global,
) -> Result<bool, AllocError> {
    let (a, d) = (1 << 56, 1 << 122);
    Ok(
        one_row::<R, N>(rt, alloc, 1 << 30, 1, 0)?
            == (1_073_741_823, Ok((1_073_741_823, 0, Some(0))))
            && one_row::<R, N>(rt, alloc, 1 << 30, 1, 1)?
                == (1_073_741_823, Ok((1_073_741_823, 1, Some(1 << 30))))
            && one_row::<R, N>(rt, alloc, (1 << 30) - 1, 1, 0)?
                == (
                    1 << 30,
                    Err(CheckError::Defect {
                        row: 0,
                        parts: 1 << 30,
                    }),
                )
            && one_row::<R, N>(rt, alloc, 16, a, d)? == (0, Ok((0, 1 << 66, Some(1 << 66))))
            && one_row::<R, N>(rt, alloc, 16, a, d + 1)?
                == (
                    0,
                    Err(CheckError::Residual {
                        row: 0,
                        size: (1 << 66) + 2,
                    }),
                ),
    )
}

#[test]
fn tables_of_each_tile(rt: HostRuntime) -> Result<(), Fail> {
    assert!(rt; each_answer::<HostRuntime, 1>(&rt, rt.alloc())?);
    assert!(rt; each_answer::<HostRuntime, 3>(&rt, rt.alloc())?);
    assert!(rt; each_answer::<HostRuntime, 16>(&rt, rt.alloc())?);
    Ok(())
}
