//! Pilots of small tables, at the edges of each bound.

ghost use Rattle.std.specs.Prelude.{◌≡◌, ◌≤◌, ◌<◌, ◌^◌, ℕ, unsigned_abs, IfOk};
ghost use Rattle.whole_numbers.specs.Intervals.{size};
ghost use Rattle.sym_blocks.specs.Tables.{entry_at};

use crate::{PilotError, pilot};
use equil::Working;
use interval_word::Iv;
use std::alloc::{AllocError, Global};
use std::process::Abort;
use std::test::Fail;
use std::thread::Threads;
use sym_blocks::SymBlock;

// A number cut to the sizes of a working table.
fn cut(v: i128) -> i128
    ensures { unsigned_abs result ≤ 2 ^ 61 }
{
    v.clamp(-(1 << 61), 1 << 61)
}

fn put<const N: usize>(a: &mut SymBlock<N>, i: usize, j: usize, v: i128)
    requires row { i < a.old.size }
    requires column { j < a.old.size }
    requires small { (k l : ℕ) → k < a.old.size → l < a.old.size → size (entry_at a.old k l) ≤ 2 ^ 61 }
    ensures size { a.new.size ≡ a.old.size }
    ensures small { (k l : ℕ) → k < a.new.size → l < a.new.size → size (entry_at a.new k l) ≤ 2 ^ 61 }
{
    a.set(i, j, Iv::point(cut(v)));
}

// The table of one or two rows with this diagonal and this number below it.
fn table<const N: usize>(
    alloc: Global,
    first: i128,
    below: i128,
    second: Option<i128>,
) -> Result<SymBlock<N>, AllocError>
    ensures few { IfOk result (λ a. a.size ≤ 2) }
    ensures small { IfOk result (λ a. (k l : ℕ) → k < a.size → l < a.size → size (entry_at a k l) ≤ 2 ^ 61) }
{
    match second {
        None => {
            let mut a = SymBlock::zero(alloc, 1)?;
            put(&mut a, 0, 0, first);
            Ok(a)
        }
        Some(second) => {
            let mut a = SymBlock::zero(alloc, 2)?;
            put(&mut a, 0, 0, first);
            put(&mut a, 1, 0, below);
            put(&mut a, 1, 1, second);
            Ok(a)
        }
    }
}

// The working table with those intervals, a right side of zeros and exponents of 0.
fn working<const N: usize>(alloc: Global, a: SymBlock<N>) -> Result<Working<N>, AllocError>
    requires few { a.size ≤ 2 }
    requires small { (k l : ℕ) → k < a.size → l < a.size → size (entry_at a k l) ≤ 2 ^ 61 }
{
    let n = a.size();
    let d = vec![in alloc; Iv::point(0); n]?;
    let e = vec![in alloc; 0i32; n]?;
    Ok(Working { a, d, e })
}

// The scale and the first number of the pilot.
fn answer<const N: usize, R: Threads + Sync>(
    rt: &R,
    alloc: Global,
    first: i128,
    below: i128,
    second: Option<i128>,
) -> Result<(u32, Option<i64>), PilotError> {
    let w = working::<N>(alloc, table(alloc, first, below, second)?)?;
    let p = pilot(rt, alloc, &w, 16)?;
    let entry = if p.size() > 0 {
        Some(p.entry(0, 0))
    } else {
        None
    };
    Ok((p.g(), entry))
}

// The last number is a third of 2^42, and the one before it 2^110 over 1024 * 4 * 10^16.
fn answers<const N: usize, R: Threads + Sync + Abort + AllocGlobal>(rt: &R) {
    let one = 1 << 60;
    for (first, below, second, wanted) in [
        (0, 0, None, Err(PilotError::Pivot { row: 0 })),
        (1, 0, None, Err(PilotError::Condition { col: 0 })),
        (1023, 0, None, Err(PilotError::Condition { col: 0 })),
        (one, 0, Some(1), Err(PilotError::Condition { col: 1 })),
        (one, 2 * one, Some(one), Err(PilotError::Pivot { row: 1 })),
        (
            one / 2,
            2 * one,
            Some(one),
            Err(PilotError::Pivot { row: 0 }),
        ),
        (1024, 0, None, Ok((0, Some(1 << 50)))),
        (one, 0, None, Ok((50, Some(1 << 50)))),
        (
            40_000_000_000_000_000,
            0,
            None,
            Ok((40, Some(31_691_265_005_706))),
        ),
        (one, one / 2, Some(one), Ok((40, Some(1_466_015_503_701)))),
    ] {
        assert_eq!(rt;
            answer::<N, R>(rt, rt.alloc(), first, below, second),
            wanted
        );
    }
}

fn crosses_threads<T: Send + Sync>() {}

#[test]
fn pilots_of_each_tile(rt: HostRuntime) -> Result<(), Fail> {
    answers::<1, HostRuntime>(&rt);
    answers::<3, HostRuntime>(&rt);
    answers::<16, HostRuntime>(&rt);
    crosses_threads::<PilotError>();
    Ok(())
}
