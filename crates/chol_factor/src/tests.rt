//! Factors of tables of two rows, worked out by hand.

ghost use Rattle.std.specs.Prelude.{◌≡◌, ◌≤◌, ◌^◌, unsigned_abs, IfOk};
ghost use Rattle.whole_numbers.specs.Lists.{AllAtMost};

use crate::{Factor, FactorError, factor};
use std::alloc::{AllocError, Global};
use std::test::Fail;
use whole_numbers::Square;

// The table with these numbers at (0, 0), (1, 0) and (1, 1).
fn table(alloc: Global, first: i64, low: i64, last: i64) -> Result<Square, AllocError>
    requires first { unsigned_abs first ≤ 2 ^ 61 }
    requires low { unsigned_abs low ≤ 2 ^ 61 }
    requires last { unsigned_abs last ≤ 2 ^ 61 }
    ensures size { IfOk result (λ s. s.size ≡ 2) }
    ensures small { IfOk result (λ s. AllAtMost (2 ^ 61) s.numbers) }
{
    let mut square = Square::zeros(alloc, 2)?;
    square.set(0, 0, first);
    square.set(1, 0, low);
    square.set(1, 1, last);
    Ok(square)
}

// The numbers (0, 0), (1, 0) and (1, 1) of its factor.
fn numbers(
    alloc: Global,
    first: i64,
    low: i64,
    last: i64,
) -> Result<Result<(i64, i64, i64), FactorError>, AllocError> {
    let most = 1 << 61;
    let square = table(
        alloc,
        first.clamp(-most, most),
        low.clamp(-most, most),
        last.clamp(-most, most),
    )?;
    match factor(square) {
        Ok(f) => Ok(Ok((f.diagonal(0), f.row(1)[0], f.diagonal(1)))),
        Err(refusal) => Ok(Err(refusal)),
    }
}

fn crosses_threads<T: Send + Sync>() {}

#[test]
fn factors_of_two_rows(rt: HostRuntime) -> Result<(), Fail> {
    let alloc = rt.alloc();
    let unit = 1 << 60;
    for (first, low, last, wanted) in [
        (
            40_000_000_000_000_000,
            0,
            unit,
            Ok((200_000_000 << 30, 0, unit)),
        ),
        (25 << 52, -1, unit, Ok((5 << 56, -4, unit))),
        (
            unit,
            unit / 2,
            unit,
            Ok((unit, unit / 2, 998_459_311_558_907_193)),
        ),
        (0, 0, unit, Err(FactorError::Pivot { row: 0 })),
        (unit, 2 * unit, unit, Err(FactorError::Pivot { row: 1 })),
        (unit / 2, 2 * unit, unit, Err(FactorError::Pivot { row: 0 })),
    ] {
        assert_eq!(rt; numbers(alloc, first, low, last)?, wanted);
    }
    crosses_threads::<Factor>();
    crosses_threads::<FactorError>();
    Ok(())
}
