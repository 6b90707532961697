//! One name by its three deviations, and two names whose correlation passes 1.

ghost use Rattle.std.specs.Prelude.{◌≡◌, codes, pos, negsuc, ◌≤ℤ◌, IfSome, length};
ghost use Rattle.param_ids.specs.Order.{is_same_id};
ghost use Rattle.snx_rows.specs.Blocks.{AreSound};
ghost use Rattle.snx_rows.specs.Named.{zero_decimal};
ghost use Rattle.snx_rows.specs.declared.rows.Shape.TheVariants.{Value};
ghost use Rattle.snx_matrices.specs.Elements.{AreElementsOf};
ghost use Rattle.correlations.specs.Parts.{IsShort};

use crate::{correlated, one_covariances};
use decimal_e::Dec;
use interval_word::Iv;
use named_tables::{RecoverError, RecoverFault, names_of};
use param_ids::{ParamId, Scales};
use snx_matrices::Cell;
use snx_rows::Row;
use std::alloc::Global;
use std::cmp::Ordering;
use std::test::Fail;

/// The first interval of the covariances of these rows, or the cause for which there are none.
fn first_of(alloc: Global, rows: &[Row], cells: &[Cell]) -> Option<Result<Iv, RecoverError>>
    requires rows { AreSound Value rows.now }
    requires cells { AreElementsOf (length rows.now) cells.now }
{
    let Ok(names) = names_of(alloc, rows) else {
        return None;
    };
    let Ok(scales) = Scales::standard(alloc) else {
        return None;
    };
    match correlated::<16>(alloc, rows, cells, &scales, &names) {
        Ok(table) => {
            if table.size() == 0 {
                return None;
            }
            Some(Ok(table.get(0, 0)))
        }
        Err(cause) => Some(Err(cause)),
    }
}

/// A number with a few digits, or nothing.
fn short(mant: i128, exp: i32) -> Option<Dec>
    requires low { negsuc 9 ≤ℤ exp }
    requires high { exp ≤ℤ pos 10 }
    ensures { IfSome result IsShort }
{
    match Dec::new(mant, exp) {
        Some(d) => {
            if d.mant() > 0 && d.mant() < 1000 {
                return Some(d);
            }
            None
        }
        None => None,
    }
}

/// A row with this standard deviation.
fn row_of(index: u32, id: ParamId, dev: Option<Dec>) -> Row
    ensures { result ≡ record { index = index; id = id; unit = codes "m   "; value = zero_decimal; dev = dev; line = 1 } }
{
    Row {
        index,
        id,
        unit: *b"m   ",
        value: Dec::zero(),
        dev,
        line: 1,
    }
}

/// The covariance of one name.
fn one_name_of(
    alloc: Global,
    id: ParamId,
    dev: Option<Dec>,
    value: Dec,
) -> Option<Result<Iv, RecoverError>>
    requires dev { IfSome dev IsShort }
    requires value { IsShort value }
{
    let rows = [row_of(1, id, dev)];
    let cells = [Cell {
        row: 0,
        col: 0,
        value,
    }];
    first_of(alloc, &rows, &cells)
}

/// Whether two names are one.
fn are_one(low: &ParamId, high: &ParamId) -> bool
    ensures { result ≡ is_same_id low.now high.now }
{
    low.cmp(high) == Ordering::Equal
}

/// The first covariance of two names with this correlation.
fn two_names_of(
    alloc: Global,
    low: ParamId,
    high: ParamId,
    one: Dec,
    value: Dec,
) -> Option<Result<Iv, RecoverError>>
    requires one { IsShort one }
    requires value { IsShort value }
{
    if are_one(&low, &high) {
        return None;
    }
    let rows = [row_of(1, low, Some(one)), row_of(2, high, Some(one))];
    let cells = [
        Cell {
            row: 0,
            col: 0,
            value: one,
        },
        Cell {
            row: 1,
            col: 0,
            value,
        },
        Cell {
            row: 1,
            col: 1,
            value: one,
        },
    ];
    first_of(alloc, &rows, &cells)
}

fn name(code: &[u8]) -> Result<ParamId, Fail> {
    match ParamId::named(b"STAX", code, b"A", b"1", b"24:001:00000") {
        Ok(id) => Ok(id),
        Err(_) => Err("a name")?,
    }
}

#[test]
fn names_with_deviations(rt: HostRuntime) -> Result<(), Fail> {
    one_covariances();
    let alloc = rt.alloc();
    let (low, high) = (name(b"AAAA")?, name(b"BBBB")?);
    let (Some(half), Some(one), Some(past)) = (short(5, -1), short(1, 0), short(12, -1)) else {
        return Err("numbers")?;
    };
    let worked = Some(Ok(Iv::point(250_000_000_000_000_000_000_000)));
    assert_eq!(rt; one_name_of(alloc, low, Some(half), one), worked);
    assert_eq!(rt; one_name_of(alloc, low, None, half), worked);
    let bare = RecoverError::Fault(RecoverFault::NoWeight { id: low });
    assert_eq!(rt; one_name_of(alloc, low, None, one), Some(Err(bare)));
    let unfit = RecoverError::Fault(RecoverFault::Range {
        row: high,
        col: low,
    });
    assert_eq!(rt; two_names_of(alloc, low, high, one, past), Some(Err(unfit)));
    Ok(())
}
