//! One name, whose covariance, correlation and information say the same.

ghost use Rattle.std.specs.Prelude.{pos, negsuc, ◌≤ℤ◌, ◌<ℤ◌, IfSome, length};
ghost use Rattle.snx_rows.specs.Blocks.{AreSound};
ghost use Rattle.snx_rows.specs.declared.rows.Shape.TheVariants.{Value};
ghost use Rattle.snx_matrices.specs.Elements.{AreElementsOf};
ghost use Rattle.information_tables.specs.Parts.{IsShort};

use crate::{information_of, multiples, one_information};
use decimal_e::Dec;
use interval_word::Iv;
use named_tables::names_of;
use param_ids::{ParamId, Scales};
use snx_matrices::{Cell, Content};
use snx_rows::Row;
use std::alloc::Global;
use std::test::Fail;
use std::thread::Threads;

/// The first interval of the information of these rows.
fn first_of<R: Threads + Sync>(
    rt: &R,
    alloc: Global,
    rows: &[Row],
    content: Content,
    cells: &[Cell],
    weight: &Dec,
) -> Option<Iv>
    requires rows { AreSound Value rows.now }
    requires cells { AreElementsOf (length rows.now) cells.now }
    requires weight { IsShort weight.now }
{
    let Ok(names) = names_of(alloc, rows) else {
        return None;
    };
    let Ok(scales) = Scales::standard(alloc) else {
        return None;
    };
    match information_of::<R, 16>(rt, alloc, rows, content, cells, weight, &scales, &names, 1) {
        Ok(table) => {
            if table.size() == 0 {
                return None;
            }
            Some(table.get(0, 0))
        }
        Err(_) => None,
    }
}

/// The interval of the information of one row with this standard deviation and this element.
fn interval_of<R: Threads + Sync>(
    rt: &R,
    alloc: Global,
    dev: Dec,
    content: Content,
    value: Dec,
    weight: &Dec,
) -> Option<Iv>
    requires dev { IsShort dev }
    requires value { IsShort value }
    requires weight { IsShort weight.now }
{
    let Ok(id) = ParamId::named(b"STAX", b"AAAA", b"A", b"1", b"24:001:00000") else {
        return None;
    };
    let rows = [Row {
        index: 1,
        id,
        unit: *b"m   ",
        value: Dec::zero(),
        dev: Some(dev),
        line: 1,
    }];
    let cells = [Cell {
        row: 0,
        col: 0,
        value,
    }];
    first_of(rt, alloc, &rows, content, &cells, weight)
}

/// A number with a few digits, or nothing.
fn short(mant: i128, exp: i32) -> Option<Dec>
    requires low { negsuc 9 ≤ℤ exp }
    requires high { exp ≤ℤ pos 10 }
    ensures { IfSome result IsShort }
{
    match Dec::new(mant, exp) {
        Some(d) => {
            if d.mant() > 0 && d.mant() < 1000 {
                return Some(d);
            }
            None
        }
        None => None,
    }
}

/// The intervals of a matrix with this element, with weights 1 and 2.
fn both_of<R: Threads + Sync>(
    rt: &R,
    alloc: Global,
    content: Content,
    mant: i128,
    exp: i32,
) -> Option<(Iv, Iv)>
    requires low { negsuc 9 ≤ℤ exp }
    requires high { exp ≤ℤ pos 10 }
{
    match (short(5, -1), short(mant, exp), short(1, 0), short(2, 0)) {
        (Some(dev), Some(value), Some(one), Some(two)) => {
            let single = interval_of(rt, alloc, dev, content, value, &one)?;
            let double = interval_of(rt, alloc, dev, content, value, &two)?;
            Some((single, double))
        }
        _ => None,
    }
}

#[test]
fn one_name(rt: HostRuntime) -> Result<(), Fail> {
    one_information();
    multiples();
    let alloc = rt.alloc();
    let worked = Some((
        Iv::point(4_000_000_000_000_000_000),
        Iv::point(8_000_000_000_000_000_000),
    ));
    assert_eq!(rt; both_of(&rt, alloc, Content::Info, 4, 0), worked);
    assert_eq!(rt; both_of(&rt, alloc, Content::Cova, 25, -2), worked);
    assert_eq!(rt; both_of(&rt, alloc, Content::Corr, 5, -1), worked);
    Ok(())
}
