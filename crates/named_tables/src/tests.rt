//! The right side of two rows for three names, and one whose number is too great.

use crate::{RecoverError, RecoverFault, column_of, one_table, units_of, values_of};
use decimal_e::Dec;
use interval_word::Iv;
use param_ids::{Names, ParamId, Scales};
use snx_rows::Row;
use std::test::Fail;

fn name(code: &[u8]) -> Result<ParamId, Fail> {
    match ParamId::named(b"STAX", code, b"A", b"1", b"24:001:00000") {
        Ok(id) => Ok(id),
        Err(_) => Err("a name")?,
    }
}

fn tenths(count: i128) -> Dec {
    Dec::new(count, -1).unwrap_or(Dec::zero())
}

fn row(id: ParamId, value: Dec) -> Row {
    Row {
        index: 1,
        id,
        unit: *b"m   ",
        value,
        dev: None,
        line: 1,
    }
}

#[test]
fn right_sides(rt: HostRuntime) -> Result<(), Fail> {
    one_table();
    let alloc = rt.alloc();
    let (low, middle, high) = (name(b"AAAA")?, name(b"BBBB")?, name(b"CCCC")?);
    let Ok(names) = Names::from_list(alloc, [high, low, middle].as_slice()) else {
        return Err("names")?;
    };
    let scales = Scales::standard(alloc)?;
    let weight = tenths(20);
    let rows = [row(high, tenths(15)), row(low, tenths(70))];
    let values = values_of(alloc, &names, rows.as_slice())?;
    assert_eq!(rt;
        values.as_slice(),
        [tenths(70), Dec::zero(), tenths(15)].as_slice()
    );
    let units = units_of(alloc, &names, rows.as_slice())?;
    assert_eq!(rt; units.as_slice(), [*b"m   ", *b"    ", *b"m   "].as_slice());
    let right = column_of(alloc, rows.as_slice(), &weight, &scales, &names).ok();
    let worked = [
        Iv::point(14_000_000_000_000_000_000),
        Iv::point(0),
        Iv::point(3_000_000_000_000_000_000),
    ];
    assert!(rt; right.is_some_and(|right| right.as_slice() == worked.as_slice()));
    let great = [
        row(low, tenths(70)),
        row(high, tenths(1_000_000_000_000_000_000)),
    ];
    let refused = column_of(alloc, great.as_slice(), &weight, &scales, &names).err();
    let cause = RecoverError::Fault(RecoverFault::Range {
        row: high,
        col: high,
    });
    assert_eq!(rt; refused, Some(cause));
    Ok(())
}
