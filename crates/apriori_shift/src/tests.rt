//! Common values of two files, and normal equations of one parameter brought to them.

ghost use Rattle.std.specs.Prelude.{◌^◌, All, IsTrue, IfOk, map};
ghost use Rattle.decimal_e.specs.Fractions.{IsAtMost};
ghost use Rattle.neq_stack.specs.ByName.{AreAtMost};
ghost use Rattle.neq_stack.specs.Neqs.{IsSound, neq_view};
ghost use Rattle.apriori_shift.specs.Answers.{common_value};

use crate::{Apriori, CommonError, ShiftError, common, shift, shifts_hold};
use decimal_e::Dec;
use interval_word::Iv;
use neq_stack::Neq;
use param_ids::{Names, ParamId};
use snx_rows::Row;
use std::alloc::{AllocError, Global};
use std::test::Fail;
use sym_blocks::SymBlock;

const METRES: [u8; 4] = *b"m   ";

const YEARLY: [u8; 4] = *b"m/y ";

fn name(code: &[u8]) -> Result<ParamId, Fail> {
    match ParamId::named(b"STAX", code, b"A", b"1", b"24:001:00000") {
        Ok(id) => Ok(id),
        Err(_) => Err("a name")?,
    }
}

fn row(id: ParamId, unit: [u8; 4], value: i128) -> Row {
    Row {
        index: 1,
        id,
        unit,
        value: Dec::new(value, 0).unwrap_or(Dec::zero()),
        dev: None,
        line: 1,
    }
}

#[test]
fn first_values(rt: HostRuntime) -> Result<(), Fail> {
    shifts_hold();
    let low = name(b"AAAA")?;
    let high = name(b"BBBB")?;
    let one = [row(high, METRES, 5)];
    let other = [row(low, METRES, 7), row(high, METRES, 9)];
    let base = common(rt.alloc(), [one.as_slice(), other.as_slice()].as_slice())?;
    for (id, value) in [(low, 7), (high, 5)] {
        let found = base.get(&id).map(|row| row.value);
        assert_eq!(rt; found, Dec::new(value, 0));
    }
    let clashing = [
        row(high, YEARLY, 5),
        row(low, METRES, 7),
        row(low, YEARLY, 7),
    ];
    let clash = common(rt.alloc(), [one.as_slice(), clashing.as_slice()].as_slice()).err();
    assert_eq!(rt; clash, Some(CommonError::UnitClash { id: low }));
    Ok(())
}

// The equation 4 (x - 0) = 10 of one parameter.
fn one_equation<const N: usize>(alloc: Global, id: ParamId) -> Result<Neq<N>, AllocError>
    ensures sound { IfOk result (λ neq. IsSound (neq_view neq)) }
    ensures modest { IfOk result (λ neq. AreAtMost (10 ^ 36) (neq_view neq)) }
{
    let Ok(names) = Names::from_list(alloc, [id].as_slice()) else {
        return Err(AllocError);
    };
    if names.len() != 1 {
        return Err(AllocError);
    }
    let mut table = SymBlock::<N>::zero(alloc, 1)?;
    table.set(0, 0, Iv::point(4_000_000_000_000_000_000));
    Ok(Neq {
        names,
        table,
        right: vec![in alloc; Iv::point(10_000_000_000_000_000_000); 1]?,
        apriori: vec![in alloc; Dec::zero(); 1]?,
        units: vec![in alloc; METRES; 1]?,
        scales: vec![in alloc; 0; 1]?,
    })
}

// Whether all names have a value of at most 10^12 in size.
fn has_values(names: &Names, base: &Apriori) -> bool
    ensures { IsTrue result → All (IsAtMost (10 ^ 12)) (map (common_value base.now) names.now) }
{
    for place in 0..names.len() {
        match base.get(names.at(place)) {
            Some(row) => {
                if !row.value.is_modest() {
                    return false;
                }
            }
            None => return false,
        }
    }
    true
}

// The right side and the a priori value of the equation at another value.
fn brought<const N: usize>(
    alloc: Global,
    id: ParamId,
    base: &Apriori,
) -> Result<(Iv, Dec), ShiftError> {
    let mut neq = one_equation::<N>(alloc, id)?;
    if !has_values(&neq.names, base) {
        return Err(ShiftError::Memory);
    }
    shift(alloc, &mut neq, base)?;
    match (neq.right.as_slice(), neq.apriori.as_slice()) {
        ([right], [value]) => Ok((*right, *value)),
        _ => Err(ShiftError::Memory),
    }
}

#[test]
fn one_parameter(rt: HostRuntime) -> Result<(), Fail> {
    let id = name(b"AAAA")?;
    for (value, right) in [
        (0, Ok(10_000_000_000_000_000_000)),
        (2, Ok(2_000_000_000_000_000_000)),
        (-3, Ok(22_000_000_000_000_000_000)),
        (1_000_000_000_000, Err(ShiftError::Range { row: 0, col: 0 })),
    ] {
        let rows = [row(id, METRES, value)];
        let base = common(rt.alloc(), [rows.as_slice()].as_slice())?;
        let after = brought::<16>(rt.alloc(), id, &base);
        let want = right.map(|right| (Iv::point(right), rows[0].value));
        assert_eq!(rt; after, want, "at {value}");
    }
    Ok(())
}
