//! What the combined file that is measured says: a stack that is made, its printed numbers, and its sites with their moments.

ghost use Rattle.std.specs.Prelude.{◌≡◌, ◌≤◌, ◌^◌, All, IfOk, IfSome, length};
ghost use Rattle.decimal_e.specs.Fractions.{IsAtMost};
ghost use Rattle.bounds_report.specs.Printing.{HasSmallDeviation};
ghost use Rattle.snx_epoch.specs.Moments.{IsMoment};
ghost use Rattle.neq_stack.specs.Neqs.{IsSound, neq_view};

use crate::tables::strongly_diagonal;
use anyhow::{Result, bail};
use bounds_report::Printed;
use decimal_e::Dec;
use interval_word::Iv;
use neq_stack::Neq;
use param_ids::{Names, ParamId};
use site_merge::Sites;
use snx_epoch::Epoch;
use snx_sites::{EpochRow, SiteRow};
use std::alloc::{AllocError, Global};

/// The last digit of a number.
fn last_digit(n: usize) -> u8 {
    b'0' + (n % 10) as u8
}

/// The code of station `k`: four digits.
fn code_of(k: usize) -> [u8; 4] {
    [
        last_digit(k / 1000),
        last_digit(k / 100),
        last_digit(k / 10),
        last_digit(k),
    ]
}

/// The start of 2024.
fn moment() -> Epoch
    ensures { IsMoment result }
{
    match Epoch::at(19723, 0) {
        Some(moment) => moment,
        None => Epoch::Never,
    }
}

/// The name of parameter `k`: stations have three coordinates each.
fn name_of(k: usize) -> ParamId {
    let kind = match k % 3 {
        0 => *b"STAX  ",
        1 => *b"STAY  ",
        _ => *b"STAZ  ",
    };
    ParamId {
        kind,
        code: code_of(k / 3),
        point: *b"A ",
        soln: *b"1   ",
        epoch: moment(),
    }
}

/// The names of the parameters.
fn names_of(alloc: Global, rows: usize) -> Result<Names>
    requires { rows ≤ 1000 }
    ensures { IfOk result (λ names. length names ≡ rows) }
{
    let mut ids = Vec::new(alloc);
    for k in 0..rows {
        ids.push(name_of(k))?;
    }
    let names = Names::from_list(alloc, &ids)?;
    if names.len() != rows {
        bail!("a name is missing");
    }
    Ok(names)
}

/// An a priori value of 15 digits.
fn value() -> Option<Dec>
    ensures { IfSome result (IsAtMost (10 ^ 12)) }
{
    let value = Dec::new(407_558_062_345_678, -8)?;
    if value.is_modest() { Some(value) } else { None }
}

/// The a priori values.
fn values_of(alloc: Global, rows: usize) -> Result<Vec<Dec>>
    ensures len { IfOk result (λ values. length values.items ≡ rows) }
    ensures modest { IfOk result (λ values. All (IsAtMost (10 ^ 12)) values.items) }
{
    let Some(value) = value() else {
        bail!("no decimal is the a priori value");
    };
    let mut values = Vec::new(alloc);
    for _ in 0..rows {
        values.push(value)?;
    }
    Ok(values)
}

/// A stack with a strongly diagonal table. No two of its elements are alike; of the other numbers one stands in all rows.
pub fn stack_of(alloc: Global, rows: usize) -> Result<Neq<16>>
    requires some { 1 ≤ rows }
    requires few { rows ≤ 1000 }
    ensures sound { IfOk result (λ neq. IsSound (neq_view neq)) }
    ensures len { IfOk result (λ neq. length neq.names ≡ rows) }
{
    let right = Iv::point(123_456_789_012_345_678);
    Ok(Neq {
        names: names_of(alloc, rows)?,
        table: strongly_diagonal(alloc, rows)?,
        right: vec![in alloc; right; rows]?,
        apriori: values_of(alloc, rows)?,
        units: vec![in alloc; *b"m   "; rows]?,
        scales: vec![in alloc; 0; rows]?,
    })
}

/// Printed numbers for so many rows.
pub fn numbers_of(alloc: Global, rows: usize) -> Result<Vec<Printed>, AllocError>
    ensures len { IfOk result (λ numbers. length numbers.items ≡ rows) }
    ensures small { IfOk result (λ numbers. All HasSmallDeviation numbers.items) }
{
    let row = Printed {
        estimate: 40_755_806_234_567_800_000_000,
        lower: 40_755_806_234_567_799_999_000,
        upper: 40_755_806_234_567_800_001_000,
        residual: 0,
        place: 0,
        deviation: 1_234_567_890,
        deviation_place: -12,
    };
    vec![in alloc; row; rows]
}

/// Sites, each with the moments of one solution.
pub fn sites_of(alloc: Global, count: usize) -> Result<Sites, AllocError> {
    let mut lines = Vec::new(alloc);
    let mut epochs = Vec::new(alloc);
    for k in 0..count {
        let code = code_of(k);
        let text = b" 0000  A 10002M006 P a station               7  0  0.0  50  0  0.0   100.0";
        lines.push(SiteRow {
            code,
            point: *b"A ",
            text: Vec::from_slice(alloc, text)?,
        })?;
        epochs.push(EpochRow {
            code,
            point: *b"A ",
            soln: *b"1   ",
            technique: b'P',
            start: moment(),
            end: moment(),
            mean: moment(),
        })?;
    }
    Ok(Sites { lines, epochs })
}
