//! Combined files of one parameter and of four.

ghost use Rattle.std.specs.Prelude.{◌≡◌, ◌^◌, All, IfSome, IfOk, length, pos, negsuc, ◌≤ℤ◌};
ghost use Rattle.decimal_e.specs.Fractions.{IsAtMost};
ghost use Rattle.bounds_report.specs.Printing.{HasSmallDeviation};
ghost use Rattle.snx_epoch.specs.Moments.{IsMoment};
ghost use Rattle.neq_stack.specs.Neqs.{IsSound, neq_view};

use super::*;
use bounds_report::Printed;
use control_doc::{Control, Datum, Site, alone};
use decimal_e::Dec;
use interval_word::Iv;
use neq_stack::Neq;
use param_ids::{Names, ParamId};
use site_merge::Sites;
use snx_epoch::Epoch;
use snx_sites::{EpochRow, SiteRow};
use std::alloc::{AllocError, Global};
use std::test::Fail;
use sym_blocks::SymBlock;

// The lines of a file of one parameter, without datum, sites and moments.
const ONE: [&str; 29] = [
    "%=SNX 2.02 ABC 24:010:00000 ABC 00:000:00000 00:000:00000 C 00001 2 S",
    "+FILE/REFERENCE",
    " SOFTWARE           snxcomb",
    "-FILE/REFERENCE",
    "+FILE/COMMENT",
    " INPUT a",
    " INPUT b",
    " INPUT c",
    "-FILE/COMMENT",
    "+SITE/ID",
    "-SITE/ID",
    "+SOLUTION/EPOCHS",
    "-SOLUTION/EPOCHS",
    "+SOLUTION/STATISTICS",
    " NUMBER OF UNKNOWNS                                  1",
    "-SOLUTION/STATISTICS",
    "+SOLUTION/ESTIMATE",
    "     1 STAX   ABCD  A    1 24:001:00000 m    2  .137500000000000E+01 .353553E+00",
    "-SOLUTION/ESTIMATE",
    "+SOLUTION/APRIORI",
    "     1 STAX   ABCD  A    1 24:001:00000 m    2  .100000000000000E+01 .000000E+00",
    "-SOLUTION/APRIORI",
    "+SOLUTION/NORMAL_EQUATION_VECTOR",
    "     1 STAX   ABCD  A    1 24:001:00000 m    2  .300000000000000E+01",
    "-SOLUTION/NORMAL_EQUATION_VECTOR",
    "+SOLUTION/NORMAL_EQUATION_MATRIX L",
    "     1     1   .80000000000000E+01",
    "-SOLUTION/NORMAL_EQUATION_MATRIX L",
    "%ENDSNX",
];

// Those of a file of four, with a datum over the first site.
const FOUR: [&str; 45] = [
    "%=SNX 2.02 IGN 24:010:00000 IGN 24:001:00000 24:007:86399 P 00004 1 S",
    "+FILE/REFERENCE",
    " DESCRIPTION        Three networks, one week ",
    " CONTACT            someone@example.org",
    " SOFTWARE           snxcomb",
    "-FILE/REFERENCE",
    "+FILE/COMMENT",
    " INPUT one.snx",
    "-FILE/COMMENT",
    "+SITE/ID",
    " ABCD  A 10002M006 P Somewhere",
    "-SITE/ID",
    "+SOLUTION/EPOCHS",
    " ABCD  A    1 P 24:001:00000 24:007:86399 24:004:43199",
    " WXYZ 12   12   00:000:00000 00:000:00000 00:000:00000",
    "-SOLUTION/EPOCHS",
    "+SOLUTION/STATISTICS",
    " NUMBER OF UNKNOWNS                                  4",
    "-SOLUTION/STATISTICS",
    "+SOLUTION/ESTIMATE",
    "     1 STAX   ABCD  A    1 24:001:00000 m    1  .400000071234568E+07 .250000E-02",
    "     2 STAY   ABCD  A    1 24:001:00000 m    1 -.300000500000000E+06 .184467E-40",
    "     3 STAZ   WXYZ  A   12 24:001:00000 m    2  .000000000000000E+00 .000000E+00",
    "     4 XPO    ---- -- ---- 24:003:43200 mas  2  .100000000000000E+18 .100000E+73",
    "-SOLUTION/ESTIMATE",
    "+SOLUTION/APRIORI",
    "     1 STAX   ABCD  A    1 24:001:00000 m    1  .400000070000000E+07 .000000E+00",
    "     2 STAY   ABCD  A    1 24:001:00000 m    1 -.300000500000000E+06 .000000E+00",
    "     3 STAZ   WXYZ  A   12 24:001:00000 m    2  .000000000000000E+00 .000000E+00",
    "     4 XPO    ---- -- ---- 24:003:43200 mas  2  .100000000000000E-98 .000000E+00",
    "-SOLUTION/APRIORI",
    "+SOLUTION/NORMAL_EQUATION_VECTOR",
    "     1 STAX   ABCD  A    1 24:001:00000 m    1  .300000000000000E+01",
    "     2 STAY   ABCD  A    1 24:001:00000 m    1 -.200000000000000E-17",
    "     3 STAZ   WXYZ  A   12 24:001:00000 m    2  .000000000000000E+00",
    "     4 XPO    ---- -- ---- 24:003:43200 mas  2  .123456789012346E+02",
    "-SOLUTION/NORMAL_EQUATION_VECTOR",
    "+SOLUTION/NORMAL_EQUATION_MATRIX L",
    "     1     1   .20000000000000E+01",
    "     2     1   .00000000000000E+00  -.20000000000000E-17",
    "     3     1   .50000000000000E-04   .00000000000000E+00   .10000000000000E+13",
    "     4     1   .10000000000000E-15   .00000000000000E+00  -.70000000000000E-19",
    "     4     4   .10000000000000E+02",
    "-SOLUTION/NORMAL_EQUATION_MATRIX L",
    "%ENDSNX",
];

// The text of some lines.
fn text_of(alloc: Global, lines: &[&str]) -> Result<Vec<u8>, AllocError> {
    let mut text = Vec::new(alloc);
    for line in lines {
        text.extend_from_slice(line.as_bytes())?;
        text.push(b'\n')?;
    }
    Ok(text)
}

// A day of January 2024.
fn january(day: i32, second: u32) -> Epoch
    ensures { IsMoment result }
{
    if day < 1 || 31 < day {
        return Epoch::Never;
    }
    match Epoch::at(19722 + day, second) {
        Some(moment) => moment,
        None => Epoch::Never,
    }
}

// The name of a coordinate at the start of 2024.
fn coordinate(kind: [u8; 6], code: [u8; 4], soln: [u8; 4]) -> ParamId {
    ParamId {
        kind,
        code,
        point: *b"A ",
        soln,
        epoch: january(1, 0),
    }
}

// A value, where it is not too great.
fn value(mant: i128, exp: i32) -> Option<Dec>
    ensures { IfSome result (IsAtMost (10 ^ 12)) }
{
    if exp < -800 || 100 < exp {
        return None;
    }
    let value = Dec::new(mant, exp)?;
    if value.is_modest() { Some(value) } else { None }
}

// An estimate and a deviation.
fn row(estimate: i128, deviation: u64, deviation_place: i32) -> Printed
    requires low { negsuc 59 ≤ℤ deviation_place }
    requires high { deviation_place ≤ℤ pos 60 }
    ensures { HasSmallDeviation result }
{
    Printed {
        estimate,
        lower: 0,
        upper: 0,
        residual: 0,
        place: 0,
        deviation: deviation as u128,
        deviation_place,
    }
}

// The name of one parameter.
fn one_name(alloc: Global) -> Option<Names>
    ensures { IfSome result (λ names. length names ≡ 1) }
{
    let ids = [coordinate(*b"STAX  ", *b"ABCD", *b"1   ")];
    let names = Names::from_list(alloc, &ids).ok()?;
    if names.len() == 1 { Some(names) } else { None }
}

// A table of one element.
fn one_row(alloc: Global) -> Option<SymBlock<2>>
    ensures { IfSome result (λ table. table.size ≡ 1) }
{
    let Ok(mut table) = SymBlock::<2>::zero(alloc, 1) else {
        return None;
    };
    table.set(0, 0, Iv::point(8_000_000_000_000_000_000));
    Some(table)
}

// The value 1.
fn one_value(alloc: Global) -> Option<Vec<Dec>>
    ensures len { IfSome result (λ values. length values.items ≡ 1) }
    ensures modest { IfSome result (λ values. All (IsAtMost (10 ^ 12)) values.items) }
{
    let one = value(1, 0)?;
    [one].to_vec(alloc).ok()
}

// 8 x = 3, where x is 1 at first.
fn one(alloc: Global) -> Option<Neq<2>>
    ensures sound { IfSome result (λ neq. IsSound (neq_view neq)) }
    ensures len { IfSome result (λ neq. length neq.names ≡ 1) }
{
    let right = [Iv::point(3_000_000_000_000_000_000)];
    Some(Neq {
        names: one_name(alloc)?,
        table: one_row(alloc)?,
        right: right.to_vec(alloc).ok()?,
        apriori: one_value(alloc)?,
        units: [*b"m   "].to_vec(alloc).ok()?,
        scales: [0].to_vec(alloc).ok()?,
    })
}

// The names of two coordinates of a site, of one of another, and of a pole coordinate.
fn four_names(alloc: Global) -> Option<Names>
    ensures { IfSome result (λ names. length names ≡ 4) }
{
    let ids = [
        coordinate(*b"STAX  ", *b"ABCD", *b"1   "),
        coordinate(*b"STAY  ", *b"ABCD", *b"1   "),
        coordinate(*b"STAZ  ", *b"WXYZ", *b"12  "),
        ParamId {
            kind: *b"XPO   ",
            code: *b"----",
            point: *b"--",
            soln: *b"----",
            epoch: january(3, 43200),
        },
    ];
    let names = Names::from_list(alloc, &ids).ok()?;
    if names.len() == 4 { Some(names) } else { None }
}

// Values of all sizes.
fn four_values(alloc: Global) -> Option<Vec<Dec>>
    ensures len { IfSome result (λ values. length values.items ≡ 4) }
    ensures modest { IfSome result (λ values. All (IsAtMost (10 ^ 12)) values.items) }
{
    let x = value(40_000_007, -1)?;
    let y = value(-3_000_005, -1)?;
    let z = value(1, -100)?;
    let pole = value(1, -99)?;
    [x, y, z, pole].to_vec(alloc).ok()
}

// A table with zeros, an interval whose midpoint is rounded down, and an element that rounding carries.
fn four_rows(alloc: Global) -> Option<SymBlock<2>>
    ensures { IfSome result (λ table. table.size ≡ 4) }
{
    let Ok(mut table) = SymBlock::<2>::zero(alloc, 4) else {
        return None;
    };
    table.set(0, 0, Iv::point(2_000_000_000_000_000_000));
    table.set(1, 1, Iv::new(-3, 0)?);
    table.set(2, 0, Iv::point(500_000_000_000_000_000));
    table.set(
        2,
        2,
        Iv::point(100_000_000_000_000_000_000_000_000_000_000_000_000),
    );
    table.set(3, 0, Iv::point(1));
    table.set(3, 2, Iv::point(-7));
    table.set(3, 3, Iv::new(999_999_999_999_990, 1_000_000_000_000_000)?);
    Some(table)
}

// Normal equations over the four names.
fn four(alloc: Global) -> Option<Neq<2>>
    ensures sound { IfSome result (λ neq. IsSound (neq_view neq)) }
    ensures len { IfSome result (λ neq. length neq.names ≡ 4) }
{
    let right = [
        Iv::point(3_000_000_000_000_000_000),
        Iv::new(-3, 0)?,
        Iv::point(0),
        Iv::point(123_456_789_012_345_678),
    ];
    Some(Neq {
        names: four_names(alloc)?,
        table: four_rows(alloc)?,
        right: right.to_vec(alloc).ok()?,
        apriori: four_values(alloc)?,
        units: [*b"m   ", *b"m   ", *b"m   ", *b"mas "].to_vec(alloc).ok()?,
        scales: [0, 0, -4, 2].to_vec(alloc).ok()?,
    })
}

// A control of this agency, at the tenth of January.
fn control(alloc: Global, agency: [u8; 3]) -> Result<Control, AllocError>
    ensures { IfOk result (λ control. IsMoment control.created) }
{
    let mut control = alone(alloc, "a")?;
    control.agency = agency;
    control.created = january(10, 0);
    Ok(control)
}

// One with a datum over a site, a technique and texts.
fn full_control(alloc: Global) -> Result<Control, AllocError>
    ensures { IfOk result (λ control. IsMoment control.created) }
{
    let mut control = control(alloc, *b"IGN")?;
    let site = Site {
        code: *b"ABCD",
        point: *b"A ",
        soln: *b"1   ",
    };
    control.technique = b'P';
    control.description = String::from_str(alloc, "Three networks, one week ")?;
    control.contact = String::from_str(alloc, "someone@example.org")?;
    control.datum = Some(Datum {
        sites: [site].to_vec(alloc)?,
        translation: None,
        rotation: None,
        scale: None,
    });
    Ok(control)
}

// A site, and the moments of two solutions.
fn sites(alloc: Global) -> Result<Sites, AllocError> {
    let mut lines = Vec::new(alloc);
    lines.push(SiteRow {
        code: *b"ABCD",
        point: *b"A ",
        text: Vec::from_slice(alloc, b" ABCD  A 10002M006 P Somewhere")?,
    })?;
    let first = EpochRow {
        code: *b"ABCD",
        point: *b"A ",
        soln: *b"1   ",
        technique: b'P',
        start: january(1, 0),
        end: january(7, 86399),
        mean: january(4, 43199),
    };
    let second = EpochRow {
        code: *b"WXYZ",
        point: *b"12",
        soln: *b"12  ",
        technique: b' ',
        start: Epoch::Never,
        end: Epoch::Never,
        mean: Epoch::Never,
    };
    Ok(Sites {
        lines,
        epochs: [first, second].to_vec(alloc)?,
    })
}

// The file of one parameter.
fn file_of_one(alloc: Global) -> Result<Option<Vec<u8>>, AllocError> {
    let Some(free) = one(alloc) else {
        return Ok(None);
    };
    let sites = Sites {
        lines: Vec::new(alloc),
        epochs: Vec::new(alloc),
    };
    let control = control(alloc, *b"ABC")?;
    let rows = [row(13_750_000_000_000_000, 353_553, -6)];
    let text = combined(alloc, &control, &["a", "b", "c"], &sites, &free, &rows)?;
    Ok(Some(text))
}

// Estimates and deviations of all sizes.
fn four_numbers() -> [Printed; 4]
    ensures { All HasSmallDeviation result }
{
    [
        row(40_000_007_123_456_789_000_000, 25, -4),
        row(
            -3_000_005_000_000_000_000_000,
            18_446_744_073_709_551_615,
            -60,
        ),
        row(0, 0, 0),
        row(
            1_000_000_000_000_000_000_000_000_000_000_000,
            999_999_500_000,
            60,
        ),
    ]
}

// The file of four parameters.
fn file_of_four(alloc: Global) -> Result<Option<Vec<u8>>, AllocError> {
    let Some(free) = four(alloc) else {
        return Ok(None);
    };
    let control = full_control(alloc)?;
    let sites = sites(alloc)?;
    let rows = four_numbers();
    let text = combined(alloc, &control, &["one.snx"], &sites, &free, &rows)?;
    Ok(Some(text))
}

#[test]
fn files_are_written(rt: HostRuntime) -> Result<(), Fail> {
    let alloc = rt.alloc();
    assert_eq!(rt; file_of_one(alloc)?, Some(text_of(alloc, &ONE)?));
    assert_eq!(rt; file_of_four(alloc)?, Some(text_of(alloc, &FOUR)?));
    Ok(())
}
