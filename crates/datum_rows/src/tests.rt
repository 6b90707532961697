//! A network of one site, and one parameter more.

ghost use Rattle.std.specs.Prelude.{◌≡◌, ◌<◌, ◌*◌, ◌^◌, ℕ, All, IfSome, length, slice_index_or};
ghost use Rattle.decimal_e.specs.Fractions.{IsAtMost};
ghost use Rattle.sym_blocks.specs.Tables.{zero_interval};
ghost use Rattle.control_doc.specs.Valid.{IsPositiveAndShort, HasPositiveSigmas};
ghost use Rattle.control_doc.specs.Views.{datum_view};
ghost use Rattle.neq_stack.specs.ByName.{AreAtMost};
ghost use Rattle.neq_stack.specs.Neqs.{IsSound, neq_view};

use super::*;
use decimal_e::Dec;
use interval_word::Iv;
use param_ids::{Names, ParamId};
use snx_epoch::Epoch;
use std::test::Fail;
use sym_blocks::SymBlock;

// The name of a parameter of the site ABCD.
fn named(kind: [u8; 6]) -> ParamId {
    ParamId {
        kind,
        code: *b"ABCD",
        point: *b"A ",
        soln: *b"1   ",
        epoch: Epoch::Never,
    }
}

// The three coordinates, and a pole coordinate behind them.
fn names(alloc: Global) -> Option<Names>
    ensures { IfSome result (λ names. length names ≡ 4) }
{
    let ids = [
        named(*b"STAX  "),
        named(*b"STAY  "),
        named(*b"STAZ  "),
        named(*b"XPO   "),
    ];
    let names = Names::from_list(alloc, &ids).ok()?;
    if names.len() == 4 { Some(names) } else { None }
}

// The number of tenths, where it is not too great.
fn tenths(mant: i128) -> Option<Dec>
    ensures { IfSome result (IsAtMost (10 ^ 12)) }
{
    let value = Dec::new(mant, -1)?;
    if value.is_modest() { Some(value) } else { None }
}

// 4000000.7, -300000.5, 5000000 and 1.
fn values(alloc: Global) -> Option<Vec<Dec>>
    ensures len { IfSome result (λ values. length values.items ≡ 4) }
    ensures modest { IfSome result (λ values. All (IsAtMost (10 ^ 12)) values.items) }
{
    let x = tenths(40_000_007)?;
    let y = tenths(-3_000_005)?;
    let z = tenths(50_000_000)?;
    let pole = tenths(10)?;
    [x, y, z, pole].to_vec(alloc).ok()
}

// A right side of zeros.
fn zeros(alloc: Global) -> Option<Vec<Iv>>
    ensures len { IfSome result (λ zeros. length zeros.items ≡ 4) }
    ensures zero { IfSome result (λ zeros. (k : ℕ) → slice_index_or zeros.items k zero_interval ≡ zero_interval) }
{
    let zero = Iv::point(0);
    [zero, zero, zero, zero].to_vec(alloc).ok()
}

// Normal equations of zeros.
fn network(alloc: Global) -> Option<Neq<2>>
    ensures sound { IfSome result (λ neq. IsSound (neq_view neq)) }
    ensures small { IfSome result (λ neq. AreAtMost (64 * 10 ^ 36) (neq_view neq)) }
{
    let names = names(alloc)?;
    let apriori = values(alloc)?;
    let right = zeros(alloc)?;
    let Ok(table) = SymBlock::<2>::zero(alloc, 4) else {
        return None;
    };
    let units = [*b"m   ", *b"m   ", *b"m   ", *b"mas "].to_vec(alloc).ok()?;
    let scales = [0i32, 0, 0, 0].to_vec(alloc).ok()?;
    Some(Neq {
        names,
        table,
        right,
        apriori,
        units,
        scales,
    })
}

// A standard deviation, and none for zero.
fn sigma(mant: i128, exp: i32) -> Option<Dec>
    ensures { IfSome result IsPositiveAndShort }
{
    if exp < -20 || 20 < exp {
        return None;
    }
    let value = Dec::new(mant, exp)?;
    if value.mant() <= 0 || 1_000_000_000 <= value.mant() {
        return None;
    }
    Some(value)
}

// A datum of one site.
fn datum(alloc: Global, code: [u8; 4], sigmas: &[(i128, i32); 3]) -> Option<Datum>
    ensures { IfSome result (λ datum. HasPositiveSigmas (datum_view datum)) }
{
    let site = Site {
        code,
        point: *b"A ",
        soln: *b"1   ",
    };
    let sites = [site].to_vec(alloc).ok()?;
    Some(Datum {
        sites,
        translation: sigma(sigmas[0].0, sigmas[0].1),
        rotation: sigma(sigmas[1].0, sigmas[1].1),
        scale: sigma(sigmas[2].0, sigmas[2].1),
    })
}

// The intervals of the rows X, Y, Z and of the first and the last of the row behind them.
fn intervals(table: &SymBlock<2>) -> Option<[Iv; 8]> {
    if table.size() != 4 {
        return None;
    }
    Some([
        table.get(0, 0),
        table.get(1, 0),
        table.get(1, 1),
        table.get(2, 0),
        table.get(2, 1),
        table.get(2, 2),
        table.get(3, 0),
        table.get(3, 3),
    ])
}

// What a datum makes of zeros.
fn made(
    alloc: Global,
    code: [u8; 4],
    sigmas: &[(i128, i32); 3],
) -> Option<Result<[Iv; 8], DatumError>> {
    let mut neq = network(alloc)?;
    let datum = datum(alloc, code, sigmas)?;
    match add_datum(alloc, &mut neq, &datum) {
        Ok(()) => Some(Ok(intervals(&neq.table)?)),
        Err(cause) => Some(Err(cause)),
    }
}

const THOUSANDTH: (i128, i32) = (1, -3);

const NOT_GIVEN: (i128, i32) = (0, 0);

// The whole numbers next to a number.
fn around(low: i128) -> Iv {
    if low == i128::MAX {
        return Iv::point(low);
    }
    match Iv::new(low, low + 1) {
        Some(interval) => interval,
        None => Iv::point(low),
    }
}

#[test]
fn rows_of_a_site(rt: HostRuntime) -> Result<(), Fail> {
    datum_holds();
    let alloc = rt.alloc();
    let zero = Iv::point(0);
    let unit = Iv::point(1_000_000_000_000_000_000_000_000);
    for (sigmas, wanted) in [
        (
            [THOUSANDTH, NOT_GIVEN, NOT_GIVEN],
            [unit, zero, unit, zero, zero, unit, zero, zero],
        ),
        (
            [NOT_GIVEN, THOUSANDTH, NOT_GIVEN],
            [
                Iv::point(250_900_006_000_010_000_000_000),
                Iv::point(12_000_040_000_000_000_000_000),
                Iv::point(410_000_000_000_000_000_000_000),
                Iv::point(-200_000_000_000_000_000_000_000),
                Iv::point(15_000_050_000_000_000_000_000),
                Iv::point(160_900_006_000_010_000_000_000),
                zero,
                zero,
            ],
        ),
        (
            [NOT_GIVEN, NOT_GIVEN, (3, 0)],
            [
                around(17_777_777_777_777_777),
                around(-1_333_337_777_777_778),
                around(100_000_666_667_777),
                around(22_222_222_222_222_222),
                around(-1_666_672_222_222_223),
                around(27_777_777_777_777_777),
                zero,
                zero,
            ],
        ),
    ] {
        assert_eq!(rt; made(alloc, *b"ABCD", &sigmas), Some(Ok(wanted)));
    }
    Ok(())
}

#[test]
fn refused(rt: HostRuntime) -> Result<(), Fail> {
    let alloc = rt.alloc();
    let site = Site {
        code: *b"WXYZ",
        point: *b"A ",
        soln: *b"1   ",
    };
    assert_eq!(rt;
        made(alloc, *b"WXYZ", &[THOUSANDTH, NOT_GIVEN, NOT_GIVEN]),
        Some(Err(DatumError::Unmatched { site }))
    );
    assert_eq!(rt;
        made(alloc, *b"ABCD", &[THOUSANDTH, (1, -9), NOT_GIVEN]),
        Some(Err(DatumError::Range { row: 1, col: 1 }))
    );
    Ok(())
}
