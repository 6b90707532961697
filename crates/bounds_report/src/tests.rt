//! The numbers of tables with two rows.

ghost use Rattle.std.specs.Prelude.{◌≡◌, ◌≤◌, ◌^◌, IfSome, vec_len};
ghost use Rattle.decimal_e.specs.Fractions.{IsAtMost};
ghost use Rattle.bounds_report.specs.Printing.{IsScaleExponent};
ghost use Rattle.enclosures.specs.Vectors.{IsSmall};
ghost use Rattle.whole_numbers.specs.Lists.{at};

use super::*;
use decimal_e::Dec;
use enclosures::{Enclosed, Pilot, Radius};
use equil::{Working, working};
use interval_word::Iv;
use std::alloc::Global;
use std::test::Fail;
use sym_blocks::SymBlock;

// One row: matrix and vector as they stand in the stack, the a priori value at 10^4, the start vector and its radius, and the scale
// exponent.
#[derive(Clone, Copy)]
struct Row {
    matrix: i128,
    vector: i128,
    apriori: i64,
    start: i64,
    radius: u128,
    scale: i32,
}

// Two rows and the element between them, the pilot's scale, and its diagonal.
#[derive(Clone, Copy)]
struct Pair {
    rows: [Row; 2],
    coupling: i128,
    g: u32,
    diagonal: [i64; 2],
}

const HALF: Row = Row {
    matrix: 4_000_000_000_000_000_000,
    vector: 2_000_000_000_000_000_000,
    apriori: 10_000,
    start: 5_000_000_000_000,
    radius: 0,
    scale: 0,
};

// Its standard deviation is the root of 1/8.
const EIGHTH: Row = Row {
    matrix: 8_000_000_000_000_000_000,
    vector: 1_000_000_000_000_000_000,
    apriori: 0,
    start: 1_250_000_000_000,
    radius: 1,
    scale: 0,
};

const THIRD: Row = Row {
    matrix: 3_000_000_000_000_000_000,
    vector: 1_000_000_000_000_000_000,
    apriori: 0,
    start: 3_333_333_333_333,
    radius: 2,
    scale: 0,
};

// The exponent is 11, and the estimate is 0.0005 from the a priori value: 5 * 10^15 units with the scale exponent -4, and more than
// 2^65 with 0.
const FAR: Row = Row {
    matrix: i128::MAX,
    vector: 0,
    apriori: 1_234_567_890_120_005,
    start: 0,
    radius: 0,
    scale: -4,
};

const THIRD_NUMBERS: Printed = Printed {
    estimate: 3_333_333_333_333_000,
    lower: 3_333_333_333_331_000,
    upper: 3_333_333_333_335_000,
    residual: 10_000_000_000_000_000,
    place: -29,
    deviation: 577_350,
    deviation_place: -6,
};

// Pairs with their numbers. The first is worked by hand. The others were computed apart from the program, by exact fractions: the
// working table, start vector and radii in units of 10^-(12 + e + t), as tools/solve.py computes them for t = 0, with e + t for e. In
// the third pair e + t is -13 and 17, and the numbers of the diagonal are the greatest that a pilot has, and one below 0. The others'
// are those of the inverse, to nearest.
const PRINTED: [(Pair, [Printed; 2]); 5] = [
    (
        Pair {
            rows: [HALF, THIRD],
            coupling: 0,
            g: 40,
            diagonal: [31_691_265_005_706, 42_255_020_007_608],
        },
        [
            Printed {
                estimate: 15_000_000_000_000_000,
                lower: 15_000_000_000_000_000,
                upper: 15_000_000_000_000_000,
                residual: 0,
                place: -29,
                deviation: 500_000,
                deviation_place: -6,
            },
            THIRD_NUMBERS,
        ],
    ),
    (
        Pair {
            rows: [
                Row {
                    matrix: 4_000_000_000_000_000_000,
                    vector: 2_000_000_000_000_000_000,
                    apriori: -25_000,
                    start: 1_234_567_890_123,
                    radius: 3,
                    scale: -4,
                },
                Row {
                    matrix: 3_000_000_000_000_000_000,
                    vector: 1_000_000_000_000_000_000,
                    apriori: 12_345,
                    start: 7_777_777_777_777,
                    radius: 2,
                    scale: 6,
                },
            ],
            coupling: 1_000_000_000_000_000_000,
            g: 40,
            diagonal: [34_572_289_097_134, 46_096_385_462_845],
        },
        [
            Printed {
                estimate: 12_320_678_901_230_000_000,
                lower: 12_320_678_901_200_000_000,
                upper: 12_320_678_901_260_000_000,
                residual: 72_839_506_395_080_000_000_000_000_000,
                place: -33,
                deviation: 522_232,
                deviation_place: -2,
            },
            Printed {
                estimate: 12_345_007_777_777_800,
                lower: 12_345_007_777_777_777,
                upper: 12_345_007_777_777_778,
                residual: 145_679_012_901_230_000_000_000_000_000,
                place: -23,
                deviation: 603_022,
                deviation_place: -12,
            },
        ],
    ),
    (
        Pair {
            rows: [
                Row {
                    matrix: 1,
                    vector: 3,
                    apriori: 15_000,
                    start: 2_999,
                    radius: 7,
                    scale: -4,
                },
                Row {
                    matrix: i128::MAX,
                    vector: -2_000_000_000_000_000_000_000_000_000_000,
                    apriori: -70_000,
                    start: 1_152_921_504_606_846_976,
                    radius: 50_000_000_000_000,
                    scale: 6,
                },
            ],
            coupling: -2,
            g: 0,
            diagonal: [1 << 50, -1],
        },
        [
            Printed {
                estimate: 299_915_000_000_000_000_000,
                lower: 299_215_000_000_000_000_000,
                upper: 300_615_000_000_000_000_000,
                residual: 2_153_000_000_000_000_000,
                place: -43,
                deviation: 3_125_000_000_000,
                deviation_place: 8,
            },
            Printed {
                estimate: -69_999_999_999_884_700,
                lower: -69_999_999_999_884_713,
                upper: -69_999_999_999_884_702,
                residual: 19_637_278_452_992_103_372_000_000_000_000_000,
                place: -13,
                deviation: 0,
                deviation_place: -22,
            },
        ],
    ),
    (
        Pair {
            rows: [FAR, THIRD],
            coupling: 0,
            g: 30,
            diagonal: [72_759_576_142, 41_264_667_976],
        },
        [
            Printed {
                estimate: 1_234_567_890_120_010_000_000_000_000,
                lower: 1_234_567_890_120_005_000_000_000_000,
                upper: 1_234_567_890_120_005_000_000_000_000,
                residual: 85_070_591_730_234_620_000_000_000_000_000,
                place: -23,
                deviation: 766_646,
                deviation_place: -12,
            },
            THIRD_NUMBERS,
        ],
    ),
    (
        Pair {
            rows: [EIGHTH, THIRD],
            coupling: 0,
            g: 40,
            diagonal: [15_845_632_502_853, 42_255_020_007_608],
        },
        [
            Printed {
                estimate: 1_250_000_000_000_000,
                lower: 1_249_999_999_999_000,
                upper: 1_250_000_000_001_000,
                residual: 0,
                place: -29,
                deviation: 353_553,
                deviation_place: -6,
            },
            THIRD_NUMBERS,
        ],
    ),
];

// Pairs that are refused, and the row: a bound passes 10^37, a difference passes 2^65, an estimate passes 10^33.
const REFUSED: [(Pair, usize); 3] = [
    (
        Pair {
            rows: [
                Row {
                    matrix: 1,
                    vector: 0,
                    apriori: 0,
                    start: 0,
                    radius: 1 << 97,
                    scale: 0,
                },
                THIRD,
            ],
            coupling: 0,
            g: 0,
            diagonal: [0, 0],
        },
        0,
    ),
    (
        Pair {
            rows: [Row { scale: 0, ..FAR }, THIRD],
            coupling: 0,
            g: 0,
            diagonal: [0, 0],
        },
        0,
    ),
    (
        Pair {
            rows: [
                THIRD,
                Row {
                    matrix: 1,
                    vector: 0,
                    apriori: 0,
                    start: 100_000_000_000_000_000,
                    radius: 0,
                    scale: -4,
                },
            ],
            coupling: 0,
            g: 0,
            diagonal: [0, 0],
        },
        1,
    ),
];

fn apriori(at_10_000: i64) -> Option<Dec>
    ensures { IfSome result (IsAtMost (10 ^ 12)) }
{
    if at_10_000.unsigned_abs() <= 10_000_000_000_000_000 {
        Dec::new(i128::from(at_10_000), -4)
    } else {
        None
    }
}

fn worked<const N: usize>(alloc: Global, pair: &Pair) -> Option<Working<N>>
    ensures { IfSome result (λ w. w.a.size ≡ 2) }
{
    let [first, second] = pair.rows;
    let mut table = SymBlock::<N>::zero(alloc, 2).ok()?;
    table.set(0, 0, Iv::point(first.matrix));
    table.set(1, 0, Iv::point(pair.coupling));
    table.set(1, 1, Iv::point(second.matrix));
    working(
        alloc,
        &table,
        &[Iv::point(first.vector), Iv::point(second.vector)],
    )
    .ok()
}

fn two_numbers(alloc: Global, a: i64, b: i64) -> Option<Vec<i128>>
    ensures len { IfSome result (λ y. vec_len y ≡ 2) }
    ensures small { IfSome result (λ y. IsSmall 2 (at y.items)) }
{
    [i128::from(a), i128::from(b)].to_vec(alloc).ok()
}

fn enclosed(alloc: Global, pair: &Pair) -> Option<Enclosed>
    ensures { IfSome result (λ e. e.pilot.size ≡ 2) }
{
    let [first, second] = pair.rows;
    let [one, two] = pair.diagonal;
    let pilot = Pilot::from_entries(pair.g, 2, [one, 0, 0, two].to_vec(alloc).ok()?)?;
    let y = two_numbers(alloc, first.start, second.start)?;
    let w = [first.radius.min(1 << 97), second.radius.min(1 << 97)]
        .to_vec(alloc)
        .ok()?;
    Some(Enclosed {
        pilot,
        y,
        radius: Radius { b: 0, m: 0, w },
    })
}

// A scale exponent, and 0 in the place of a number that is none.
fn scale(t: i32) -> i32
    ensures { IsScaleExponent result }
{
    if -4 <= t && t <= 6 { t } else { 0 }
}

fn answer<const N: usize>(alloc: Global, pair: &Pair) -> Option<Result<[Printed; 2], PrintError>> {
    let [first, second] = pair.rows;
    let x0 = [apriori(first.apriori)?, apriori(second.apriori)?];
    let scales = [scale(first.scale), scale(second.scale)];
    let w = worked::<N>(alloc, pair)?;
    let e = enclosed(alloc, pair)?;
    match printed(alloc, &x0, &scales, &w, &e) {
        Ok(rows) => match rows.as_slice() {
            [one, two] => Some(Ok([*one, *two])),
            _ => None,
        },
        Err(refusal) => Some(Err(refusal)),
    }
}

fn crosses_threads<T: Send + Sync>() {}

#[test]
fn two_rows(rt: HostRuntime) -> Result<(), Fail> {
    crosses_threads::<Printed>();
    crosses_threads::<PrintError>();
    let alloc = rt.alloc();
    for (pair, expected) in PRINTED {
        assert_eq!(rt;
            answer::<1>(alloc, &pair),
            Some(Ok(expected)),
            "{}",
            pair.rows[0].start
        );
    }
    for (pair, row) in REFUSED {
        assert_eq!(rt;
            answer::<3>(alloc, &pair),
            Some(Err(PrintError::Range { row })),
            "{}",
            pair.rows[0].apriori
        );
    }
    Ok(())
}
