//! Decimals of SINEX lines and their faults, decimals rounded at a power of ten, and their products.

ghost use Rattle.std.specs.Prelude.{◌≡◌, ◌↔◌, IsTrue, pos, negsuc, codes, []};
ghost use Rattle.decimal_e.specs.Decimals.{product};
ghost use Rattle.decimal_e.specs.Digits.{number};
ghost use Rattle.decimal_e.specs.Grammar.{value_of};
ghost use Rattle.decimal_e.specs.Scales.{decimal_interval};

use super::*;
use std::test::Fail;

// The number that each text writes, as a mantissa and an exponent.
const READ: [(&[u8], i128, i32); 15] = [
    (b"-.407557863123456E+07", -407_557_863_123_456, -8),
    (b".5-10", 5, -11),
    (b" \t1D+02\t ", 1, 2),
    (b"-.0E+00", 0, 0),
    (b"0E5", 0, 0),
    (b"+0001200.500", 12005, -1),
    (b"100000000000000000000000000000e-10", 1, 19),
    (
        b".000000000000000000000000000000123456789012345678",
        123_456_789_012_345_678,
        -48,
    ),
    (b"5.", 5, 0),
    (b"7d3", 7, 3),
    (b"7+3", 7, 3),
    (b"-12E-0000000000000000000000000000002", -12, -2),
    (b"1E60", 1, 60),
    (b"10E59", 1, 60),
    (b"1E-400", 1, -400),
];

const REFUSED: [(&[u8], DecFault); 23] = [
    (b"", DecFault::Empty),
    (b" \t ", DecFault::Empty),
    (b"1.2.3", DecFault::Char { at: 3 }),
    (b"1E", DecFault::Char { at: 2 }),
    (b"1E+", DecFault::Char { at: 3 }),
    (b"1E+ 5", DecFault::Char { at: 3 }),
    (b"1-", DecFault::Char { at: 2 }),
    (b".", DecFault::Char { at: 1 }),
    (b" - 5", DecFault::Char { at: 2 }),
    (b"E5", DecFault::Char { at: 0 }),
    (b"1 2", DecFault::Char { at: 2 }),
    (b"1\n", DecFault::Char { at: 1 }),
    (b"--1", DecFault::Char { at: 1 }),
    (b"9999999999999999999", DecFault::Digits),
    (b"1000000000000000001E9999", DecFault::Digits),
    (b"1000000000.000000001", DecFault::Digits),
    (b"1E61", DecFault::Exponent),
    (b"10E60", DecFault::Exponent),
    (b"1E-401", DecFault::Exponent),
    (b"1E999", DecFault::Exponent),
    (b"1E1000", DecFault::Exponent),
    (b"0E1000", DecFault::Exponent),
    (
        b"1E-99999999999999999999999999999999999",
        DecFault::Exponent,
    ),
];

// The definitions, at worked rows.
fn evaluated()
    ensures point { value_of (record {
      mantissa = record { sign = codes "-"; whole = []; point = codes "."; fraction = codes "407557863123456" };
      power = record { letter = codes "E"; sign = codes "+"; digits = codes "07" };
    }) ≡ record { mant = negsuc 407557863123455; exp = negsuc 7 } }
    ensures bare { value_of (record {
      mantissa = record { sign = []; whole = []; point = codes "."; fraction = codes "5" };
      power = record { letter = []; sign = codes "-"; digits = codes "10" };
    }) ≡ record { mant = pos 5; exp = negsuc 10 } }
    ensures digits { number (codes "0012") ≡ 12 }
    ensures rounded { decimal_interval (record { mant = negsuc 14; exp = negsuc 0 }) (pos 0) ≡ record { lo = negsuc 1; hi = negsuc 0 } }
    ensures multiplied { product (record { mant = negsuc 14; exp = negsuc 0 }) (record { mant = pos 4; exp = pos 3 }) ≡ record { mant = negsuc 59; exp = pos 2 } }
{}

// Equality of decimals is equality of their values.
fn same(a: &Dec, b: &Dec) -> bool
    ensures { IsTrue result ↔ (a.now ≡ b.now) }
{
    a == b
}

fn crosses_threads<T: Send + Sync>(_value: &T) {}

#[test]
fn texts_are_read(rt: HostRuntime) -> Result<(), Fail> {
    evaluated();
    for (text, mant, exp) in READ {
        let read = read_dec(text).ok().map(|d| (d.mant(), d.exp()));
        assert_eq!(rt; read, Some((mant, exp)));
    }
    for (text, fault) in REFUSED {
        crosses_threads(&fault);
        assert_eq!(rt; read_dec(text).err(), Some(fault));
    }
    Ok(())
}

#[test]
fn decimals_are_rounded(rt: HostRuntime) -> Result<(), Fail> {
    let minus = Dec::new(-1500, -3);
    crosses_threads(&minus);
    assert_eq!(rt; minus, Dec::new(-15, -1));
    assert_eq!(rt; minus.map(|d| same(&d, &d)), Some(true));
    assert_eq!(rt; minus.map(|d| (d.mant(), d.exp())), Some((-15, -1)));
    assert_eq!(rt; minus.and_then(|d| floor_at(&d, 0)), Some(-2));
    assert_eq!(rt; minus.and_then(|d| ceil_at(&d, 0)), Some(-1));
    assert_eq!(rt; minus.and_then(|d| floor_at(&d, 3)), Some(-1500));
    assert_eq!(rt; minus.and_then(|d| ceil_at(&d, 37)), None);
    assert_eq!(rt; Dec::new(i128::MAX, 0), None);
    assert_eq!(rt; Dec::new(1, 121), None);
    assert_eq!(rt;
        Dec::new(0, 9999).map(|d| (d.mant(), d.exp())),
        Some((0, 0))
    );
    Ok(())
}

// 2^118
fn twos() -> Option<Dec> {
    Dec::new(332_306_998_946_228_968_225_951_765_070_086_144, 0)
}

// -5^50
fn fives() -> Option<Dec> {
    Dec::new(-88_817_841_970_012_523_233_890_533_447_265_625, 0)
}

// 10^35 + 1
fn long() -> Option<Dec> {
    Dec::new(100_000_000_000_000_000_000_000_000_000_000_001, 0)
}

// The product's mantissa and exponent.
fn multiplied(left: Option<Dec>, right: Option<Dec>) -> Option<(i128, i32)> {
    let product = left?.times(&right?)?;
    Some((product.mant(), product.exp()))
}

#[test]
fn decimals_are_multiplied(rt: HostRuntime) -> Result<(), Fail> {
    one_times();
    same_values();
    // Minus 2^68 times 10^50.
    assert_eq!(rt;
        multiplied(twos(), fives()),
        Some((-295_147_905_179_352_825_856, 50))
    );
    assert_eq!(rt;
        multiplied(fives(), twos()),
        Some((-295_147_905_179_352_825_856, 50))
    );
    assert_eq!(rt; multiplied(long(), long()), None);
    assert_eq!(rt; multiplied(long(), Dec::new(0, 0)), Some((0, 0)));
    assert_eq!(rt; multiplied(Dec::new(0, 0), Dec::new(-1, 120)), Some((0, 0)));
    assert_eq!(rt;
        multiplied(Dec::new(-3, -2), Dec::new(-7, 1)),
        Some((21, -1))
    );
    assert_eq!(rt;
        multiplied(Dec::new(3, -2), Dec::new(-7, 1)),
        Some((-21, -1))
    );
    assert_eq!(rt;
        multiplied(Dec::new(2, 60), Dec::new(5, 59)),
        Some((1, 120))
    );
    assert_eq!(rt; multiplied(Dec::new(5, 60), Dec::new(2, 60)), None);
    assert_eq!(rt;
        multiplied(Dec::new(5, -401), Dec::new(2, -400)),
        Some((1, -800))
    );
    assert_eq!(rt; multiplied(Dec::new(1, -401), Dec::new(1, -400)), None);
    Ok(())
}
