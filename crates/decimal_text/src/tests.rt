//! Numbers and their texts.

use super::*;
use std::test::Fail;

// The number mant * 10^exp, how many digits are printed, and the text in all its columns.
const PRINTED: [(i128, i32, usize, &[u8]); 24] = [
    (-407_557_863_123_456, -8, 15, b"-.407557863123456E+07"),
    (353_553, -6, 6, b".353553E+00"),
    (353_553, -6, 14, b" .35355300000000E+00"),
    (0, 0, 6, b".000000E+00"),
    (0, -1000, 1, b"  .0E+00"),
    (99_994, -4, 4, b".9999E+01"),
    (99_996, -4, 4, b".1000E+02"),
    (-99_996, -4, 4, b"-.1000E+02"),
    (99_995, -4, 4, b".1000E+02"),
    (99_994_999, -7, 4, b".9999E+01"),
    (12_345, 0, 4, b"     .1235E+05"),
    (-12_345, 0, 4, b"    -.1235E+05"),
    (12_335, 0, 4, b".1234E+05"),
    (-12_335, 0, 4, b"-.1234E+05"),
    (12_344, 0, 4, b".1234E+05"),
    (-12_344, 0, 4, b"-.1234E+05"),
    (5, 98, 18, b".500000000000000000E+99"),
    (95, -101, 1, b".1E-98"),
    (94, -101, 1, b".9E-99"),
    (i128::MIN, 0, 18, b"-.170141183460469232E+39"),
    (i128::MIN, 0, 1, b"                   -.2E+39"),
    (i128::MAX, -39, 15, b" .170141183460469E+00"),
    (
        1_234_567_890_123_456_789_012_345_678_901_234_567,
        -30,
        14,
        b"  .12345678901235E+07",
    ),
    (18_446_744_073_709_551_615, -20, 14, b" .18446744073710E+00"),
];

// Whether the number is printed as this text, in as many columns.
fn prints(mant: i128, exp: i32, digits: usize, text: &[u8]) -> bool {
    let mut columns = [b'?'; 26];
    let width = text.len();
    if exp < -1000 || 1000 < exp || digits < 1 || 18 < digits || 26 < width {
        return false;
    }
    if width < digits + 5 + usize::from(mant < 0) || !is_printable(mant, exp, digits) {
        return false;
    }
    print_e(mant, exp, digits, &mut columns[..width]);
    &columns[..width] == text
}

#[test]
fn numbers_are_printed(rt: HostRuntime) -> Result<(), Fail> {
    for (mant, exp, digits, text) in PRINTED {
        assert_eq!(rt; (text, prints(mant, exp, digits, text)), (text, true));
    }
    assert_eq!(rt; is_printable(99_996, 95, 4), false);
    assert_eq!(rt; is_printable(99_994, 95, 4), false);
    assert_eq!(rt; is_printable(99_994, 94, 4), true);
    assert_eq!(rt; is_printable(0, 1000, 18), true);
    Ok(())
}
