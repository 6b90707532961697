//! Numbers printed in E notation.

ghost use Rattle.std.specs.Prelude.{◌≡◌, ◌≤◌, ◌+◌, ◌≤ℤ◌, ◌↔◌, pos, negsuc, length, unsigned_abs, IsTrue};
ghost use Rattle.std.specs.Int.{is_negative};
ghost use Rattle.std.specs.Fmt.{sign_text};
ghost use Rattle.blanks.specs.Blanks.{right_aligned};
ghost use Rattle.decimal_text.specs.Texts.{e_text, printed_exponent};

use crate::bytes::{write_blanks, write_exponent, write_front, write_padded};
use crate::rounding::round_to;

/// The greatest size of an exponent of two digits.
const GREATEST_EXPONENT: u32 = 99;

/// Whether `mant * 10^exp`, rounded to so many digits, has an exponent of two digits and so can be printed.
pub fn is_printable(mant: i128, exp: i32, digits: usize) -> bool
    requires low { negsuc 999 ≤ℤ exp }
    requires high { exp ≤ℤ pos 1000 }
    requires some { 1 ≤ digits }
    requires most { digits ≤ 18 }
    ensures { IsTrue result ↔ (unsigned_abs (printed_exponent digits (unsigned_abs mant) exp) ≤ 99) }
{
    round_to(mant.unsigned_abs(), exp, digits as u32)
        .exponent
        .unsigned_abs()
        <= GREATEST_EXPONENT
}

/// Fills `out` with the text of `mant * 10^exp` at the right and spaces before it: a minus where the number is negative, a point,
/// so many digits, `E`, a sign and two digits of the exponent, as `-.407557863123456E+07`. The number is rounded to nearest, halves
/// away from zero; its first digit is not zero, but all digits and the exponent of zero are. (SINEX 2.02 format description, formats
/// E21.15, E21.14 and E11.6.)
pub fn print_e(mant: i128, exp: i32, digits: usize, out: &mut [u8])
    requires low { negsuc 999 ≤ℤ exp }
    requires high { exp ≤ℤ pos 1000 }
    requires some { 1 ≤ digits }
    requires most { digits ≤ 18 }
    requires exponent { unsigned_abs (printed_exponent digits (unsigned_abs mant) exp) ≤ 99 }
    requires room { digits + 5 + length (sign_text (is_negative mant)) ≤ length out.old }
    ensures { out.new ≡ right_aligned (length out.old) (e_text digits mant exp) }
{
    let number = round_to(mant.unsigned_abs(), exp, digits as u32);
    let at = write_exponent(number.exponent, out, out.len());
    let at = write_padded(number.digits, digits, out, at);
    let at = write_front(mant < 0, out, at);
    write_blanks(out, at);
}
