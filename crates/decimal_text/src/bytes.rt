//! Texts written from the right to the left. Each call writes its bytes before `end`, keeps those from `end` on, and answers where
//! it began.

ghost use Rattle.std.specs.Prelude.{◌≡◌, ◌≤◌, ◌<◌, ◌+◌, ◌^◌, ◌∷◌, ◌++◌, length, take, drop, replicate, unsigned_abs};
ghost use Rattle.std.specs.Fmt.{sign_text};
ghost use Rattle.decimal_text.specs.Texts.{zero_padded, exponent_text};

use itoa::write_digits;

// Writes one byte.
fn write_byte(byte: u8, out: &mut [u8], end: usize) -> usize
    requires some { 1 ≤ end }
    requires within { end ≤ length out.old }
    ensures start { result + 1 ≡ end }
    ensures written { drop result out.new ≡ byte ∷ drop end out.old }
{
    out[end - 1] = byte;
    end - 1
}

// Writes so many copies of a byte.
fn write_copies(byte: u8, count: usize, out: &mut [u8], end: usize) -> usize
    requires room { count ≤ end }
    requires within { end ≤ length out.old }
    ensures start { result + count ≡ end }
    ensures written { drop result out.new ≡ replicate count byte ++ drop end out.old }
{
    out[end - count..end].fill(byte);
    end - count
}

// Writes a number in so many digits.
pub(crate) fn write_padded(n: u64, width: usize, out: &mut [u8], end: usize) -> usize
    requires some { 1 ≤ width }
    requires most { width ≤ 18 }
    requires few { n < 10 ^ width }
    requires room { width ≤ end }
    requires within { end ≤ length out.old }
    ensures start { result + width ≡ end }
    ensures written { drop result out.new ≡ zero_padded width n ++ drop end out.old }
{
    let start = write_digits(n, out, end);
    write_copies(b'0', start + width - end, out, start)
}

// Writes an exponent.
pub(crate) fn write_exponent(exponent: i32, out: &mut [u8], end: usize) -> usize
    requires small { unsigned_abs exponent ≤ 99 }
    requires room { 4 ≤ end }
    requires within { end ≤ length out.old }
    ensures start { result + 4 ≡ end }
    ensures written { drop result out.new ≡ exponent_text exponent ++ drop end out.old }
{
    let at = write_padded(u64::from(exponent.unsigned_abs()), 2, out, end);
    let sign = if exponent < 0 { b'-' } else { b'+' };
    let at = write_byte(sign, out, at);
    write_byte(b'E', out, at)
}

// Writes a sign where the number is negative, and a point.
pub(crate) fn write_front(negative: bool, out: &mut [u8], end: usize) -> usize
    requires room { 1 + length (sign_text negative) ≤ end }
    requires within { end ≤ length out.old }
    ensures start { result + 1 + length (sign_text negative) ≡ end }
    ensures written { drop result out.new ≡ sign_text negative ++ (46 ∷ drop end out.old) }
{
    let at = write_byte(b'.', out, end);
    if negative {
        write_byte(b'-', out, at)
    } else {
        at
    }
}

// Writes spaces before `end`.
pub(crate) fn write_blanks(out: &mut [u8], end: usize)
    requires within { end ≤ length out.old }
    ensures { out.new ≡ replicate end 32 ++ drop end out.old }
{
    write_copies(b' ', end, out, end);
}
