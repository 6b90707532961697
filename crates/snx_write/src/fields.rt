//! Lines and their fields.

ghost use Rattle.std.specs.Prelude.{◌≡◌, ◌≤◌, ◌<◌, ◌+◌, ◌-◌, ◌++◌, ◌∷◌, [], ◌^◌, ℕ, pos, negsuc, ◌≤ℤ◌, map, length, replicate, OnOk};
ghost use Rattle.std.specs.List.{flat_map};
ghost use Rattle.blanks.specs.Blanks.{trimmed, right_aligned, right_justified};
ghost use Rattle.decimal_text.specs.Texts.{e_text, zero_padded};
ghost use Rattle.snx_write.specs.Numbers.{IsPrintable};
ghost use Rattle.snx_write.specs.Adding.{Adds};
ghost use Rattle.snx_write.specs.Combined as spec;
ghost use Rattle.snx_write.specs.Combined.{line};

use blanks::trim;
use decimal_text::print_e;
use itoa::Buffer;
use std::alloc::AllocError;

/// Appends fields, each behind a blank.
pub(crate) fn push_fields(out: &mut Vec<u8>, fields: &[&[u8]]) -> Result<(), AllocError>
    ensures { OnOk result (out.new.items ≡ out.old.items ++ flat_map (λ field. 32 ∷ field.now) fields.now) }
{
    for field in fields {
        out.push(b' ')?;
        out.extend_from_slice(field)?;
    }
    Ok(())
}

/// Appends the line of a field and others.
pub(crate) fn push_line(out: &mut Vec<u8>, first: &[u8], others: &[&[u8]]) -> Result<(), AllocError>
    ensures { OnOk result (Adds (line (first.now ∷ map (λ field. field.now) others.now) ∷ []) out.old.items out.new.items) }
{
    out.extend_from_slice(first)?;
    push_fields(out, others)?;
    out.push(b'\n')?;
    Ok(())
}

/// Fills `out` with a text at its right, and bytes before it.
fn align_right(text: &[u8], before: u8, out: &mut [u8])
    requires { length text.now ≤ length out.old }
    ensures { out.new ≡ replicate (length out.old - length text.now) before ++ text.now }
{
    let (front, back) = out.split_at_mut(out.len() - text.len());
    front.fill(before);
    back.copy_from_slice(text);
}

/// Fills `out` with a text at its left, and blanks behind it.
fn align_left(text: &[u8], out: &mut [u8])
    requires { length text.now ≤ length out.old }
    ensures { out.new ≡ spec.left_aligned (length out.old) text.now }
{
    let (front, back) = out.split_at_mut(text.len());
    front.copy_from_slice(text);
    back.fill(b' ');
}

/// What a line of FILE/REFERENCE says, at the left of its columns.
pub(crate) fn what_field(what: &[u8]) -> [u8; 18]
    requires { length what.now ≤ 18 }
    ensures { result ≡ spec.left_aligned 18 what.now }
{
    let mut field = [b' '; 18];
    align_left(what, &mut field);
    field
}

/// A point at the right of its columns.
pub(crate) fn point_field(point: &[u8; 2]) -> [u8; 2]
    ensures { result ≡ right_aligned 2 (trimmed point.now) }
{
    let mut field = [b' '; 2];
    align_right(trim(point), b' ', &mut field);
    field
}

/// A solution at the right of its columns.
pub(crate) fn soln_field(soln: &[u8; 4]) -> [u8; 4]
    ensures { result ≡ right_aligned 4 (trimmed soln.now) }
{
    let mut field = [b' '; 4];
    align_right(trim(soln), b' ', &mut field);
    field
}

/// An index at the right of 5 columns.
pub(crate) fn index_field(index: usize) -> [u8; 5]
    requires { index < 100000 }
    ensures { result ≡ right_justified index 5 }
{
    let mut buffer = Buffer::new();
    let mut field = [b' '; 5];
    align_right(buffer.format(index).as_bytes(), b' ', &mut field);
    field
}

/// A count at the right of 22 columns.
pub(crate) fn count_field(count: usize) -> [u8; 22]
    ensures { result ≡ right_justified count 22 }
{
    let mut buffer = Buffer::new();
    let mut field = [b' '; 22];
    align_right(buffer.format(count).as_bytes(), b' ', &mut field);
    field
}

/// A number below 100,000 in five digits.
pub(crate) fn five_digits(n: usize) -> [u8; 5]
    requires { n < 100000 }
    ensures { result ≡ zero_padded 5 n }
{
    let mut buffer = Buffer::new();
    let mut field = [b'0'; 5];
    align_right(buffer.format(n).as_bytes(), b'0', &mut field);
    field
}

/// The constraint code of what is held by a datum, or not.
pub(crate) fn constraint_code(held: bool) -> [u8; 1]
    ensures { result ≡ spec.constraint_code held }
{
    if held { *b"1" } else { *b"2" }
}

/// The number `mant * 10^exp` in so many digits, at the right of 21 columns.
pub(crate) fn number_field(mant: i128, exp: i32, digits: usize) -> [u8; 21]
    requires some { 1 ≤ digits }
    requires most { digits ≤ 15 }
    requires printable { IsPrintable digits mant exp }
    ensures { result ≡ right_aligned 21 (e_text digits mant exp) }
{
    let mut field = [b' '; 21];
    print_e(mant, exp, digits, &mut field);
    field
}

/// The same for each number in units of a power of ten from -60 to 50.
pub(crate) fn near_field(mant: i128, exp: i32, digits: usize) -> [u8; 21]
    requires some { 1 ≤ digits }
    requires most { digits ≤ 15 }
    requires low { negsuc 59 ≤ℤ exp }
    requires high { exp ≤ℤ pos 50 }
    ensures { result ≡ right_aligned 21 (e_text digits mant exp) }
{
    number_field(mant, exp, digits)
}

/// A deviation of `size * 10^exp` in 6 digits, at the right of 11 columns.
pub(crate) fn deviation_field(size: u64, exp: i32) -> [u8; 11]
    requires low { negsuc 59 ≤ℤ exp }
    requires high { exp ≤ℤ pos 60 }
    ensures { result ≡ spec.deviation_text (pos size) exp }
{
    let mut field = [b' '; 11];
    print_e(size as i128, exp, 6, &mut field);
    field
}
