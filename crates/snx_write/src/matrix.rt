//! The normal matrix.

ghost use Rattle.std.specs.Prelude.{◌≡◌, ◌≤◌, ◌<◌, ◌++◌, ◌∷◌, [], ◌*◌, pos, negsuc, ◌+ℤ◌, ◌-ℤ◌, ◌≤ℤ◌, All, length, OnOk};
ghost use Rattle.std.specs.List.{flat_map, range_with_len};
ghost use Rattle.whole_numbers.specs.Lists.{at};
ghost use Rattle.param_ids.specs.Tables.{IsScale};
ghost use Rattle.neq_stack.specs.Neqs.{IsSound, neq_view};
ghost use Rattle.snx_write.specs.Adding.{Adds};
ghost use Rattle.snx_write.specs.Combined as spec;

use crate::fields::{index_field, near_field, push_line};
use crate::parameters::scale_of;
use neq_stack::Neq;
use std::alloc::AllocError;

/// The power of ten of the unit of the element in row `i` and column `j`.
fn power_of(scales: &[i32], i: usize, j: usize) -> i32
    requires row { i < length scales.now }
    requires column { j < length scales.now }
    requires scaled { All IsScale scales.now }
    ensures value { result ≡ at scales.now i +ℤ at scales.now j -ℤ pos 18 }
    ensures low { negsuc 25 ≤ℤ result }
    ensures high { result ≤ℤ negsuc 5 }
{
    let row = scale_of(scales, i);
    let column = scale_of(scales, j);
    row + column - 18
}

/// The element of row `i` and column `j`, in 14 digits.
fn element_field<const N: usize>(free: &Neq<N>, i: usize, j: usize) -> [u8; 21]
    requires sound { IsSound (neq_view free.now) }
    requires row { i < free.now.table.size }
    requires column { j ≤ i }
    ensures { result ≡ spec.element_text (neq_view free.now) i j }
{
    let power = power_of(&free.scales, i, j);
    near_field(free.table.get(i, j).mid(), power, 14)
}

/// Appends line `k` of row `i`, both counted from 0.
fn push_matrix_line<const N: usize>(
    out: &mut Vec<u8>,
    free: &Neq<N>,
    i: usize,
    k: usize,
) -> Result<(), AllocError>
    requires sound { IsSound (neq_view free.now) }
    requires row { i < free.now.table.size }
    requires line { 3 * k ≤ i }
    ensures { OnOk result (Adds (spec.matrix_line (neq_view free.now) i k ∷ []) out.old.items out.new.items) }
{
    let first = 3 * k;
    let row = index_field(i + 1);
    let column = index_field(first + 1);
    let one = element_field(free, i, first);
    if first == i {
        return push_line(out, b"", &[&row, &column, &one]);
    }
    let two = element_field(free, i, first + 1);
    if first + 1 == i {
        return push_line(out, b"", &[&row, &column, &one, &two]);
    }
    let three = element_field(free, i, first + 2);
    push_line(out, b"", &[&row, &column, &one, &two, &three])
}

/// Appends the lines of row `i`.
fn push_matrix_row<const N: usize>(
    out: &mut Vec<u8>,
    free: &Neq<N>,
    i: usize,
) -> Result<(), AllocError>
    requires sound { IsSound (neq_view free.now) }
    requires row { i < free.now.table.size }
    ensures { OnOk result (Adds (spec.row_lines (neq_view free.now) i) out.old.items out.new.items) }
{
    for k in 0..i / 3 + 1 {
        push_matrix_line(out, free, i, k)?;
    }
    Ok(())
}

/// Appends the lines of all rows.
fn push_matrix_rows<const N: usize>(out: &mut Vec<u8>, free: &Neq<N>) -> Result<(), AllocError>
    requires { IsSound (neq_view free.now) }
    ensures { OnOk result (Adds (spec.matrix_lines (neq_view free.now)) out.old.items out.new.items) }
{
    for i in 0..free.table.size() {
        push_matrix_row(out, free, i)?;
    }
    Ok(())
}

/// Appends SOLUTION/NORMAL_EQUATION_MATRIX L.
pub(crate) fn push_matrix<const N: usize>(
    out: &mut Vec<u8>,
    free: &Neq<N>,
) -> Result<(), AllocError>
    requires { IsSound (neq_view free.now) }
    ensures { OnOk result (Adds (spec.matrix_block (neq_view free.now)) out.old.items out.new.items) }
{
    push_line(out, b"+SOLUTION/NORMAL_EQUATION_MATRIX L", &[])?;
    push_matrix_rows(out, free)?;
    push_line(out, b"-SOLUTION/NORMAL_EQUATION_MATRIX L", &[])
}
