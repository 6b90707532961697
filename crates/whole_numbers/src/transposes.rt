//! Columns of square tables, and their transposes.

ghost use Rattle.std.specs.Prelude.{◌≡◌, ◌<◌, length, IfOk};
ghost use Rattle.whole_numbers.specs.Squares.{SetsColumn, IsTranspose};

use crate::Square;
use std::alloc::{AllocError, Global};

/// Makes the numbers of `x` column `c`, and keeps every other.
pub fn set_column(s: &mut Square, c: usize, x: &[i64])
    requires len { length x.now ≡ s.old.size }
    requires within { c < s.old.size }
    ensures { SetsColumn s.old s.new c x.now }
{
    for i in 0..s.size() {
        s.set(i, c, x[i]);
    }
}

/// The transpose: its columns are the rows of `s`.
pub fn transposed(alloc: Global, s: &Square) -> Result<Square, AllocError>
    ensures { IfOk result (IsTranspose s.now) }
{
    let mut t = Square::zeros(alloc, s.size())?;
    for c in 0..s.size() {
        set_column(&mut t, c, s.row(c));
    }
    Ok(t)
}
