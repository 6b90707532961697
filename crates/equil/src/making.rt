//! The working table of a symmetric table and a right side.

ghost use Rattle.std.specs.Prelude.{◌≡◌, ◌≤◌, ◌<◌, ◌^◌, ℕ, ℤ, length, slice_index_or, IfOk, IfErr};
ghost use Rattle.std.specs.Vec.{vec_len};
ghost use Rattle.whole_numbers.specs.Intervals.{Interval, size};
ghost use Rattle.sym_blocks.specs.Tables.{SymTable, before, entry_at, zero_interval};
ghost use Rattle.equil.specs.Refusals.{IfRange};
ghost use Rattle.equil.specs.Rows.{AllInRange};
ghost use Rattle.equil.specs.Scaled.{CarriesSystems};
ghost use Rattle.equil.specs.Tables.{table_of, exponent_of, IsWorking, IsFirstPast};

use crate::EquilError;
use crate::scaling::{exponents, scaled_right, scaled_table};
use crate::tables::Working;
use interval_word::Iv;
use std::alloc::Global;
use sym_blocks::SymBlock;

/// The working table. Range comes exactly where an interval passes its bound, and names the first: the table's, row
/// by row up to the diagonal, before the right side's.
pub fn working<const N: usize>(
    alloc: Global,
    table: &SymBlock<N>,
    right: &[Iv],
) -> Result<Working<N>, EquilError>
    requires { length right.now ≡ table.now.size }
    ensures size { IfOk result (λ w. w.a.size ≡ table.now.size) }
    ensures list { IfOk result (λ w. length w.a.entries ≡ before w.a.size) }
    ensures working { IfOk result (λ w. IsWorking table.now.size (table_of table.now right.now) (table_of w.a w.d.items) (exponent_of w.e.items)) }
    ensures systems { IfOk result (λ w. CarriesSystems table.now.size (table_of table.now right.now) (table_of w.a w.d.items) (exponent_of w.e.items)) }
    ensures past { IfErr result (IfRange (IsFirstPast table.now.size (table_of table.now right.now))) }
{
    let e = match exponents(alloc, table) {
        Ok(e) => e,
        Err(_) => return Err(EquilError::Memory),
    };
    let a = match scaled_table(alloc, table, &e) {
        Ok(a) => a,
        Err(refusal) => return Err(refusal),
    };
    let d = match scaled_right(alloc, right, &e) {
        Ok(d) => d,
        Err(refusal) => return Err(refusal),
    };
    Ok(Working { a, d, e })
}
