//! The working table of a table alone.

ghost use Rattle.std.specs.Prelude.{◌≡◌, length, replicate, IfOk, IfErr};
ghost use Rattle.sym_blocks.specs.Tables.{zero_interval};
ghost use Rattle.equil.specs.Tables.{exponent_of};
ghost use Rattle.difference_products.specs.Answers.{IfRange};
ghost use Rattle.difference_products.specs.Parts.{IsWorkingTable, IsFirstWide};

use crate::ProductError;
use equil::{EquilError, Working, working};
use interval_word::Iv;
use std::alloc::{AllocError, Global};
use sym_blocks::SymBlock;

/// The list of this many zeros.
pub fn zeros(alloc: Global, count: usize) -> Result<Vec<Iv>, AllocError>
    ensures { IfOk result (λ right. right.items ≡ replicate count zero_interval) }
{
    vec![in alloc; Iv::point(0); count]
}

/// The working table, with a right side of zeros. Range comes exactly where an interval passes its bound, and names the first, row by
/// row up to the diagonal.
pub fn working_table<const N: usize>(
    alloc: Global,
    table: &SymBlock<N>,
) -> Result<Working<N>, ProductError>
    ensures working { IfOk result (λ w. IsWorkingTable table.now w.a (exponent_of w.e.items)) }
    ensures wide { IfErr result (IfRange (IsFirstWide table.now)) }
{
    let Ok(right) = zeros(alloc, table.size()) else {
        return Err(ProductError::Memory);
    };
    match working(alloc, table, &right) {
        Ok(w) => Ok(w),
        Err(EquilError::Range { row, col }) => Err(ProductError::Range { row, col }),
        Err(EquilError::Memory) => Err(ProductError::Memory),
    }
}
