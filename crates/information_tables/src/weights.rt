//! Intervals times a weight.

ghost use Rattle.std.specs.Prelude.{◌≡◌, ◌<◌, ◌+◌, ℕ, IfOk, IfErr, Ok, Err, MatchOption, length};
ghost use Rattle.stated_order.specs.First.{IsFirstFailure};
ghost use Rattle.sym_blocks.specs.Tables.{before, entry_at};
ghost use Rattle.named_tables.specs.Weighted.{IsWeight, WeightFits};
ghost use Rattle.named_tables.specs.declared.faults.RecoverError.TheVariants.{Fault};
ghost use Rattle.named_tables.specs.declared.faults.RecoverFault.{RecoverFault};
ghost use Rattle.information_tables.specs.Tables.{AreWeighted};
ghost use Rattle.information_tables.specs.Parts.{IsWeightedRow};

use decimal_e::Dec;
use named_tables::{RecoverError, RecoverFault, weighted};
use param_ids::Names;
use sym_blocks::SymBlock;

/// Takes the intervals of a row, up to the diagonal, times a weight, or answers the first that does not fit.
fn weigh_row<const N: usize>(table: &mut SymBlock<N>, row: usize, weight: &Dec) -> Option<usize>
    requires weight { IsWeight weight.now }
    requires row { row < table.old.size }
    requires few { row < 1000 }
    requires whole { length table.old.entries ≡ before table.old.size }
    ensures size { table.new.size ≡ table.old.size }
    ensures whole { length table.new.entries ≡ before table.new.size }
    ensures first { MatchOption result
        (IsWeightedRow weight.now row table.old table.new)
        (IsFirstFailure (row + 1) (λ j. WeightFits weight.now (entry_at table.old row j))) }
{
    for col in 0..row + 1 {
        match weighted(&table.get(row, col), weight) {
            Some(interval) => table.set(row, col, interval),
            None => return Some(col),
        }
    }
    None
}

/// Takes the intervals of a table for these names times a weight, or Range with the names of the first that does not fit, row by row up to
/// the diagonal.
pub fn weigh<const N: usize>(
    table: &mut SymBlock<N>,
    weight: &Dec,
    names: &Names,
) -> Result<(), RecoverError>
    requires weight { IsWeight weight.now }
    requires size { table.old.size ≡ length names.now }
    requires whole { length table.old.entries ≡ before table.old.size }
    ensures weighted { IfOk result (λ done. AreWeighted weight.now names.now table.old (Ok table.new)) }
    ensures refused { IfErr result (λ cause. (fault : RecoverFault) × (cause ≡ Fault fault) × AreWeighted weight.now names.now table.old (Err fault)) }
{
    for row in 0..table.size() {
        if let Some(col) = weigh_row(table, row, weight) {
            return Err(RecoverError::Fault(RecoverFault::Range {
                row: *names.at(row),
                col: *names.at(col),
            }));
        }
    }
    Ok(())
}
