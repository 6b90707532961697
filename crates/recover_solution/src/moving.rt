//! Normal equations from the estimates to the a priori values, and without constraints.

ghost use Rattle.std.specs.Prelude.{◌≡◌, ◌≤◌, ◌<◌, ◌*◌, ◌⊎◌, ◌^◌, ℕ, All, IfOk, IfErr, Ok, Err, length, map, replicate};
ghost use Rattle.stated_order.specs.Steps.{Renamed};
ghost use Rattle.whole_numbers.specs.Intervals.{size};
ghost use Rattle.sym_blocks.specs.Tables.{before, entry_at, zero_interval};
ghost use Rattle.param_ids.specs.Order.{IsNames};
ghost use Rattle.param_ids.specs.Tables.{IsScale};
ghost use Rattle.snx_rows.specs.Blocks.{AreSound};
ghost use Rattle.snx_rows.specs.Named.{value_of};
ghost use Rattle.snx_rows.specs.declared.rows.Shape.TheVariants.{Value};
ghost use Rattle.neq_stack.specs.ByName.{AreAtMost};
ghost use Rattle.neq_stack.specs.Neqs.{IsSound, neq_view};
ghost use Rattle.neq_stack.specs.Systems.{name_at};
ghost use Rattle.apriori_shift.specs.Shifts.{IsShift};
ghost use Rattle.named_tables.specs.declared.faults.RecoverError.TheVariants.{Memory, Fault};
ghost use Rattle.named_tables.specs.declared.faults.RecoverFault.{RecoverFault};
ghost use Rattle.recover_solution.specs.Recovery.{IsModestTable, IsMoved, at_estimates, range_at};
ghost use Rattle.recover_solution.specs.Views.{solution_view};
ghost use Rattle.recover_solution.specs.Parts.{IsLessAt};

use crate::solutions::Solution;
use apriori_shift::{ShiftError, shift_to};
use interval_word::Iv;
use named_tables::{RecoverError, RecoverFault, exponents_of, units_of, values_of};
use neq_stack::Neq;
use param_ids::{Names, ParamId, Scales};
use std::alloc::{AllocError, Global};
use sym_blocks::SymBlock;

/// So many zeros.
fn zeros(alloc: Global, n: usize) -> Result<Vec<Iv>, AllocError>
    ensures { IfOk result (λ right. right.items ≡ replicate n zero_interval) }
{
    vec![in alloc; Iv::point(0); n]
}

/// The normal equations of a table at the estimates of a solution.
fn at_estimates<const N: usize>(
    alloc: Global,
    solution: &Solution<'_>,
    scales: &Scales,
    names: Names,
    table: SymBlock<N>,
) -> Result<Neq<N>, AllocError>
    requires { IsNames names }
    ensures made { IfOk result (λ neq. neq_view neq ≡ at_estimates (solution_view solution.now) scales.now names table.entry) }
    ensures scaled { IfOk result (λ neq. All IsScale neq.scales.items) }
{
    let right = zeros(alloc, names.len())?;
    let apriori = values_of(alloc, &names, solution.estimates)?;
    let units = units_of(alloc, &names, solution.apriori)?;
    let exponents = exponents_of(alloc, &names, scales)?;
    Ok(Neq {
        names,
        table,
        right,
        apriori,
        units,
        scales: exponents,
    })
}

/// The name at a place.
fn name_at(names: &Names, place: usize) -> ParamId
    requires { place < length names.now }
    ensures { result ≡ name_at names.now place }
{
    *names.at(place)
}

/// Brings these normal equations to the a priori values, or Range with the names of the first interval that passes its bound.
fn shifted<const N: usize>(
    alloc: Global,
    solution: &Solution<'_>,
    neq: &mut Neq<N>,
) -> Result<(), RecoverError>
    requires apriori { AreSound Value (solution_view solution.now).apriori }
    requires sound { IsSound (neq_view neq.old) }
    requires modest { AreAtMost (10 ^ 34) (neq_view neq.old) }
    ensures shifted { IfOk result (λ done. IsShift (map (value_of (solution_view solution.now).apriori) neq.old.names) (neq_view neq.old) (Ok (neq_view neq.new))) }
    ensures refused { IfErr result (λ cause. (cause ≡ Memory) ⊎ ((fault : RecoverFault) × (cause ≡ Fault fault) × Renamed (range_at neq.old.names) (IsShift (map (value_of (solution_view solution.now).apriori) neq.old.names) (neq_view neq.old)) (Err fault))) }
    ensures sound { IsSound (neq_view neq.new) }
    ensures modest { IfOk result (λ done. AreAtMost (2 * 10 ^ 34) (neq_view neq.new)) }
{
    let values = values_of(alloc, &neq.names, solution.apriori)?;
    match shift_to(alloc, neq, values) {
        Ok(()) => Ok(()),
        Err(ShiftError::Range { row, col }) => Err(RecoverError::Fault(RecoverFault::Range {
            row: name_at(&neq.names, row),
            col: name_at(&neq.names, col),
        })),
        Err(ShiftError::Memory) => Err(RecoverError::Memory),
    }
}

/// The normal equations of a table at the a priori values of a solution, or Range with the names of the first interval that passes its
/// bound.
pub fn moved<const N: usize>(
    alloc: Global,
    solution: &Solution<'_>,
    scales: &Scales,
    names: Names,
    table: SymBlock<N>,
) -> Result<Neq<N>, RecoverError>
    requires apriori { AreSound Value (solution_view solution.now).apriori }
    requires estimates { AreSound Value (solution_view solution.now).estimates }
    requires names { IsNames names }
    requires size { table.size ≡ length names }
    requires lower { length table.entries ≡ before table.size }
    requires modest { IsModestTable table }
    ensures moved { IfOk result (λ neq. IsMoved (solution_view solution.now) scales.now names table.entry (Ok (neq_view neq))) }
    ensures refused { IfErr result (λ cause. (cause ≡ Memory) ⊎ ((fault : RecoverFault) × (cause ≡ Fault fault) × IsMoved (solution_view solution.now) scales.now names table.entry (Err fault))) }
    ensures sound { IfOk result (λ neq. IsSound (neq_view neq)) }
    ensures modest { IfOk result (λ neq. AreAtMost (2 * 10 ^ 34) (neq_view neq)) }
{
    let mut neq = at_estimates(alloc, solution, scales, names, table)?;
    shifted(alloc, solution, &mut neq)?;
    Ok(neq)
}

/// Takes the interval of a place from that of another table.
fn less_at<const N: usize>(table: &mut SymBlock<N>, removed: &SymBlock<N>, row: usize, col: usize)
    requires sizes { removed.now.size ≡ table.old.size }
    requires row { row < table.old.size }
    requires lower { col ≤ row }
    requires whole { length table.old.entries ≡ before table.old.size }
    requires modest { size (entry_at table.old row col) ≤ 10 ^ 34 }
    requires small { size (entry_at removed.now row col) ≤ 10 ^ 34 }
    ensures size { table.new.size ≡ table.old.size }
    ensures whole { length table.new.entries ≡ before table.new.size }
    ensures here { IsLessAt removed.now table.old table.new row col }
    ensures others { (i j : ℕ) → i < table.old.size → j ≤ i → ((i ≡ row) × (j ≡ col) → ⊥) → entry_at table.new i j ≡ entry_at table.old i j }
{
    let less = table.get(row, col).sub(&removed.get(row, col));
    table.set(row, col, less);
}

/// Takes the intervals of a row, up to the diagonal, from those of another table.
fn less_row<const N: usize>(table: &mut SymBlock<N>, removed: &SymBlock<N>, row: usize)
    requires sizes { removed.now.size ≡ table.old.size }
    requires row { row < table.old.size }
    requires few { row < 1000 }
    requires whole { length table.old.entries ≡ before table.old.size }
    requires modest { (j : ℕ) → j ≤ row → size (entry_at table.old row j) ≤ 10 ^ 34 }
    requires small { (j : ℕ) → j ≤ row → size (entry_at removed.now row j) ≤ 10 ^ 34 }
    ensures size { table.new.size ≡ table.old.size }
    ensures whole { length table.new.entries ≡ before table.new.size }
    ensures here { (j : ℕ) → j ≤ row → IsLessAt removed.now table.old table.new row j }
    ensures others { (i j : ℕ) → i < table.old.size → j ≤ i → (i ≡ row → ⊥) → entry_at table.new i j ≡ entry_at table.old i j }
{
    for col in 0..row + 1 {
        less_at(table, removed, row, col);
    }
}

/// Takes the intervals of a table from those of another.
pub fn take_from<const N: usize>(table: &mut SymBlock<N>, removed: &SymBlock<N>)
    requires sizes { removed.now.size ≡ table.old.size }
    requires whole { length table.old.entries ≡ before table.old.size }
    requires modest { IsModestTable table.old }
    requires small { IsModestTable removed.now }
    ensures size { table.new.size ≡ table.old.size }
    ensures whole { length table.new.entries ≡ before table.new.size }
    ensures each { (i j : ℕ) → i < table.old.size → j < table.old.size → IsLessAt removed.now table.old table.new i j }
{
    for row in 0..table.size() {
        less_row(table, removed, row);
    }
}
