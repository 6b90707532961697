//! From the blocks of normal equations to intervals by name.
#![tactic(auto)]

ghost use Rattle.std.specs.Prelude.{◌≡◌, ◌⊎◌, ◌^◌, length, map, IfOk, IfErr, Ok, Err};
ghost use Rattle.snx_rows.specs.Blocks.{AreSound};
ghost use Rattle.snx_rows.specs.declared.rows.Shape.TheVariants.{Value, Vector};
ghost use Rattle.snx_matrices.specs.Elements.{AreElementsOf};
ghost use Rattle.neq_stack.specs.ByName.{AreAtMost};
ghost use Rattle.neq_stack.specs.Neqs.{IsSound, neq_view};
ghost use Rattle.neq_stack.specs.Systems.{NamedSystem, LiesInNeq};
ghost use Rattle.named_tables.specs.Weighted.{scale_of};
ghost use Rattle.named_tables.specs.declared.faults.RecoverError.TheVariants.{Memory, Fault};
ghost use Rattle.named_tables.specs.declared.faults.RecoverFault.{RecoverFault};
ghost use Rattle.recover_neq.specs.Blocks.{blocks_of};
ghost use Rattle.recover_neq.specs.Recovery.{IsNamed, IsRecovered, OneRecovery};
ghost use Rattle.recover_neq.specs.Exact.{IsExact, ExactExists, MultiplesAreExact};

use decimal_e::Dec;
use named_tables::{
    RecoverError, all_matched, column_of, exponents_of, names_of, some_row, table_of, units_of,
    values_of,
};
use neq_stack::Neq;
use param_ids::Scales;
use snx_matrices::Cell;
use snx_rows::Row;
use std::alloc::Global;

/// The normal equations by the names of the right side: the table, and then the right side.
fn equations<const N: usize>(
    alloc: Global,
    apriori: &[Row],
    vector: &[Row],
    cells: &[Cell],
    weight: &Dec,
    scales: &Scales,
) -> Result<Neq<N>, RecoverError>
    requires apriori { AreSound Value apriori.now }
    requires vector { AreSound Vector vector.now }
    requires cells { AreElementsOf (length vector.now) cells.now }
    ensures named { IfOk result (λ neq. IsNamed (blocks_of apriori.now vector.now cells.now) weight.now scales.now (Ok (neq_view neq))) }
    ensures sound { IfOk result (λ neq. IsSound (neq_view neq)) }
    ensures refused { IfErr result (λ cause. (cause ≡ Memory) ⊎ ((fault : RecoverFault) × (cause ≡ Fault fault) × IsNamed (blocks_of apriori.now vector.now cells.now) weight.now scales.now (Err fault))) }
{
    let names = names_of(alloc, vector)?;
    let table = table_of::<N>(alloc, vector, cells, weight, scales, &names)?;
    let right = column_of(alloc, vector, weight, scales, &names)?;
    let values = values_of(alloc, &names, apriori)?;
    let units = units_of(alloc, &names, apriori)?;
    let exponents = exponents_of(alloc, &names, scales)?;
    Ok(Neq {
        names,
        table,
        right,
        apriori: values,
        units,
        scales: exponents,
    })
}

/// The normal equations of the blocks of a text, in intervals by name, with the weight of their file, which applies to the matrix and to
/// the right side. The a priori values and units are those of the a priori rows of the names.
///
/// # Errors
///
/// The first cause for which there are none: Unmatched, for the first row of the right side without an a priori row; Empty; Range, for the
/// matrix row by row up to the diagonal in the order of the names, then for the right side; or want of memory.
pub fn recover<const N: usize>(
    alloc: Global,
    apriori: &[Row],
    vector: &[Row],
    cells: &[Cell],
    weight: &Dec,
    scales: &Scales,
) -> Result<Neq<N>, RecoverError>
    requires apriori { AreSound Value apriori.now }
    requires vector { AreSound Vector vector.now }
    requires cells { AreElementsOf (length vector.now) cells.now }
    ensures neq { IfOk result (λ neq. IsRecovered (blocks_of apriori.now vector.now cells.now) weight.now scales.now (Ok (neq_view neq))) }
    ensures sound { IfOk result (λ neq. IsSound (neq_view neq)) }
    ensures refused { IfErr result (λ cause. (cause ≡ Memory) ⊎ ((fault : RecoverFault) × (cause ≡ Fault fault) × IsRecovered (blocks_of apriori.now vector.now cells.now) weight.now scales.now (Err fault))) }
    ensures exact { IfOk result (λ neq. (S : NamedSystem) → IsExact (blocks_of apriori.now vector.now cells.now) weight.now S → LiesInNeq (scale_of scales.now) (neq_view neq) S) }
    ensures modest { IfOk result (λ neq. AreAtMost (10 ^ 34) (neq_view neq)) }
    ensures exponents { IfOk result (λ neq. (neq_view neq).scales ≡ map (scale_of scales.now) (neq_view neq).names) }
{
    all_matched(alloc, apriori, vector)?;
    some_row(vector)?;
    equations(alloc, apriori, vector, cells, weight, scales)
}

/// Blocks have one recovery at most: normal equations, or a first cause, and never both.
pub fn one_recovery()
    ensures { OneRecovery }
{}

/// Blocks have an exact system.
pub fn exact_exists()
    ensures { ExactExists }
{}

/// With an exact system of blocks also each multiple of it is exact.
pub fn exact_multiples()
    ensures { MultiplesAreExact }
{}
