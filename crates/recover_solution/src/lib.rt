//! From solutions to normal equations by name, without their constraints.
#![tactic(auto)]

ghost use Rattle.std.specs.Prelude.{◌≡◌, ◌≤◌, ◌⊎◌, ◌*◌, ◌^◌, map, length, IfOk, IfErr, Ok, Err};
ghost use Rattle.sym_blocks.specs.Tables.{before};
ghost use Rattle.param_ids.specs.Order.{IsNames};
ghost use Rattle.neq_stack.specs.ByName.{AreAtMost};
ghost use Rattle.neq_stack.specs.Neqs.{IsSound, neq_view};
ghost use Rattle.neq_stack.specs.Systems.{NamedSystem, LiesInNeq};
ghost use Rattle.named_tables.specs.Tables.{LiesInTable};
ghost use Rattle.named_tables.specs.Weighted.{scale_of};
ghost use Rattle.named_tables.specs.declared.faults.RecoverError.TheVariants.{Memory, Fault};
ghost use Rattle.named_tables.specs.declared.faults.RecoverFault.{RecoverFault};
ghost use Rattle.recover_solution.specs.Exact.{HasNoRight, IsFreedSystem, MultiplesAreFreed, MultiplesConstrain, SigmasConstrain, SystemsAreFreed};
ghost use Rattle.recover_solution.specs.Recovery.{AreParameters, IsFreed, IsModestTable, OneFreed, OneParameters, OneSigmaTable};
ghost use Rattle.recover_solution.specs.Views.{solution_view, IsRead};

mod constraints;
mod moving;
mod names;
mod solutions;

use crate::moving::{moved, take_from};
use crate::names::estimated;
pub use constraints::sigma_table;
use named_tables::{RecoverError, all_matched, names_of, some_row};
pub use names::touched_names;
use neq_stack::Neq;
use param_ids::{Names, Scales};
pub use solutions::{Constraint, Solution};
use std::alloc::Global;
use sym_blocks::SymBlock;

/// The names of a solution's parameters, in order: those of its estimates.
///
/// # Errors
///
/// The first cause for which it has none: Unmatched, for the first estimate without an a priori row, then for the first constrained a priori
/// row without an estimate; Empty; or want of memory.
pub fn parameters(alloc: Global, solution: &Solution<'_>) -> Result<Names, RecoverError>
    requires { IsRead (solution_view solution.now) }
    ensures names { IfOk result (λ names. AreParameters (solution_view solution.now) (Ok names)) }
    ensures refused { IfErr result (λ cause. (cause ≡ Memory) ⊎ ((fault : RecoverFault) × (cause ≡ Fault fault) × AreParameters (solution_view solution.now) (Err fault))) }
{
    all_matched(alloc, solution.apriori, solution.estimates)?;
    let names = names_of(alloc, solution.estimates)?;
    estimated(solution, &names)?;
    some_row(solution.estimates)?;
    Ok(names)
}

/// The normal equations of a solution with this information matrix in intervals, at the a priori values and without these constraints: the
/// matrix is the information matrix less that of the constraints, and the right side the information matrix times the differences,
/// estimate less a priori value. The a priori values and units are those of the a priori rows of the names. Both tables are over the names,
/// in units of `10^-(18 - t_i - t_j)`, where t are the scale exponents of the names, and no interval of them passes 10^34 in size.
///
/// # Errors
///
/// Range, for the right side; or want of memory.
pub fn freed<const N: usize>(
    alloc: Global,
    solution: &Solution<'_>,
    scales: &Scales,
    names: Names,
    information: SymBlock<N>,
    removed: &SymBlock<N>,
) -> Result<Neq<N>, RecoverError>
    requires read { IsRead (solution_view solution.now) }
    requires names { IsNames names }
    requires size { information.size ≡ length names }
    requires lower { length information.entries ≡ before information.size }
    requires modest { IsModestTable information }
    requires removed_size { removed.now.size ≡ length names }
    requires small { IsModestTable removed.now }
    ensures freed { IfOk result (λ neq. IsFreed (solution_view solution.now) scales.now names information.entry removed.now (Ok (neq_view neq))) }
    ensures refused { IfErr result (λ cause. (cause ≡ Memory) ⊎ ((fault : RecoverFault) × (cause ≡ Fault fault) × IsFreed (solution_view solution.now) scales.now names information.entry removed.now (Err fault))) }
    ensures sound { IfOk result (λ neq. IsSound (neq_view neq)) }
    ensures lies { IfOk result (λ neq. (E K S : NamedSystem) → HasNoRight E → HasNoRight K → LiesInTable scales.now names information.entry E → LiesInTable scales.now names removed.now K
        → IsFreedSystem (solution_view solution.now) names E K S → LiesInNeq (scale_of scales.now) (neq_view neq) S) }
    ensures modest { IfOk result (λ neq. AreAtMost (2 * 10 ^ 34) (neq_view neq)) }
    ensures exponents { IfOk result (λ neq. (neq_view neq).scales ≡ map (scale_of scales.now) (neq_view neq).names) }
{
    let mut neq = moved(alloc, solution, scales, names, information)?;
    take_from(&mut neq.table, removed);
    Ok(neq)
}

/// Each step has one result at most: names, a table or normal equations, or a first cause, and never both.
pub fn one_recovery()
    ensures parameters { OneParameters }
    ensures sigmas { OneSigmaTable }
    ensures freed { OneFreed }
{}

/// There are constraints of standard deviations, and some multiple of any constraints can be taken out of any system. With constraints and a
/// system without them also each multiple is one.
pub fn systems_are_freed()
    ensures constraints { SigmasConstrain }
    ensures multiples { MultiplesConstrain }
    ensures systems { SystemsAreFreed }
    ensures freed_multiples { MultiplesAreFreed }
{}
