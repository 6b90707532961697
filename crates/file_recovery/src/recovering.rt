//! The normal equations of blocks.

ghost use Rattle.std.specs.Prelude.{◌≡◌, ◌≤◌, ◌⊎◌, IfOk, IfErr, Err};
ghost use Rattle.control_doc.specs.Valid.{IsPositiveAndShort};
ghost use Rattle.neq_stack.specs.Neqs.{neq_view};
ghost use Rattle.named_tables.specs.Weighted.{IsWeight};
ghost use Rattle.named_tables.specs.declared.faults.RecoverError.TheVariants.{Memory, Fault};
ghost use Rattle.named_tables.specs.declared.faults.RecoverFault.{RecoverFault};
ghost use Rattle.recover_solution.specs.Views.{IsRead, solution_view};
ghost use Rattle.file_recovery.specs.Files as plain;
ghost use Rattle.file_recovery.specs.Recovery.{IsRecoveredFrom};
ghost use Rattle.file_recovery.specs.Solved.{IsSolved};
ghost use Rattle.file_recovery.specs.Parts.{AreRead, IsReadSource, IsRecoveredOf, equations_view, source_view};
ghost use Rattle.file_recovery.specs.declared.faults.FileError.TheVariants as files;
ghost use Rattle.file_recovery.specs.declared.faults.FileFault.{FileFault};

use crate::faults::{FileError, FileFault};
use crate::sources::{Equations, FileSource};
use crate::tables::constraint_table;
use decimal_e::Dec;
use information_tables::information_of;
use named_tables::RecoverError;
use neq_stack::Neq;
use param_ids::Scales;
use recover_solution::{Solution, freed, parameters};
use std::alloc::Global;
use std::thread::Threads;

/// Those of the blocks of normal equations.
fn of_equations<const N: usize>(
    alloc: Global,
    blocks: &Equations<'_>,
    weight: &Dec,
    scales: &Scales,
) -> Result<Neq<N>, FileError>
    requires { AreRead (equations_view blocks.now) }
    ensures known { IfOk result (λ neq. IsRecoveredOf weight.now scales.now (plain.Equations (equations_view blocks.now)) (neq_view neq)) }
    ensures refused { IfErr result (λ cause. (cause ≡ files.Memory) ⊎ ((fault : FileFault) × (cause ≡ files.Fault fault) × IsRecoveredFrom weight.now scales.now (plain.Equations (equations_view blocks.now)) (Err fault))) }
{
    match recover_neq::recover(
        alloc,
        blocks.apriori,
        blocks.vector,
        blocks.cells,
        weight,
        scales,
    ) {
        Ok(neq) => Ok(neq),
        Err(RecoverError::Fault(fault)) => Err(FileError::Fault(FileFault::Recovery(fault))),
        Err(RecoverError::Memory) => Err(FileError::Memory),
    }
}

/// The normal equations of a solution.
fn solved<R: Threads + Sync, const N: usize>(
    rt: &R,
    alloc: Global,
    solution: &Solution<'_>,
    weight: &Dec,
    scales: &Scales,
    workers: usize,
) -> Result<Neq<N>, RecoverError>
    requires read { IsRead (solution_view solution.now) }
    requires weight { IsWeight weight.now }
    requires some_workers { 1 ≤ workers }
    requires few_workers { workers ≤ 16 }
    ensures known { IfOk result (λ neq. IsRecoveredOf weight.now scales.now (plain.Estimated (solution_view solution.now)) (neq_view neq)) }
    ensures refused { IfErr result (λ cause. (cause ≡ Memory) ⊎ ((fault : RecoverFault) × (cause ≡ Fault fault) × IsSolved (solution_view solution.now) weight.now scales.now (Err fault))) }
{
    let names = parameters(alloc, solution)?;
    let information = information_of::<R, N>(
        rt,
        alloc,
        solution.estimates,
        solution.content,
        solution.cells,
        weight,
        scales,
        &names,
        workers,
    )?;
    let removed = constraint_table(rt, alloc, solution, weight, scales, &names, workers)?;
    let neq = freed(alloc, solution, scales, names, information, &removed)?;
    Ok(neq)
}

/// Those of the blocks of a solution.
fn of_solution<R: Threads + Sync, const N: usize>(
    rt: &R,
    alloc: Global,
    solution: &Solution<'_>,
    weight: &Dec,
    scales: &Scales,
    workers: usize,
) -> Result<Neq<N>, FileError>
    requires read { IsRead (solution_view solution.now) }
    requires weight { IsPositiveAndShort weight.now }
    requires some_workers { 1 ≤ workers }
    requires few_workers { workers ≤ 16 }
    ensures known { IfOk result (λ neq. IsRecoveredOf weight.now scales.now (plain.Estimated (solution_view solution.now)) (neq_view neq)) }
    ensures refused { IfErr result (λ cause. (cause ≡ files.Memory) ⊎ ((fault : FileFault) × (cause ≡ files.Fault fault) × IsRecoveredFrom weight.now scales.now (plain.Estimated (solution_view solution.now)) (Err fault))) }
{
    match solved(rt, alloc, solution, weight, scales, workers) {
        Ok(neq) => Ok(neq),
        Err(RecoverError::Fault(fault)) => Err(FileError::Fault(FileFault::Recovery(fault))),
        Err(RecoverError::Memory) => Err(FileError::Memory),
    }
}

/// The normal equations of the blocks of a file, with its weight.
pub(crate) fn recovered<R: Threads + Sync, const N: usize>(
    rt: &R,
    alloc: Global,
    source: &FileSource<'_>,
    weight: &Dec,
    scales: &Scales,
    workers: usize,
) -> Result<Neq<N>, FileError>
    requires read { IsReadSource (source_view source.now) }
    requires weight { IsPositiveAndShort weight.now }
    requires some_workers { 1 ≤ workers }
    requires few_workers { workers ≤ 16 }
    ensures known { IfOk result (λ neq. IsRecoveredOf weight.now scales.now (source_view source.now) (neq_view neq)) }
    ensures refused { IfErr result (λ cause. (cause ≡ files.Memory) ⊎ ((fault : FileFault) × (cause ≡ files.Fault fault) × IsRecoveredFrom weight.now scales.now (source_view source.now) (Err fault))) }
{
    match source {
        FileSource::Equations(blocks) => of_equations(alloc, blocks, weight, scales),
        FileSource::Estimated(solution) => of_solution(
            rt, alloc, solution, weight, scales, workers,
        ),
    }
}
