//! From files to normal equations by name.
#![tactic(auto)]

ghost use Rattle.std.specs.Prelude.{◌≡◌, ◌≤◌, ◌⊎◌, ◌*◌, ◌^◌, map, IfOk, IfErr, Ok, Err};
ghost use Rattle.stated_order.specs.Steps.{HasOne};
ghost use Rattle.snx_blocks.specs.Documents.{IsValid};
ghost use Rattle.snx_blocks.specs.Views.{doc_view};
ghost use Rattle.control_doc.specs.Valid.{IsPositiveAndShort};
ghost use Rattle.control_doc.specs.Views.{plan_view};
ghost use Rattle.neq_stack.specs.ByName.{AreAtMost};
ghost use Rattle.neq_stack.specs.Neqs.{IsSound, neq_view};
ghost use Rattle.neq_stack.specs.Systems.{NamedSystem, LiesInNeq};
ghost use Rattle.named_tables.specs.Weighted.{scale_of};
ghost use Rattle.file_recovery.specs.Recovery.{IsRecovered, IsExact, OneRecovery, MultiplesAreExact, RecoveredParameters};
ghost use Rattle.file_recovery.specs.declared.faults.FileError.TheVariants.{Memory, Fault};
ghost use Rattle.file_recovery.specs.declared.faults.FileFault.{FileFault};

mod faults;
mod recovering;
mod reports;
mod sources;
mod spreading;
mod tables;

use crate::recovering::recovered;
use crate::sources::source_of;
use control_doc::FilePlan;
pub use faults::{FileError, FileFault};
use neq_stack::Neq;
use param_ids::Scales;
use snx_blocks::Doc;
use std::alloc::Global;
use std::thread::Threads;

/// The normal equations of a file, in intervals by name, with the weight of its plan: those of its right side and matrix, or those of its
/// solution without the constraints that the plan removes.
///
/// # Errors
///
/// The first cause for which there are none: MissingBlock, for the a priori values, then for the right side and the matrix of normal
/// equations, or for the estimates, their matrix and the a priori matrix; then those of `recover_neq`, or of a solution those of
/// `parameters` of `recover_solution`, those of `information_of` of `information_tables` for the estimates' matrix, those of the constraints,
/// of `information_of` too or Range, and Range for the right side; or want of memory. The number of workers, from 1 to 16, has no effect
/// yet.
pub fn recover<R: Threads + Sync, const N: usize>(
    rt: &R,
    alloc: Global,
    doc: &Doc,
    plan: &FilePlan,
    scales: &Scales,
    workers: usize,
) -> Result<Neq<N>, FileError>
    requires valid { IsValid (doc_view doc.now) }
    requires weight { IsPositiveAndShort (plan_view plan.now).weight }
    requires some_workers { 1 ≤ workers }
    requires few_workers { workers ≤ 16 }
    ensures neq { IfOk result (λ neq. IsRecovered (plan_view plan.now) (doc_view doc.now) scales.now (Ok (neq_view neq))) }
    ensures sound { IfOk result (λ neq. IsSound (neq_view neq)) }
    ensures refused { IfErr result (λ cause. (cause ≡ Memory) ⊎ ((fault : FileFault) × (cause ≡ Fault fault) × IsRecovered (plan_view plan.now) (doc_view doc.now) scales.now (Err fault))) }
    ensures exact { IfOk result (λ neq. (S : NamedSystem) → IsExact (plan_view plan.now) (doc_view doc.now) S → LiesInNeq (scale_of scales.now) (neq_view neq) S) }
    ensures exact_exists { IfOk result (λ neq. HasOne (IsExact (plan_view plan.now) (doc_view doc.now))) }
    ensures modest { IfOk result (λ neq. AreAtMost (2 * 10 ^ 34) (neq_view neq)) }
    ensures exponents { IfOk result (λ neq. (neq_view neq).scales ≡ map (scale_of scales.now) (neq_view neq).names) }
{
    match source_of(plan, doc) {
        Ok(source) => recovered(rt, alloc, &source, &plan.weight, scales, workers),
        Err(fault) => Err(FileError::Fault(fault)),
    }
}

/// A file has one recovery at most: normal equations, or a first cause, and never both.
pub fn one_recovery()
    ensures { OneRecovery }
{}

/// With an exact system of a file also each multiple of it is one.
pub fn exact_multiples()
    ensures { MultiplesAreExact }
{}

/// The parameters of recovered normal equations have the values and units of the a priori rows of their names.
pub fn recovered_parameters()
    ensures { RecoveredParameters }
{}
