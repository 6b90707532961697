//! The stack of all files at the common a priori values.

ghost use Rattle.std.specs.Prelude.{◌≢◌, ◌≤◌, ◌*◌, ◌^◌, Bool, All, IfOk, IfErr, Err, length, map};
ghost use Rattle.snx_blocks.specs.Documents.{IsValid};
ghost use Rattle.snx_blocks.specs.Views.{doc_view};
ghost use Rattle.control_doc.specs.Valid.{IsPositiveAndShort};
ghost use Rattle.control_doc.specs.Views.{control_view};
ghost use Rattle.neq_stack.specs.ByName.{AreAtMost};
ghost use Rattle.neq_stack.specs.Neqs.{IsSound, neq_view};
ghost use Rattle.refusal_lines.specs.Refusals.{status_of};
ghost use Rattle.run_inputs.specs.Views.{input_view, IfTold};
ghost use Rattle.combine_cli.specs.Combination.{IsCombined};
ghost use Rattle.combine_cli.specs.Parts.{IsSummed};

use crate::commons::common_of;
use crate::parts::parts_of;
use crate::stacking::stack_of_parts;
use control_doc::Control;
use neq_stack::Neq;
use refusal_lines::Refusal;
use run_inputs::Input;
use std::alloc::Global;
use std::thread::Threads;

// The stack of all files, without the rows of the datum. Each document is let go once its part stands.
pub fn free_stack<R: Threads + Sync>(
    rt: &R,
    alloc: Global,
    control: &Control,
    inputs: Vec<Input<'_>>,
    workers: usize,
) -> Result<Neq<16>, Refusal>
    requires valid { All (λ input. IsValid (doc_view input.doc)) inputs.items }
    requires weights { All (λ input. IsPositiveAndShort (input_view input).plan.weight) inputs.items }
    requires few { length inputs.items ≤ 64 }
    requires some_workers { 1 ≤ workers }
    requires few_workers { workers ≤ 16 }
    ensures summed { IfOk result (λ neq. IsSummed (control_view control.now) (map input_view inputs.entry.items) (neq_view neq)) }
    ensures sound { IfOk result (λ neq. IsSound (neq_view neq)) }
    ensures modest { IfOk result (λ neq. AreAtMost (64 * 10 ^ 36) (neq_view neq)) }
    ensures refused { IfErr result (IfTold (λ refusal. (whole : Bool) → IsCombined whole (control_view control.now) (map input_view inputs.entry.items) (Err refusal))) }
    ensures no_fault { IfErr result (λ refusal. status_of refusal ≢ 5) }
{
    let base = common_of(alloc, control.reference.as_str(), &inputs)?;
    let parts = parts_of(rt, alloc, &control.scales, &base, inputs, workers)?;
    let neq = stack_of_parts(alloc, &parts)?;
    Ok(neq)
}
