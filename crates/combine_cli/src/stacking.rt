//! The stack of all parts, group by group.

ghost use Rattle.std.specs.Prelude.{◌≡◌, ◌≢◌, ◌≤◌, ◌<◌, ◌*◌, ◌^◌, ℕ, [], All, IfOk, IfErr, Ok, Err, length, map};
ghost use Rattle.control_doc.specs.Views.{plan_view};
ghost use Rattle.neq_stack.specs.Neqs.{IsSound, neq_view};
ghost use Rattle.neq_stack.specs.ByName.{AllAgree, AreAtMost};
ghost use Rattle.neq_stack.specs.Stacks.{IsStackOf};
ghost use Rattle.refusal_lines.specs.Refusals.{status_of};
ghost use Rattle.run_inputs.specs.Views.{IfTold};
ghost use Rattle.combine_cli.specs.Combination.{group_of, IsGroupStack, AreGroupStacks, IsWholeStack, StacksParts};
ghost use Rattle.combine_cli.specs.Parts.{part_view, neqs_of};

use crate::groups::{first_of_groups, group_name, members_of};
use crate::parts::FilePart;
use control_doc::FilePlan;
use neq_stack::{Neq, StackError, stack_all};
use refusal_lines::{Refusal, Scope};
use run_inputs::named;
use std::alloc::{AllocError, Global};

// The stack of the files in the group of this one.
fn stack_of_group(
    alloc: Global,
    parts: &[FilePart<'_>],
    plan: &FilePlan,
) -> Result<Neq<16>, Refusal>
    requires sound { All IsSound (neqs_of (map part_view parts.now)) }
    requires agree { AllAgree (neqs_of (map part_view parts.now)) }
    requires modest { All (AreAtMost (3 * 10 ^ 34)) (neqs_of (map part_view parts.now)) }
    requires few { length parts.now ≤ 64 }
    ensures stacked { IfOk result (λ neq. IsGroupStack (map part_view parts.now) [] (group_of (plan_view plan.now)) (Ok (neq_view neq))) }
    ensures refused { IfErr result (IfTold (λ refusal. IsGroupStack (map part_view parts.now) [] (group_of (plan_view plan.now)) (Err refusal))) }
    ensures no_fault { IfErr result (λ refusal. status_of refusal ≢ 5) }
{
    let neqs = members_of(alloc, parts, plan)?;
    match stack_all(alloc, &neqs) {
        Ok(neq) => Ok(neq),
        Err(StackError::TooMany { count }) => Err(Refusal::TooMany {
            place: Scope::Group(named(alloc, group_name(plan))?),
            count,
        }),
        Err(StackError::Memory) => Err(Refusal::Memory),
    }
}

// The stacks of the groups of these files.
fn stacks_of_groups(
    alloc: Global,
    parts: &[FilePart<'_>],
    plans: &[&FilePlan],
) -> Result<Vec<Neq<16>>, Refusal>
    requires sound { All IsSound (neqs_of (map part_view parts.now)) }
    requires agree { AllAgree (neqs_of (map part_view parts.now)) }
    requires modest { All (AreAtMost (3 * 10 ^ 34)) (neqs_of (map part_view parts.now)) }
    requires few { length parts.now ≤ 64 }
    ensures stacked { IfOk result (λ stacks. AreGroupStacks (map part_view parts.now) (map (λ plan. group_of (plan_view plan.now)) plans.now) (Ok (map neq_view stacks.items))) }
    ensures refused { IfErr result (IfTold (λ refusal. AreGroupStacks (map part_view parts.now) (map (λ plan. group_of (plan_view plan.now)) plans.now) (Err refusal))) }
    ensures no_fault { IfErr result (λ refusal. status_of refusal ≢ 5) }
{
    let mut stacks = Vec::new(alloc);
    for plan in plans {
        let stack = stack_of_group(alloc, parts, *plan)?;
        match stacks.push(stack) {
            Ok(()) => {}
            Err(e) => return Err(AllocError::from(e).into()),
        }
    }
    Ok(stacks)
}

// References to the stacks.
fn references<'a>(alloc: Global, stacks: &'a [Neq<16>]) -> Result<Vec<&'a Neq<16>>, AllocError>
    ensures { IfOk result (λ neqs. map (λ neq. neq_view neq.now) neqs.items ≡ map neq_view stacks.now) }
{
    let mut neqs = Vec::new(alloc);
    for stack in stacks {
        neqs.push(stack)?;
    }
    Ok(neqs)
}

// The stack of the groups' stacks.
fn stack_of_stacks(alloc: Global, stacks: &[Neq<16>]) -> Result<Neq<16>, Refusal>
    requires sound { All IsSound (map neq_view stacks.now) }
    requires agree { AllAgree (map neq_view stacks.now) }
    requires fit { (most : ℕ) × All (AreAtMost most) (map neq_view stacks.now) × (length stacks.now * most < 10 ^ 38) }
    ensures stacked { IfOk result (λ neq. IsWholeStack (map neq_view stacks.now) (Ok (neq_view neq))) }
    ensures refused { IfErr result (IfTold (λ refusal. IsWholeStack (map neq_view stacks.now) (Err refusal))) }
    ensures no_fault { IfErr result (λ refusal. status_of refusal ≢ 5) }
{
    let neqs = references(alloc, stacks)?;
    match stack_all(alloc, &neqs) {
        Ok(neq) => Ok(neq),
        Err(StackError::TooMany { count }) => Err(Refusal::TooMany {
            place: Scope::Stack,
            count,
        }),
        Err(StackError::Memory) => Err(Refusal::Memory),
    }
}

// The stack of all parts: first that of each group, and then that of the groups.
pub fn stack_of_parts(alloc: Global, parts: &[FilePart<'_>]) -> Result<Neq<16>, Refusal>
    requires sound { All IsSound (neqs_of (map part_view parts.now)) }
    requires agree { AllAgree (neqs_of (map part_view parts.now)) }
    requires modest { All (AreAtMost (3 * 10 ^ 34)) (neqs_of (map part_view parts.now)) }
    requires few { length parts.now ≤ 64 }
    ensures stacked { IfOk result (λ neq. StacksParts (map part_view parts.now) (Ok (neq_view neq))) }
    ensures whole { IfOk result (λ neq. IsStackOf (neqs_of (map part_view parts.now)) (neq_view neq)) }
    ensures sound { IfOk result (λ neq. IsSound (neq_view neq)) }
    ensures modest { IfOk result (λ neq. AreAtMost (64 * 10 ^ 36) (neq_view neq)) }
    ensures refused { IfErr result (IfTold (λ refusal. StacksParts (map part_view parts.now) (Err refusal))) }
    ensures no_fault { IfErr result (λ refusal. status_of refusal ≢ 5) }
{
    let plans = first_of_groups(alloc, parts)?;
    let stacks = stacks_of_groups(alloc, parts, &plans)?;
    let neq = stack_of_stacks(alloc, &stacks)?;
    Ok(neq)
}
