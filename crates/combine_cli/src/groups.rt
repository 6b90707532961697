//! Groups of files.

ghost use Rattle.std.specs.Prelude.{◌≡◌, ◌≤◌, ◌&&◌, ◌==◌, IfOk, length, map};
ghost use Rattle.std.specs.Str.{bytes_eq};
ghost use Rattle.control_doc.specs.Views.{plan_view};
ghost use Rattle.neq_stack.specs.Neqs.{neq_view};
ghost use Rattle.combine_cli.specs.Combination.{Part, group_of, place_of, group_cmp, AreGroups, members};
ghost use Rattle.combine_cli.specs.Parts.{part_view};

use crate::parts::FilePart;
use control_doc::FilePlan;
use neq_stack::Neq;
use std::alloc::{AllocError, Global};
use std::cmp::Ordering;

// The name of a file's group; the file's own, where it is in none.
pub fn group_name(plan: &FilePlan) -> &str
    ensures { result.now ≡ (group_of (plan_view plan.now)).name }
{
    if plan.group.is_empty() {
        plan.name.as_str()
    } else {
        plan.group.as_str()
    }
}

// The place of a file's group among those of its name: a file in no group comes last.
fn place(plan: &FilePlan) -> u8
    ensures { result ≡ place_of (group_of (plan_view plan.now)).alone }
{
    if plan.group.is_empty() { 1 } else { 0 }
}

// How the groups of two files stand.
fn by_group(one: &FilePlan, other: &FilePlan) -> Ordering
    ensures { result ≡ group_cmp (group_of (plan_view one.now)) (group_of (plan_view other.now)) }
{
    let names = group_name(one).cmp(group_name(other));
    names.then(place(one).cmp(&place(other)))
}

// Whether two files are in one group.
fn same_group(one: &FilePlan, other: &FilePlan) -> bool
    ensures { result ≡ (bytes_eq (group_of (plan_view one.now)).name (group_of (plan_view other.now)).name && (place_of (group_of (plan_view one.now)).alone == place_of (group_of (plan_view other.now)).alone)) }
{
    group_name(one) == group_name(other) && place(one) == place(other)
}

// One file of each group, in the order of the groups.
pub fn first_of_groups<'a>(
    alloc: Global,
    parts: &[FilePart<'a>],
) -> Result<Vec<&'a FilePlan>, AllocError>
    ensures groups { IfOk result (λ plans. AreGroups (map (λ (part : Part). part.plan) (map part_view parts.now)) (map (λ plan. group_of (plan_view plan.now)) plans.items)) }
    ensures few { IfOk result (λ plans. length plans.items ≤ length parts.now) }
{
    let mut plans = Vec::new(alloc);
    for part in parts {
        plans.push(part.plan)?;
    }
    plans.sort_unstable_by(|one, other| by_group(*one, *other));
    plans.dedup_by(|one, other| same_group(*one, *other));
    Ok(plans)
}

// The normal equations of the files in the group of this one.
pub fn members_of<'a>(
    alloc: Global,
    parts: &'a [FilePart<'_>],
    plan: &FilePlan,
) -> Result<Vec<&'a Neq<16>>, AllocError>
    ensures { IfOk result (λ neqs. map (λ neq. neq_view neq.now) neqs.items ≡ members (map part_view parts.now) (group_of (plan_view plan.now))) }
{
    let mut neqs = Vec::new(alloc);
    for part in parts {
        if same_group(part.plan, plan) {
            neqs.push(&part.neq)?;
        }
    }
    Ok(neqs)
}
