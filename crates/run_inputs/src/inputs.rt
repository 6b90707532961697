//! The SINEX files of a run.

ghost use Rattle.std.specs.Prelude.{◌≡◌, ◌≤◌, ◌^◌, map, min, sum, length, IsTrue, IfOk, IfErr, Ok, Err, All, string_bytes};
ghost use Rattle.std.specs.Ordering.{nat_cmp};
ghost use Rattle.std.specs.Cmp.Lexicographic.{slice_cmp};
ghost use Rattle.desk_io.specs.Content.{KeepsAll};
ghost use Rattle.snx_blocks.specs.Documents.{IsValid};
ghost use Rattle.snx_blocks.specs.Views.{doc_view};
ghost use Rattle.control_doc.specs.Valid.{IsValidControl};
ghost use Rattle.control_doc.specs.Views.{control_view, plan_view};
ghost use Rattle.run_inputs.specs.Files.{file_limit, total_limit};
ghost use Rattle.run_inputs.specs.Inputs.{AreApart, AreInNameOrder, IsInputWithin, AreInputs, ReadsInputs};
ghost use Rattle.run_inputs.specs.Views.{input_view, status_in, IfTold, HasStatusCause};

use crate::files::{read_file, read_text};
use control_doc::{Control, FilePlan};
use desk_io::Desk;
use refusal_lines::Refusal;
use snx_blocks::Doc;
use std::alloc::{AllocError, Global};
use std::cmp::Ordering;
use std::thread::Threads;

// The most bytes of a file: 64 MiB.
const FILE_LIMIT: usize = 67_108_864;

// The most bytes of all files together: 1 GiB.
const TOTAL_LIMIT: usize = 1_073_741_824;

/// A SINEX file that was read.
#[derive(Drop)]
pub struct Input<'a> {
    /// What the control says of it.
    pub plan: &'a FilePlan,
    /// How many bytes it has.
    pub size: usize,
    /// What it says.
    pub doc: Doc,
}

// How two files stand by their names.
fn by_name(one: &FilePlan, other: &FilePlan) -> Ordering
    ensures { result ≡ slice_cmp nat_cmp (string_bytes one.now.name) (string_bytes other.now.name) }
{
    one.name.cmp(&other.name)
}

// The files in the order of their names.
fn in_name_order<'a>(alloc: Global, files: &'a [FilePlan]) -> Result<Vec<&'a FilePlan>, AllocError>
    requires { AreApart (map plan_view files.now) }
    ensures { IfOk result (λ plans. AreInNameOrder (map plan_view files.now) (map (λ plan. plan_view plan.now) plans.items)) }
{
    let mut plans = Vec::new(alloc);
    for plan in files {
        plans.push(plan)?;
    }
    plans.sort_unstable_by(|one, other| by_name(*one, *other));
    Ok(plans)
}

// The lesser of what a file may have and what is left of all.
fn limit_of(left: usize) -> usize
    ensures value { result ≡ min file_limit left }
    ensures most { result ≤ 2 ^ 26 }
{
    FILE_LIMIT.min(left)
}

// The file of a plan, if it has at most so many bytes.
fn read_input<'a, R: Threads + Sync, D: Desk>(
    rt: &R,
    alloc: Global,
    plan: &'a FilePlan,
    limit: usize,
    desk: &mut D,
) -> Result<Input<'a>, Refusal>
    requires { limit ≤ 2 ^ 26 }
    ensures input { IsTrue D.tells → IfOk result (λ input. IsInputWithin limit (D.content desk.old).files (plan_view plan.now) (Ok (input_view input))) }
    ensures plan { IfOk result (λ input. (input_view input).plan ≡ plan_view plan.now) }
    ensures valid { IfOk result (λ input. IsValid (doc_view input.doc)) }
    ensures short { IfOk result (λ input. input.size ≤ limit) }
    ensures refused { IsTrue D.tells → IfErr result (IfTold (λ refusal. IsInputWithin limit (D.content desk.old).files (plan_view plan.now) (Err refusal))) }
    ensures keeps { IsTrue D.tells → KeepsAll (D.content desk.old) (D.content desk.new) }
    ensures cause { HasStatusCause (D.faults desk.old) (D.faults desk.new) (status_in result) }
{
    let text = read_file(alloc, plan.name.as_str(), limit, desk)?;
    let doc = read_text(rt, alloc, plan.name.as_str(), &text)?;
    let size = text.len();
    Ok(Input { plan, size, doc })
}

// The files of plans in their order, one after another.
fn read_in_turn<'a, R: Threads + Sync, D: Desk>(
    rt: &R,
    alloc: Global,
    plans: &[&'a FilePlan],
    desk: &mut D,
) -> Result<Vec<Input<'a>>, Refusal>
    ensures inputs { IsTrue D.tells → IfOk result (λ inputs. AreInputs (D.content desk.old).files (map (λ plan. plan_view plan.now) plans.now) (Ok (map input_view inputs.items))) }
    ensures plans { IfOk result (λ inputs. map (λ input. (input_view input).plan) inputs.items ≡ map (λ plan. plan_view plan.now) plans.now) }
    ensures count { IfOk result (λ inputs. length inputs.items ≡ length plans.now) }
    ensures valid { IfOk result (λ inputs. All (λ input. IsValid (doc_view input.doc)) inputs.items) }
    ensures refused { IsTrue D.tells → IfErr result (IfTold (λ refusal. AreInputs (D.content desk.old).files (map (λ plan. plan_view plan.now) plans.now) (Err refusal))) }
    ensures keeps { IsTrue D.tells → KeepsAll (D.content desk.old) (D.content desk.new) }
    ensures cause { HasStatusCause (D.faults desk.old) (D.faults desk.new) (status_in result) }
{
    let mut inputs = Vec::new(alloc);
    let mut left = TOTAL_LIMIT;
    for plan in plans {
        let input = read_input(rt, alloc, *plan, limit_of(left), desk)?;
        left -= input.size;
        match inputs.push(input) {
            Ok(()) => {}
            Err(e) => return Err(AllocError::from(e).into()),
        }
    }
    Ok(inputs)
}

/// The files of a control, read in the order of their names.
///
/// # Errors
///
/// The first file that isn't there, is too long (64 MiB, or what the files before it leave of 1 GiB) or has a bad line; want of
/// memory, or a fault of the desk.
pub fn read_inputs<'a, R: Threads + Sync, D: Desk>(
    rt: &R,
    alloc: Global,
    control: &'a Control,
    desk: &mut D,
) -> Result<Vec<Input<'a>>, Refusal>
    requires { IsValidControl (control_view control.now) }
    ensures inputs { IsTrue D.tells → IfOk result (λ inputs. ReadsInputs (control_view control.now).files (D.content desk.old).files (Ok (map input_view inputs.items))) }
    ensures plans { IfOk result (λ inputs. AreInNameOrder (control_view control.now).files (map (λ input. (input_view input).plan) inputs.items)) }
    ensures count { IfOk result (λ inputs. length inputs.items ≡ length control.now.files.items) }
    ensures valid { IfOk result (λ inputs. All (λ input. IsValid (doc_view input.doc)) inputs.items) }
    ensures refused { IsTrue D.tells → IfErr result (IfTold (λ refusal. ReadsInputs (control_view control.now).files (D.content desk.old).files (Err refusal))) }
    ensures keeps { IsTrue D.tells → KeepsAll (D.content desk.old) (D.content desk.new) }
    ensures cause { HasStatusCause (D.faults desk.old) (D.faults desk.new) (status_in result) }
{
    let plans = in_name_order(alloc, &control.files)?;
    let inputs = read_in_turn(rt, alloc, &plans, desk)?;
    Ok(inputs)
}
