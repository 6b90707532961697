//! The normal equations of each file, at the common a priori values.

ghost use Rattle.std.specs.Prelude.{◌≡◌, ◌≢◌, ◌≤◌, ◌*◌, ◌^◌, [], All, List, IfOk, IfErr, Ok, Err, map};
ghost use Rattle.stated_order.specs.Lists.{AreEach};
ghost use Rattle.snx_blocks.specs.Documents.{IsValid};
ghost use Rattle.snx_blocks.specs.Views.{doc_view};
ghost use Rattle.control_doc.specs.Valid.{IsPositiveAndShort};
ghost use Rattle.control_doc.specs.Views.{plan_view};
ghost use Rattle.decimal_e.specs.Fractions.{IsAtMost};
ghost use Rattle.param_ids.specs.Plain.{PlainId};
ghost use Rattle.snx_rows.specs.Named.{value_of};
ghost use Rattle.snx_rows.specs.declared.rows.Row.{Row as PlainRow};
ghost use Rattle.neq_stack.specs.ByName.{AreAtMost};
ghost use Rattle.neq_stack.specs.Neqs.{IsSound, neq_view};
ghost use Rattle.apriori_shift.specs.Answers.{HasFirstRows, common_value};
ghost use Rattle.apriori_shift.specs.Shifts.{IsShift};
ghost use Rattle.refusal_lines.specs.Refusals.{status_of};
ghost use Rattle.run_inputs.specs.Views.{input_view, IfTold};
ghost use Rattle.file_recovery.specs.declared.faults.FileFault.TheVariants.{Recovery};
ghost use Rattle.combine_cli.specs.Causes.{refusal_of_recovery, refusal_of_shift};
ghost use Rattle.combine_cli.specs.Combination.{Recovers, Shifts, IsPart, AreParts};
ghost use Rattle.combine_cli.specs.Parts.{part_view, IsRecoveredOf, IsPartOf};

use crate::naming::name_at;
use apriori_shift::{Apriori, ShiftError, shift};
use control_doc::FilePlan;
use file_recovery::{FileError, FileFault, recover};
use named_tables::RecoverFault;
use neq_stack::Neq;
use param_ids::{Names, Scales};
use refusal_lines::{Name, Refusal, Scope};
use run_inputs::{Input, named};
use std::alloc::Global;
use std::thread::Threads;

// A file and its normal equations at the common values.
#[derive(Drop)]
pub struct FilePart<'a> {
    pub plan: &'a FilePlan,
    pub neq: Neq<16>,
}

// The refusal of the file of that name, whose blocks give no normal equations.
fn refusal_of_blocks(name: Name, fault: &RecoverFault) -> Refusal
    ensures told { result ≡ refusal_of_recovery name (Recovery fault.now) }
    ensures no_fault { status_of result ≢ 5 }
{
    match fault {
        RecoverFault::Unmatched { id } => Refusal::Unmatched {
            place: Scope::File(name),
            id: *id,
        },
        RecoverFault::NoWeight { id } => Refusal::NoWeight {
            place: Scope::File(name),
            id: *id,
        },
        RecoverFault::Empty => Refusal::Empty {
            place: Scope::File(name),
        },
        RecoverFault::Range { row, col } => Refusal::Range {
            place: Scope::File(name),
            row: *row,
            col: *col,
        },
        RecoverFault::Pivot { id } => Refusal::Pivot {
            place: Scope::File(name),
            id: *id,
        },
        RecoverFault::Condition { id } => Refusal::Condition {
            place: Scope::File(name),
            id: *id,
        },
        RecoverFault::Residual { id, size } => Refusal::Residual {
            place: Scope::File(name),
            id: *id,
            size: *size,
        },
        RecoverFault::Defect { id, parts } => Refusal::Defect {
            place: Scope::File(name),
            id: *id,
            parts: *parts,
        },
    }
}

// The refusal of the file of that name, whose normal equations are not recovered.
fn refusal_of_recovery(name: Name, fault: &FileFault) -> Refusal
    ensures told { result ≡ refusal_of_recovery name fault.now }
    ensures no_fault { status_of result ≢ 5 }
{
    match fault {
        FileFault::MissingBlock { block } => Refusal::Block {
            place: Scope::File(name),
            block: *block,
        },
        FileFault::Recovery(fault) => refusal_of_blocks(name, fault),
    }
}

// The normal equations of a file, or why it has none.
fn recovered<R: Threads + Sync>(
    rt: &R,
    alloc: Global,
    scales: &Scales,
    input: &Input<'_>,
    workers: usize,
) -> Result<Neq<16>, Refusal>
    requires valid { IsValid (doc_view input.now.doc) }
    requires weight { IsPositiveAndShort (input_view input.now).plan.weight }
    requires some_workers { 1 ≤ workers }
    requires few_workers { workers ≤ 16 }
    ensures recovers { IfOk result (λ neq. Recovers (input_view input.now).plan scales.now (input_view input.now).doc (Ok (neq_view neq))) }
    ensures known { IfOk result (λ neq. IsRecoveredOf scales.now (input_view input.now) (neq_view neq)) }
    ensures refused { IfErr result (IfTold (λ refusal. Recovers (input_view input.now).plan scales.now (input_view input.now).doc (Err refusal))) }
    ensures no_fault { IfErr result (λ refusal. status_of refusal ≢ 5) }
{
    match recover(rt, alloc, &input.doc, input.plan, scales, workers) {
        Ok(neq) => Ok(neq),
        Err(FileError::Fault(fault)) => {
            let name = named(alloc, input.plan.name.as_str())?;
            Err(refusal_of_recovery(name, &fault))
        }
        Err(FileError::Memory) => Err(Refusal::Memory),
    }
}

// The refusal of the file of that name, whose normal equations are not brought to the common values.
fn refusal_of_shift(name: Name, names: &Names, row: usize, col: usize) -> Refusal
    ensures told { result ≡ refusal_of_shift name names.now (record { row = row; col = col }) }
    ensures no_fault { status_of result ≢ 5 }
{
    Refusal::Range {
        place: Scope::File(name),
        row: name_at(names, row),
        col: name_at(names, col),
    }
}

// Brings the normal equations of a file to the common values, or says why they are not brought there.
fn shifted(alloc: Global, plan: &FilePlan, base: &Apriori, neq: &mut Neq<16>) -> Result<(), Refusal>
    requires sound { IsSound (neq_view neq.old) }
    requires modest { AreAtMost (2 * 10 ^ 34) (neq_view neq.old) }
    requires small { (id : PlainId) → IsAtMost (10 ^ 12) (common_value base.now id) }
    ensures shifts { (rows : List PlainRow) → HasFirstRows base.now rows → IfOk result (λ done. IsShift (map (value_of rows) neq.old.names) (neq_view neq.old) (Ok (neq_view neq.new))) }
    ensures sound { IsSound (neq_view neq.new) }
    ensures modest { AreAtMost (3 * 10 ^ 34) (neq_view neq.new) }
    ensures refused { (rows : List PlainRow) → HasFirstRows base.now rows → IfErr result (IfTold (λ refusal. Shifts (plan_view plan.now).name rows (neq_view neq.old) (Err refusal))) }
    ensures no_fault { IfErr result (λ refusal. status_of refusal ≢ 5) }
{
    match shift(alloc, neq, base) {
        Ok(()) => Ok(()),
        Err(ShiftError::Range { row, col }) => {
            let name = named(alloc, plan.name.as_str())?;
            Err(refusal_of_shift(name, &neq.names, row, col))
        }
        Err(ShiftError::Memory) => Err(Refusal::Memory),
    }
}

// The part of a file.
fn part_of<'a, R: Threads + Sync>(
    rt: &R,
    alloc: Global,
    scales: &Scales,
    base: &Apriori,
    input: &Input<'a>,
    workers: usize,
) -> Result<FilePart<'a>, Refusal>
    requires valid { IsValid (doc_view input.now.doc) }
    requires weight { IsPositiveAndShort (input_view input.now).plan.weight }
    requires some_workers { 1 ≤ workers }
    requires few_workers { workers ≤ 16 }
    requires small { (id : PlainId) → IsAtMost (10 ^ 12) (common_value base.now id) }
    ensures part { (rows : List PlainRow) → HasFirstRows base.now rows → IfOk result (λ part. IsPart scales.now rows [] (input_view input.now) (Ok (part_view part))) }
    ensures known { (rows : List PlainRow) → HasFirstRows base.now rows → IfOk result (λ part. IsPartOf scales.now rows (input_view input.now) (part_view part)) }
    ensures refused { (rows : List PlainRow) → HasFirstRows base.now rows → IfErr result (IfTold (λ refusal. IsPart scales.now rows [] (input_view input.now) (Err refusal))) }
    ensures no_fault { IfErr result (λ refusal. status_of refusal ≢ 5) }
{
    let mut neq = recovered(rt, alloc, scales, input, workers)?;
    shifted(alloc, input.plan, base, &mut neq)?;
    Ok(FilePart {
        plan: input.plan,
        neq,
    })
}

// The parts of a combination, one for each file. Each document is let go once its part stands.
pub fn parts_of<'a, R: Threads + Sync>(
    rt: &R,
    alloc: Global,
    scales: &Scales,
    base: &Apriori,
    inputs: Vec<Input<'a>>,
    workers: usize,
) -> Result<Vec<FilePart<'a>>, Refusal>
    requires valid { All (λ input. IsValid (doc_view input.doc)) inputs.items }
    requires weights { All (λ input. IsPositiveAndShort (input_view input).plan.weight) inputs.items }
    requires some_workers { 1 ≤ workers }
    requires few_workers { workers ≤ 16 }
    requires small { (id : PlainId) → IsAtMost (10 ^ 12) (common_value base.now id) }
    ensures parts { (rows : List PlainRow) → HasFirstRows base.now rows → IfOk result (λ parts. AreParts scales.now rows (map input_view inputs.entry.items) (Ok (map part_view parts.items))) }
    ensures each { (rows : List PlainRow) → HasFirstRows base.now rows → IfOk result (λ parts. AreEach (IsPartOf scales.now rows) (map input_view inputs.entry.items) (map part_view parts.items)) }
    ensures refused { (rows : List PlainRow) → HasFirstRows base.now rows → IfErr result (IfTold (λ refusal. AreParts scales.now rows (map input_view inputs.entry.items) (Err refusal))) }
    ensures no_fault { IfErr result (λ refusal. status_of refusal ≢ 5) }
{
    let mut parts = Vec::new(alloc);
    for input in inputs {
        let part = part_of(rt, alloc, scales, base, &input, workers)?;
        if parts.push(part).is_err() {
            return Err(Refusal::Memory);
        }
    }
    Ok(parts)
}
