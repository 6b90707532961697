//! From files that were read to the texts of their combination.

ghost use Rattle.std.specs.Prelude.{◌≡◌, ◌≢◌, ◌≤◌, All, IfOk, IfErr, IfSome, Ok, Err, length, map};
ghost use Rattle.snx_epoch.specs.Moments.{IsMoment};
ghost use Rattle.snx_blocks.specs.Documents.{IsValid};
ghost use Rattle.snx_blocks.specs.Views.{doc_view};
ghost use Rattle.control_doc.specs.Valid.{IsPositiveAndShort, HasPositiveSigmas};
ghost use Rattle.control_doc.specs.Views.{control_view};
ghost use Rattle.refusal_lines.specs.Refusals.{status_of};
ghost use Rattle.run_inputs.specs.Views.{input_view, IfTold};
ghost use Rattle.combine_cli.specs.Combination.{IsCombined};
ghost use Rattle.combine_cli.specs.Headline.{IsCertifiedReport};
ghost use Rattle.combine_cli.specs.Plan.{texts_view};

use crate::datum::{solved_stack, with_datum};
use crate::solving::solved;
use crate::summing::free_stack;
use crate::telling::{names_of, out_of, sites_of};
use bounds_text::report;
use control_doc::Control;
use refusal_lines::Refusal;
use run_inputs::Input;
use std::alloc::Global;
use std::thread::Threads;

/// The texts of a combination.
#[derive(Drop)]
pub struct Combined {
    /// The combined file; empty where it isn't asked for.
    pub out: Vec<u8>,
    /// The report of bounds.
    pub report: Vec<u8>,
}

// How many threads work: as many as the control says, from 1 to 16.
fn workers_of(control: &Control) -> usize
    ensures some { 1 ≤ result }
    ensures few { result ≤ 16 }
{
    control.workers.max(1).min(16)
}

/// The combination of files that were read, in the order of their names. The combined file is made where it is asked for.
///
/// # Errors
///
/// The first refusal, in this order: UnitClash for the least name with two units; for each file in turn Block, Unmatched, Empty, NoWeight,
/// Range, Pivot, Condition, Residual and Defect, and then the Range of its way to the common a priori values; for each group TooMany, and
/// then TooMany for the whole stack; UnmatchedSite and Range of the datum; then the rules' Range, Pivot, Condition, Residual and Defect; or
/// want of memory.
pub fn combine_core<R: Threads + Sync>(
    rt: &R,
    alloc: Global,
    control: &Control,
    inputs: Vec<Input<'_>>,
    whole: bool,
) -> Result<Combined, Refusal>
    requires valid { All (λ input. IsValid (doc_view input.doc)) inputs.items }
    requires weights { All (λ input. IsPositiveAndShort (input_view input).plan.weight) inputs.items }
    requires few { length inputs.items ≤ 64 }
    requires positive { IfSome (control_view control.now).datum HasPositiveSigmas }
    requires created { IsMoment control.now.created }
    ensures combined { IfOk result (λ combined. IsCombined whole (control_view control.now) (map input_view inputs.entry.items) (Ok (texts_view combined))) }
    ensures certified { IfOk result (λ combined. IsCertifiedReport (control_view control.now) (map input_view inputs.entry.items) combined.report.items) }
    ensures refused { IfErr result (IfTold (λ refusal. IsCombined whole (control_view control.now) (map input_view inputs.entry.items) (Err refusal))) }
    ensures no_fault { IfErr result (λ refusal. status_of refusal ≢ 5) }
{
    let workers = workers_of(control);
    let files = names_of(alloc, &inputs)?;
    let sites = sites_of(alloc, &inputs)?;
    let free = free_stack(rt, alloc, control, inputs, workers)?;
    let added = with_datum(alloc, control.datum.as_ref(), &free)?;
    let neq = solved_stack(&free, &added);
    let numbers = solved(rt, alloc, neq, workers)?;
    let report = report(alloc, &neq.names, &neq.units, &numbers)?;
    let out = out_of(alloc, whole, control, &files, &sites, &free, &numbers)?;
    Ok(Combined { out, report })
}
