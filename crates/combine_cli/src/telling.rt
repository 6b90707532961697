//! What the combined file tells beside the numbers of the stack, and its text.

ghost use Rattle.std.specs.Prelude.{◌≡◌, Bool, List, All, IfOk, length, map};
ghost use Rattle.snx_epoch.specs.Moments.{IsMoment};
ghost use Rattle.site_merge.specs.Answers.{sites_view};
ghost use Rattle.site_merge.specs.Merged.{IsMerge};
ghost use Rattle.bounds_report.specs.Printing.{HasSmallDeviation};
ghost use Rattle.control_doc.specs.Views.{control_view};
ghost use Rattle.neq_stack.specs.Neqs.{IsSound, neq_view};
ghost use Rattle.stack_rules.specs.Rules.{numbers_in};
ghost use Rattle.run_inputs.specs.Inputs.{PlainInput};
ghost use Rattle.run_inputs.specs.Views.{input_view};
ghost use Rattle.combine_cli.specs.Combination.{IsOutIf};
ghost use Rattle.combine_cli.specs.Parts.{names_in, docs_in};

use control_doc::Control;
use neq_stack::Neq;
use run_inputs::Input;
use site_merge::{Sites, merge};
use snx_write::combined;
use stack_rules::Solved;
use std::alloc::{AllocError, Global};

// The names of the files.
pub fn names_of<'a>(alloc: Global, inputs: &[Input<'a>]) -> Result<Vec<&'a str>, AllocError>
    ensures { IfOk result (λ names. map (λ name. name.now) names.items ≡ names_in (map input_view inputs.now)) }
{
    let mut names = Vec::new(alloc);
    for input in inputs {
        names.push(input.plan.name.as_str())?;
    }
    Ok(names)
}

// The sites and the moments of the files.
pub fn sites_of(alloc: Global, inputs: &[Input<'_>]) -> Result<Sites, AllocError>
    ensures { IfOk result (λ sites. IsMerge (docs_in (map input_view inputs.now)) (sites_view sites)) }
{
    let mut docs = Vec::new(alloc);
    for input in inputs {
        docs.push(&input.doc)?;
    }
    merge(alloc, &docs)
}

// The combined file, where it is asked for.
pub fn out_of(
    alloc: Global,
    whole: bool,
    control: &Control,
    files: &[&str],
    sites: &Sites,
    free: &Neq<16>,
    solved: &Solved,
) -> Result<Vec<u8>, AllocError>
    requires created { IsMoment control.now.created }
    requires sound { IsSound (neq_view free.now) }
    requires rows { length solved.now.rows.items ≡ length free.now.names }
    requires deviations { All HasSmallDeviation solved.now.rows.items }
    ensures { (inputs : List PlainInput) → map (λ name. name.now) files.now ≡ names_in inputs → IsMerge (docs_in inputs) (sites_view sites.now)
        → IfOk result (λ out. IsOutIf whole (control_view control.now) inputs (neq_view free.now) (numbers_in solved.now) out.items) }
{
    if whole {
        combined(alloc, control, files, sites, free, &solved.rows)
    } else {
        Ok(Vec::new(alloc))
    }
}
