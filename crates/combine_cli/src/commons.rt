//! One a priori value and one unit for each name.

ghost use Rattle.std.specs.Prelude.{◌≡◌, ◌≢◌, ◌^◌, List, All, IfOk, IfErr, Ok, Err, map, flat_map};
ghost use Rattle.decimal_e.specs.Fractions.{IsAtMost};
ghost use Rattle.param_ids.specs.Plain.{PlainId};
ghost use Rattle.snx_blocks.specs.Documents.{IsValid};
ghost use Rattle.snx_blocks.specs.Views.{doc_view};
ghost use Rattle.snx_rows.specs.declared.rows.Row.{Row as PlainRow};
ghost use Rattle.stated_order.specs.Steps.{Renamed};
ghost use Rattle.apriori_shift.specs.Answers.{HasFirstRows, IfClash, common_value};
ghost use Rattle.apriori_shift.specs.Common.{IsCommon};
ghost use Rattle.refusal_lines.specs.declared.refusal.Refusal.TheVariants.{UnitClash};
ghost use Rattle.refusal_lines.specs.Refusals.{status_of};
ghost use Rattle.run_inputs.specs.Views.{input_view, IfTold};
ghost use Rattle.combine_cli.specs.Combination.{apriori_rows, is_reference, counted_rows, HaveCommon};

use apriori_shift::{Apriori, CommonError, common};
use refusal_lines::Refusal;
use run_inputs::Input;
use snx_blocks::Doc;
use snx_rows::Row;
use std::alloc::{AllocError, Global};

// The a priori rows of a document, or none.
fn apriori_of(doc: &Doc) -> &[Row]
    ensures { result.now ≡ apriori_rows (doc_view doc.now).apriori }
{
    match &doc.apriori {
        Some(rows) => rows.as_slice(),
        None => &[],
    }
}

// Whether the file is the reference.
fn is_reference(reference: &str, input: &Input<'_>) -> bool
    ensures { result ≡ is_reference reference.now (input_view input.now) }
{
    input.plan.name.as_str() == reference
}

// The rows of each file, those of the reference first.
fn counted_files<'a>(
    alloc: Global,
    reference: &str,
    inputs: &'a [Input<'_>],
) -> Result<Vec<&'a [Row]>, AllocError>
    ensures { IfOk result (λ files. flat_map (λ file. file.now) files.items ≡ counted_rows reference.now (map input_view inputs.now)) }
{
    let mut files = Vec::new(alloc);
    for input in inputs {
        if is_reference(reference, input) {
            files.push(apriori_of(&input.doc))?;
        }
    }
    for input in inputs {
        files.push(apriori_of(&input.doc))?;
    }
    Ok(files)
}

// The refusal of files without common values.
fn refusal_of_common(error: CommonError) -> Refusal
    ensures told { (rows : List PlainRow) → IfClash (λ id. IsCommon rows (Err id)) error → IfTold (λ refusal. Renamed UnitClash (IsCommon rows) (Err refusal)) result }
    ensures no_fault { status_of result ≢ 5 }
{
    match error {
        CommonError::UnitClash { id } => Refusal::UnitClash { id },
        CommonError::Memory => Refusal::Memory,
    }
}

// The common a priori values of the files, or the refusal of a name with two units.
pub fn common_of(alloc: Global, reference: &str, inputs: &[Input<'_>]) -> Result<Apriori, Refusal>
    requires valid { All (λ input. IsValid (doc_view input.doc)) inputs.now }
    ensures common { IfOk result (λ base. HaveCommon reference.now (map input_view inputs.now) (Ok (counted_rows reference.now (map input_view inputs.now)))) }
    ensures first { IfOk result (λ base. HasFirstRows base (counted_rows reference.now (map input_view inputs.now))) }
    ensures small { IfOk result (λ base. (id : PlainId) → IsAtMost (10 ^ 12) (common_value base id)) }
    ensures refused { IfErr result (IfTold (λ refusal. HaveCommon reference.now (map input_view inputs.now) (Err refusal))) }
    ensures no_fault { IfErr result (λ refusal. status_of refusal ≢ 5) }
{
    let files = counted_files(alloc, reference, inputs)?;
    match common(alloc, &files) {
        Ok(base) => Ok(base),
        Err(error) => Err(refusal_of_common(error)),
    }
}
