//! The blocks of which the normal equations of a file are made.

ghost use Rattle.std.specs.Prelude.{◌≡◌, IfOk, Some};
ghost use Rattle.snx_rows.specs.Blocks.{AreSound};
ghost use Rattle.snx_rows.specs.declared.rows.Shape.TheVariants.{Value};
ghost use Rattle.snx_blocks.specs.Documents.{IsValid};
ghost use Rattle.snx_blocks.specs.Views.{doc_view};
ghost use Rattle.control_doc.specs.Views.{plan_view};
ghost use Rattle.recover_solution.specs.Views.{IsRead, solution_view};
ghost use Rattle.file_recovery.specs.Files.{form_of, AreEquations, IsSolution, IsSource};
ghost use Rattle.file_recovery.specs.Files as plain;
ghost use Rattle.file_recovery.specs.Parts.{Gives, AreRead, IsReadSource, equations_view, source_view};
ghost use Rattle.file_recovery.specs.declared.faults.FileFault.TheVariants.{MissingBlock};

use crate::faults::FileFault;
use crate::reports::reported;
use control_doc::{FilePlan, Form, Held};
use recover_solution::Solution;
use snx_blocks::{Doc, Section};
use snx_matrices::Cell;
use snx_rows::Row;

/// The blocks of normal equations.
#[derive(Clone, Copy)]
pub(crate) struct Equations<'a> {
    /// The a priori values.
    pub(crate) apriori: &'a [Row],
    /// The right sides.
    pub(crate) vector: &'a [Row],
    /// The elements of the matrix, over the rows of the right sides.
    pub(crate) cells: &'a [Cell],
}

/// The blocks of which normal equations are made.
#[derive(Clone, Copy)]
pub(crate) enum FileSource<'a> {
    /// Those of normal equations.
    Equations(Equations<'a>),
    /// Those of a solution.
    Estimated(Solution<'a>),
}

/// The form in which a file is taken: where the plan has none, from its normal equations if it has the right side and the matrix of
/// some, and else from its solution.
fn form_of(form: Form, doc: &Doc) -> Form
    ensures { result ≡ form_of form (doc_view doc.now) }
{
    match form {
        Form::Auto => match (&doc.vector, &doc.normal_matrix) {
            (Some(_), Some(_)) => Form::Neq,
            _ => Form::Solution,
        },
        Form::Neq => Form::Neq,
        Form::Solution => Form::Solution,
    }
}

/// The file lacks this block.
fn missing(block: Section) -> FileFault
    ensures { result ≡ MissingBlock block }
{
    FileFault::MissingBlock { block }
}

/// The blocks of the normal equations of a file with these a priori values, or the first that is missing.
fn equations_in<'a>(apriori: &'a [Row], doc: &'a Doc) -> Result<Equations<'a>, FileFault>
    requires valid { IsValid (doc_view doc.now) }
    requires apriori { AreSound Value apriori.now }
    ensures blocks { Gives (λ blocks. plain.Equations (equations_view blocks)) (AreEquations (doc_view doc.now) apriori.now) result }
    ensures read { IfOk result (λ blocks. AreRead (equations_view blocks)) }
{
    let Some(vector) = &doc.vector else {
        return Err(missing(Section::Vector));
    };
    let Some(matrix) = &doc.normal_matrix else {
        return Err(missing(Section::NormalMatrix));
    };
    Ok(Equations {
        apriori,
        vector,
        cells: &matrix.cells,
    })
}

/// The blocks of the solution of a file with these a priori values, or the first that is missing.
fn solution_in<'a>(
    choice: Held,
    apriori: &'a [Row],
    doc: &'a Doc,
) -> Result<Solution<'a>, FileFault>
    requires valid { IsValid (doc_view doc.now) }
    requires apriori { (doc_view doc.now).apriori ≡ Some apriori.now }
    ensures blocks { Gives (λ blocks. plain.Estimated (solution_view blocks)) (IsSolution choice (doc_view doc.now) apriori.now) result }
    ensures read { IfOk result (λ blocks. IsRead (solution_view blocks)) }
{
    let Some(estimates) = &doc.estimates else {
        return Err(missing(Section::Estimates));
    };
    let Some(matrix) = &doc.estimate_matrix else {
        return Err(missing(Section::EstimateMatrix));
    };
    let constraint = reported(choice, doc)?;
    Ok(Solution {
        apriori,
        estimates,
        content: matrix.content,
        cells: &matrix.cells,
        constraint,
    })
}

/// The blocks of a file by its plan: the a priori values first.
pub(crate) fn source_of<'a>(plan: &FilePlan, doc: &'a Doc) -> Result<FileSource<'a>, FileFault>
    requires { IsValid (doc_view doc.now) }
    ensures source { Gives source_view (IsSource (plan_view plan.now) (doc_view doc.now)) result }
    ensures read { IfOk result (λ source. IsReadSource (source_view source)) }
{
    let Some(apriori) = &doc.apriori else {
        return Err(missing(Section::Apriori));
    };
    match form_of(plan.form, doc) {
        Form::Neq => match equations_in(apriori, doc) {
            Ok(blocks) => Ok(FileSource::Equations(blocks)),
            Err(fault) => Err(fault),
        },
        Form::Auto | Form::Solution => match solution_in(plan.held, apriori, doc) {
            Ok(blocks) => Ok(FileSource::Estimated(blocks)),
            Err(fault) => Err(fault),
        },
    }
}
