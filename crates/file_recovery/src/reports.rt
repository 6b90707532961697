//! The constraints that a file reports and a plan removes.

ghost use Rattle.std.specs.Prelude.{◌≡◌};
ghost use Rattle.snx_blocks.specs.Views.{doc_view};
ghost use Rattle.recover_solution.specs.Views.{constraint_view};
ghost use Rattle.file_recovery.specs.Files.{auto_in, IsReported};
ghost use Rattle.file_recovery.specs.Parts.{Gives};

use crate::faults::FileFault;
use control_doc::Held;
use recover_solution::Constraint;
use snx_blocks::{Doc, Section};

/// The constraints that are removed without a choice: those of the a priori matrix where there is one, and else none.
fn automatic(doc: &Doc) -> Constraint<'_>
    ensures { constraint_view result ≡ auto_in (doc_view doc.now).apriori_matrix }
{
    match &doc.apriori_matrix {
        None => Constraint::Free,
        Some(matrix) => Constraint::Matrix(matrix.content, &matrix.cells),
    }
}

/// The constraints that are removed by this choice, or the block that they need.
pub(crate) fn reported(choice: Held, doc: &Doc) -> Result<Constraint<'_>, FileFault>
    ensures { Gives constraint_view (IsReported choice (doc_view doc.now)) result }
{
    match choice {
        Held::Auto => Ok(automatic(doc)),
        Held::Matrix => match &doc.apriori_matrix {
            None => Err(FileFault::MissingBlock {
                block: Section::AprioriMatrix,
            }),
            Some(matrix) => Ok(Constraint::Matrix(matrix.content, &matrix.cells)),
        },
        Held::Sigma => Ok(Constraint::Sigmas),
        Held::Nothing => Ok(Constraint::Free),
    }
}
