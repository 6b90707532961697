//! What single blocks say.

ghost use Rattle.std.specs.Prelude.{◌≡◌, IfOk, Option, Err, length, is_some, map};
ghost use Rattle.std.specs.Option.{option_copied};
ghost use Rattle.stated_order.specs.Steps.{Then};
ghost use Rattle.snx_lines.specs.Views.{line_view, block_view};
ghost use Rattle.snx_rows.specs.Blocks.{Answers, AreRows, AreSound};
ghost use Rattle.snx_rows.specs.declared.rows.Shape.{Shape};
ghost use Rattle.snx_sites.specs.Plain.{PlainSite, PlainEpochRow};
ghost use Rattle.snx_sites.specs.Sites.{AreSites, AreEpochs};
ghost use Rattle.snx_sites.specs.Views.{site_view};
ghost use Rattle.snx_blocks.specs.Documents.{PlainMatrix, IsFirst, IsMatrix};
ghost use Rattle.snx_blocks.specs.Parts.{bad_title, IsNewBlock, HasSoundRows, IsMatrixOver};
ghost use Rattle.snx_blocks.specs.Views.{matrix_view};

use crate::documents::Matrix;
use snx_lines::{Block, Line};
use snx_matrices::{Heading, read_elements};
use snx_rows::{Cause, DocError, LineFault, Row, Shape, read_rows};
use snx_sites::{EpochRow, SiteRow, read_epochs, read_sites};
use std::alloc::Global;

/// The refusal of a title for a cause.
fn refusal(title: &Line, cause: Cause) -> DocError
    ensures { result ≡ bad_title (line_view title.now) cause }
{
    DocError::Line(LineFault {
        line: title.number,
        cause,
    })
}

/// The rows of a block, where none of its name stood before it.
pub(crate) fn new_rows(
    alloc: Global,
    stood_before: bool,
    shape: Shape,
    block: &Block,
) -> Result<Vec<Row>, DocError>
    ensures rows { Answers (λ rows. rows.items) (IsNewBlock stood_before (block_view block.now) (AreRows shape)) result }
    ensures sound { IfOk result (λ rows. AreSound shape rows.items) }
{
    if stood_before {
        return Err(refusal(&block.title, Cause::Repeated));
    }
    read_rows(alloc, shape, &block.body)
}

/// The sites of a block, where none of its name stood before it.
pub(crate) fn new_sites(
    alloc: Global,
    stood_before: bool,
    block: &Block,
) -> Result<Vec<SiteRow>, DocError>
    ensures { Answers (λ sites. map site_view sites.items) (IsNewBlock stood_before (block_view block.now) AreSites) result }
{
    if stood_before {
        return Err(refusal(&block.title, Cause::Repeated));
    }
    read_sites(alloc, &block.body)
}

/// The moments of a block, where none of its name stood before it.
pub(crate) fn new_epochs(
    alloc: Global,
    stood_before: bool,
    block: &Block,
) -> Result<Vec<EpochRow>, DocError>
    ensures { Answers (λ epochs. epochs.items) (IsNewBlock stood_before (block_view block.now) AreEpochs) result }
{
    if stood_before {
        return Err(refusal(&block.title, Cause::Repeated));
    }
    read_epochs(alloc, &block.body)
}

/// The matrix of a block, where none of its name stood before it, over the rows of its block of rows.
pub(crate) fn new_matrix(
    alloc: Global,
    stood_before: bool,
    rows: Option<&[Row]>,
    heading: Option<Heading>,
    block: &Block,
) -> Result<Matrix, DocError>
    requires { HasSoundRows (option_copied rows) }
    ensures matrix { (before : Option PlainMatrix) → is_some before ≡ stood_before
        → Answers matrix_view (IsMatrix before (option_copied rows.entry) heading (block_view block.now)) result }
    ensures kept { IfOk result (λ matrix. IsMatrixOver (option_copied rows.entry) (matrix_view matrix)) }
{
    match (stood_before, rows, heading) {
        (true, _, _) => Err(refusal(&block.title, Cause::Repeated)),
        (false, None, _) => Err(refusal(&block.title, Cause::MissingBlock)),
        (false, Some(_), None) => Err(refusal(&block.title, Cause::Field)),
        (false, Some(rows), Some(heading)) => {
            let cells = read_elements(alloc, heading.triangle, rows, &block.body)?;
            Ok(Matrix {
                content: heading.content,
                cells,
            })
        }
    }
}
