//! Texts to documents.

ghost use Rattle.std.specs.Prelude.{◌≡◌, ◌≤◌, ◌^◌, IfOk, length, map};
ghost use Rattle.stated_order.specs.Steps.{IsOne, Through};
ghost use Rattle.snx_lines.specs.Views.{block_view};
ghost use Rattle.snx_rows.specs.Blocks.{Answers};
ghost use Rattle.snx_blocks.specs.Documents.{IsDocument, IsValid, IsSectionRead, IsBlockRead, empty_doc, whole};
ghost use Rattle.snx_blocks.specs.Parts.{IsKept};
ghost use Rattle.snx_blocks.specs.declared.sections.Section.TheVariants.{EstimateMatrix, AprioriMatrix, NormalMatrix};
ghost use Rattle.snx_blocks.specs.Views.{doc_view};

use crate::blocks::{new_epochs, new_matrix, new_rows, new_sites};
use crate::documents::Doc;
use crate::sections::{Section, section_of};
use snx_lines::{Block, FrameFault, framing};
use snx_matrices::{normal_heading, solution_heading};
use snx_rows::{Cause, DocError, LineFault, Shape};
use std::alloc::Global;
use std::thread::Threads;

/// Puts into the document the matrix over the estimates that a block says.
fn put_estimate_matrix(alloc: Global, doc: &mut Doc, block: &Block) -> Result<(), DocError>
    requires { IsKept (doc_view doc.old) }
    ensures reads { Answers (λ _. doc_view doc.new) (IsSectionRead EstimateMatrix (doc_view doc.old) (block_view block.now)) result }
    ensures kept { IfOk result (λ _. IsKept (doc_view doc.new)) }
{
    let stood_before = doc.estimate_matrix.is_some();
    let heading = solution_heading(&block.title);
    let matrix = new_matrix(
        alloc,
        stood_before,
        doc.estimates.as_deref(),
        heading,
        block,
    )?;
    doc.estimate_matrix = Some(matrix);
    Ok(())
}

/// Puts into the document the matrix over the a priori values that a block says.
fn put_apriori_matrix(alloc: Global, doc: &mut Doc, block: &Block) -> Result<(), DocError>
    requires { IsKept (doc_view doc.old) }
    ensures reads { Answers (λ _. doc_view doc.new) (IsSectionRead AprioriMatrix (doc_view doc.old) (block_view block.now)) result }
    ensures kept { IfOk result (λ _. IsKept (doc_view doc.new)) }
{
    let stood_before = doc.apriori_matrix.is_some();
    let heading = solution_heading(&block.title);
    let matrix = new_matrix(alloc, stood_before, doc.apriori.as_deref(), heading, block)?;
    doc.apriori_matrix = Some(matrix);
    Ok(())
}

/// Puts into the document the matrix over the right sides that a block says.
fn put_normal_matrix(alloc: Global, doc: &mut Doc, block: &Block) -> Result<(), DocError>
    requires { IsKept (doc_view doc.old) }
    ensures reads { Answers (λ _. doc_view doc.new) (IsSectionRead NormalMatrix (doc_view doc.old) (block_view block.now)) result }
    ensures kept { IfOk result (λ _. IsKept (doc_view doc.new)) }
{
    let stood_before = doc.normal_matrix.is_some();
    let heading = normal_heading(&block.title);
    let matrix = new_matrix(alloc, stood_before, doc.vector.as_deref(), heading, block)?;
    doc.normal_matrix = Some(matrix);
    Ok(())
}

/// Puts into the document what a block of this section says.
fn put(alloc: Global, doc: &mut Doc, section: Section, block: &Block) -> Result<(), DocError>
    requires { IsKept (doc_view doc.old) }
    ensures reads { Answers (λ _. doc_view doc.new) (IsSectionRead section (doc_view doc.old) (block_view block.now)) result }
    ensures kept { IfOk result (λ _. IsKept (doc_view doc.new)) }
{
    match section {
        Section::Estimates => {
            let estimates = new_rows(alloc, doc.estimates.is_some(), Shape::Value, block)?;
            doc.estimates = Some(estimates);
            Ok(())
        }
        Section::Apriori => {
            let apriori = new_rows(alloc, doc.apriori.is_some(), Shape::Value, block)?;
            doc.apriori = Some(apriori);
            Ok(())
        }
        Section::Vector => {
            let vector = new_rows(alloc, doc.vector.is_some(), Shape::Vector, block)?;
            doc.vector = Some(vector);
            Ok(())
        }
        Section::Sites => {
            let sites = new_sites(alloc, doc.sites.is_some(), block)?;
            doc.sites = Some(sites);
            Ok(())
        }
        Section::Epochs => {
            let epochs = new_epochs(alloc, doc.epochs.is_some(), block)?;
            doc.epochs = Some(epochs);
            Ok(())
        }
        Section::EstimateMatrix => put_estimate_matrix(alloc, doc, block),
        Section::AprioriMatrix => put_apriori_matrix(alloc, doc, block),
        Section::NormalMatrix => put_normal_matrix(alloc, doc, block),
    }
}

/// Puts into the document what a block says, if it is read.
fn put_block(alloc: Global, doc: &mut Doc, block: &Block) -> Result<(), DocError>
    requires { IsKept (doc_view doc.old) }
    ensures reads { Answers (λ _. doc_view doc.new) (IsBlockRead (doc_view doc.old) (block_view block.now)) result }
    ensures kept { IfOk result (λ _. IsKept (doc_view doc.new)) }
{
    match section_of(block.name) {
        Some(section) => put(alloc, doc, section, block),
        None => Ok(()),
    }
}

/// The document of some blocks.
fn doc_of(alloc: Global, blocks: &[Block]) -> Result<Doc, DocError>
    ensures reads { Answers doc_view (Through IsBlockRead empty_doc (map block_view blocks.now)) result }
    ensures kept { IfOk result (λ doc. IsKept (doc_view doc)) }
{
    let mut doc = Doc::empty();
    for block in blocks {
        put_block(alloc, &mut doc, block)?;
    }
    Ok(doc)
}

/// The document, where the frame of the text is whole.
fn whole(stop: Option<FrameFault>, doc: Doc) -> Result<Doc, DocError>
    ensures reads { Answers doc_view (λ r. r ≡ whole stop (doc_view doc)) result }
    ensures same { IfOk result (λ other. other ≡ doc) }
{
    match stop {
        Some(fault) => Err(DocError::Line(LineFault {
            line: fault.line,
            cause: Cause::Frame(fault.cause),
        })),
        None => Ok(doc),
    }
}

/// The document that a text of at most 64 MiB is.
///
/// # Errors
///
/// The first bad line of the text, with its cause; or want of memory.
pub fn read_doc<R: Threads + Sync>(rt: &R, alloc: Global, text: &[u8]) -> Result<Doc, DocError>
    requires { length text.now ≤ 2 ^ 26 }
    ensures reads { Answers doc_view (IsDocument text.now) result }
    ensures valid { IfOk result (λ doc. IsValid (doc_view doc)) }
    // each text has one document at most or one first bad line, and never both
    ensures alone { IsOne (IsDocument text.now) }
{
    let framing = framing(alloc, text)?;
    let doc = doc_of(alloc, &framing.blocks)?;
    whole(framing.stop, doc)
}
