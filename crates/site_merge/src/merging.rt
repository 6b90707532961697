//! Sites and moments together.

ghost use Rattle.std.specs.Prelude.{IfOk, map};
ghost use Rattle.snx_blocks.specs.Views.{doc_view};
ghost use Rattle.site_merge.specs.Merged.{IsMerge};
ghost use Rattle.site_merge.specs.Answers.{sites_view};

use crate::epochs::merged_epochs;
use crate::lines::merged_lines;
use snx_blocks::Doc;
use snx_sites::{EpochRow, SiteRow};
use std::alloc::{AllocError, Global};

/// The sites and the moments of several texts.
#[derive(Drop)]
pub struct Sites {
    /// Each site once, by code and point.
    pub lines: Vec<SiteRow>,
    /// Each solution at a site once, by code, point and solution.
    pub epochs: Vec<EpochRow>,
}

/// The sites and the moments of some documents, which stand in the order of their files' names.
///
/// Of each code and point the first line counts. Of each code, point and solution the technique is that of the first row, the start is
/// the least and the end the greatest of its rows that aren't Never, or Never where there is none, and the mean is half way between
/// them; the documents' own means don't count.
///
/// # Errors
///
/// Want of memory.
pub fn merge(alloc: Global, docs: &[&Doc]) -> Result<Sites, AllocError>
    ensures { IfOk result (λ sites. IsMerge (map (λ doc. doc_view doc.now) docs.now) (sites_view sites)) }
{
    let lines = merged_lines(alloc, docs)?;
    let epochs = merged_epochs(alloc, docs)?;
    Ok(Sites { lines, epochs })
}
