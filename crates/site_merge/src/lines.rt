//! The lines of SITE/ID of all documents, each site once.

ghost use Rattle.std.specs.Prelude.{◌≡◌, ◌++◌, ◌∷◌, [], List, IfOk, map, unwrap_or};
ghost use Rattle.std.specs.BTreeMap.{values, IsOrdered};
ghost use Rattle.snx_sites.specs.Plain.{PlainSite};
ghost use Rattle.snx_sites.specs.Views.{site_view};
ghost use Rattle.snx_blocks.specs.Views.{doc_view};
ghost use Rattle.site_merge.specs.Merged.{AreMergedSites, all_sites};
ghost use Rattle.site_merge.specs.Keyed.{HasFirstLines, site_name_cmp};

use crate::names::SiteName;
use snx_blocks::Doc;
use snx_sites::SiteRow;
use std::alloc::{AllocError, Global};
use std::collections::BTreeMap;

/// Of each site the line that counts.
type LineMap<'a> = BTreeMap<SiteName, &'a SiteRow>;

/// Adds a line to those before it: it counts if it is the first of its site.
fn add_line<'a>(table: &mut LineMap<'a>, line: &'a SiteRow) -> Result<(), AllocError>
    ensures { (before : List PlainSite) → HasFirstLines table.old before
        → IfOk result (λ _. HasFirstLines table.new (before ++ site_view line.now ∷ [])) }
{
    let name = SiteName::of(line);
    if table.contains_key(&name) {
        return Ok(());
    }
    if table.insert(name, line).is_err() {
        return Err(AllocError);
    }
    Ok(())
}

/// Adds the lines of a document to those before them.
fn add_lines<'a>(table: &mut LineMap<'a>, lines: &'a [SiteRow]) -> Result<(), AllocError>
    ensures { (before : List PlainSite) → HasFirstLines table.old before
        → IfOk result (λ _. HasFirstLines table.new (before ++ map site_view lines.now)) }
{
    for line in lines {
        add_line(table, line)?;
    }
    Ok(())
}

/// The lines of a document; none where it lacks the block.
fn lines_of(doc: &Doc) -> &[SiteRow]
    ensures { map site_view result.now ≡ unwrap_or (doc_view doc.now).sites [] }
{
    match &doc.sites {
        Some(lines) => lines,
        None => &[],
    }
}

/// Of each site of some documents the first line.
fn first_lines<'a>(alloc: Global, docs: &[&'a Doc]) -> Result<LineMap<'a>, AllocError>
    ensures { IfOk result (λ table. HasFirstLines table (all_sites (map (λ doc. doc_view doc.now) docs.now))) }
{
    let mut table = BTreeMap::new(alloc);
    for doc in docs {
        add_lines(&mut table, lines_of(doc))?;
    }
    Ok(table)
}

/// A line once more.
fn copy_of(alloc: Global, line: &SiteRow) -> Result<SiteRow, AllocError>
    ensures { IfOk result (λ copy. site_view copy ≡ site_view line.now) }
{
    let mut text = Vec::new(alloc);
    text.extend_from_slice(&line.text)?;
    Ok(SiteRow {
        code: line.code,
        point: line.point,
        text,
    })
}

/// The lines that count, in the order of their sites.
fn lines_in(alloc: Global, table: &LineMap) -> Result<Vec<SiteRow>, AllocError>
    ensures lines { IfOk result (λ lines. map site_view lines.items ≡ map (λ line. site_view line.now) (values table.now)) }
    ensures order { IsOrdered site_name_cmp table.now }
{
    let mut lines = Vec::new(alloc);
    for line in table.values() {
        let copy = copy_of(alloc, line)?;
        lines.push(copy)?;
    }
    Ok(lines)
}

/// The lines of some documents, in order, each site once with its first line.
pub(crate) fn merged_lines(alloc: Global, docs: &[&Doc]) -> Result<Vec<SiteRow>, AllocError>
    ensures { IfOk result (λ lines. AreMergedSites (all_sites (map (λ doc. doc_view doc.now) docs.now)) (map site_view lines.items)) }
{
    let table = first_lines(alloc, docs)?;
    lines_in(alloc, &table)
}
