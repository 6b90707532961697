//! The lines of SITE/ID.

ghost use Rattle.std.specs.Prelude.{◌≡◌, map, Ok, IfOk};
ghost use Rattle.stated_order.specs.Steps.{Then};
ghost use Rattle.blanks.specs.Blanks.{end_trimmed};
ghost use Rattle.snx_lines.specs.Views.{line_view};
ghost use Rattle.snx_rows.specs.Blocks.{Answers};
ghost use Rattle.snx_sites.specs.Sites.{IsCodeOn, IsPointOn, IsSite, AreSites, OneSites};
ghost use Rattle.snx_sites.specs.Views.{site_view};

use crate::fields::{code_on, point_on};
use blanks::trim_end;
use snx_lines::Line;
use snx_rows::{Cause, DocError, LineFault};
use std::alloc::{AllocError, Global};

/// A site.
#[derive(Debug, Drop)]
pub struct SiteRow {
    /// The code of the site, with blanks behind it.
    pub code: [u8; 4],
    /// The point of the site, with blanks behind it.
    pub point: [u8; 2],
    /// The text of its line, without blanks at its end. It may have any bytes.
    pub text: Vec<u8>,
}

/// The code and the point on a line.
fn names_on(line: &Line) -> Result<([u8; 4], [u8; 2]), Cause>
    ensures { Then (IsCodeOn line.now.text.now) (λ code. Then (IsPointOn line.now.text.now) (λ point names. names ≡ Ok (code, point))) result }
{
    let code = code_on(line)?;
    let point = point_on(line)?;
    Ok((code, point))
}

/// The text of a line, without blanks at its end.
fn text_of(alloc: Global, line: &Line) -> Result<Vec<u8>, AllocError>
    ensures { IfOk result (λ text. text.items ≡ end_trimmed line.now.text.now) }
{
    let mut text = Vec::new(alloc);
    text.extend_from_slice(trim_end(line.text))?;
    Ok(text)
}

/// The site that a line is.
fn read_line(alloc: Global, line: &Line) -> Result<SiteRow, DocError>
    ensures { Answers site_view (IsSite (line_view line.now)) result }
{
    match names_on(line) {
        Ok(names) => {
            let code = names.0;
            let point = names.1;
            let text = text_of(alloc, line)?;
            Ok(SiteRow { code, point, text })
        }
        Err(cause) => Err(DocError::Line(LineFault {
            line: line.number,
            cause,
        })),
    }
}

/// The sites that the lines of data of a block are.
///
/// # Errors
///
/// The first bad line, with its cause: Field for the code, then for the point; or want of memory.
pub fn read_sites(alloc: Global, body: &[Line]) -> Result<Vec<SiteRow>, DocError>
    ensures { Answers (λ sites. map site_view sites.items) (AreSites (map line_view body.now)) result }
{
    let mut sites = Vec::new(alloc);
    for line in body {
        let site = read_line(alloc, line)?;
        sites.push(site)?;
    }
    Ok(sites)
}

/// A block of sites has one reading at most, or one bad line, and never both.
pub fn one_sites()
    ensures { OneSites }
{}
