//! The lines of SOLUTION/EPOCHS.

ghost use Rattle.std.specs.Prelude.{map};
ghost use Rattle.snx_lines.specs.Views.{line_view};
ghost use Rattle.snx_rows.specs.Blocks.{Answers};
ghost use Rattle.snx_sites.specs.Sites.{AreMomentsOn, IsEpochRow, AreEpochs, OneEpochs};

use crate::fields::{code_on, moment_in, point_on, soln_on, technique_on};
use snx_epoch::Epoch;
use snx_lines::Line;
use snx_rows::{Cause, DocError, LineFault};
use std::alloc::Global;
use std::marker::Model;

/// The moments of a solution at a site. Texts stand at the left, with blanks behind them.
#[derive(Clone, Copy, Debug)]
pub struct EpochRow {
    /// The code of the site.
    pub code: [u8; 4],
    /// The point of the site.
    pub point: [u8; 2],
    /// The solution; a number has no leading zeros.
    pub soln: [u8; 4],
    /// The technique; a space where the line has none.
    pub technique: u8,
    /// When the data start.
    pub start: Epoch,
    /// When they end.
    pub end: Epoch,
    /// Their mean.
    pub mean: Epoch,
}

impl Model for EpochRow {
    ghost use Rattle.snx_epoch.specs.Moments.{IsMoment};
    ghost use Rattle.snx_sites.specs.Plain.{PlainEpochRow};

    ghost Value = { PlainEpochRow };

    ghost view = { λ row. record { code = row.code; point = row.point; soln = row.soln; technique = row.technique; start = row.start; end = row.end; mean = row.mean } };

    ghost invariant = { λ row. IsMoment row.start × IsMoment row.end × IsMoment row.mean };

    ghost inverse = { λ row. record { code = row.code; point = row.point; soln = row.soln; technique = row.technique; start = row.start; end = row.end; mean = row.mean } };
}

/// The moments that a line gives, or the first cause for which it gives none.
fn moments_on(line: &Line) -> Result<EpochRow, Cause>
    ensures { AreMomentsOn line.now.text.now result }
{
    let code = code_on(line)?;
    let point = point_on(line)?;
    let soln = soln_on(line)?;
    let technique = technique_on(line)?;
    let start = moment_in(line, 17, 28)?;
    let end = moment_in(line, 30, 41)?;
    let mean = moment_in(line, 43, 54)?;
    Ok(EpochRow {
        code,
        point,
        soln,
        technique,
        start,
        end,
        mean,
    })
}

/// The moments that a line gives, or its fault.
fn read_line(line: &Line) -> Result<EpochRow, LineFault>
    ensures { IsEpochRow (line_view line.now) result }
{
    match moments_on(line) {
        Ok(row) => Ok(row),
        Err(cause) => Err(LineFault {
            line: line.number,
            cause,
        }),
    }
}

/// The moments that the lines of data of a block give.
///
/// # Errors
///
/// The first bad line, with its cause: Field for the code, the point, the solution and the technique, then Epoch for the start, the end
/// and the mean; or want of memory.
pub fn read_epochs(alloc: Global, body: &[Line]) -> Result<Vec<EpochRow>, DocError>
    ensures { Answers (λ rows. rows.items) (AreEpochs (map line_view body.now)) result }
{
    let mut rows = Vec::new(alloc);
    for line in body {
        let row = read_line(line)?;
        rows.push(row)?;
    }
    Ok(rows)
}

/// A block of moments has one reading at most, or one bad line, and never both.
pub fn one_epochs()
    ensures { OneEpochs }
{}
