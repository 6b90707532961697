//! The fields of a line, each with its cause.

ghost use Rattle.std.specs.Prelude.{◌≡◌, ◌≤◌, IfOk};
ghost use Rattle.snx_epoch.specs.Moments.{IsMoment};
ghost use Rattle.snx_sites.specs.Sites.{IsCodeOn, IsPointOn, IsSolnOn, technique_of, IsTechniqueOn, IsMomentIn};

use param_ids::{code_of, point_of, soln_of};
use snx_epoch::{Epoch, read_epoch};
use snx_lines::{Line, field};
use snx_rows::Cause;

/// The code of a site.
pub(crate) fn code_on(line: &Line) -> Result<[u8; 4], Cause>
    ensures { IsCodeOn line.now.text.now result }
{
    match code_of(field(line, 2, 5)) {
        Some(code) => Ok(code),
        None => Err(Cause::Field),
    }
}

/// The point of a site.
pub(crate) fn point_on(line: &Line) -> Result<[u8; 2], Cause>
    ensures { IsPointOn line.now.text.now result }
{
    match point_of(field(line, 7, 8)) {
        Some(point) => Ok(point),
        None => Err(Cause::Field),
    }
}

/// The solution.
pub(crate) fn soln_on(line: &Line) -> Result<[u8; 4], Cause>
    ensures { IsSolnOn line.now.text.now result }
{
    match soln_of(field(line, 10, 13)) {
        Some(soln) => Ok(soln),
        None => Err(Cause::Field),
    }
}

/// The technique that a column is, without blanks; a space where it is empty.
fn technique_of(text: &[u8]) -> Option<u8>
    ensures { result ≡ technique_of text.now }
{
    match text {
        [] => Some(b' '),
        [byte, ..] => {
            if *byte >= 32 && *byte <= 126 {
                Some(*byte)
            } else {
                None
            }
        }
    }
}

/// The technique.
pub(crate) fn technique_on(line: &Line) -> Result<u8, Cause>
    ensures { IsTechniqueOn line.now.text.now result }
{
    match technique_of(field(line, 15, 15)) {
        Some(technique) => Ok(technique),
        None => Err(Cause::Field),
    }
}

/// The moment in columns `first` to `last`.
pub(crate) fn moment_in(line: &Line, first: usize, last: usize) -> Result<Epoch, Cause>
    requires first { 1 ≤ first }
    requires order { first ≤ last }
    ensures moment { IsMomentIn first last line.now.text.now result }
    ensures range { IfOk result IsMoment }
{
    match read_epoch(field(line, first, last)) {
        Ok(moment) => Ok(moment),
        Err(fault) => Err(Cause::Epoch(fault)),
    }
}
