//! What rows are of. Names go by their fields in their order, by bytes.

ghost use Rattle.std.specs.Prelude.{◌≡◌};
ghost use Rattle.snx_sites.specs.Views.{site_view};
ghost use Rattle.site_merge.specs.Keyed.{site_name, solution_name};

use snx_sites::{EpochRow, SiteRow};

/// What a line of SITE/ID is of.
#[derive(Clone, Copy, PartialEq, Eq, PartialOrd, Ord)]
pub(crate) struct SiteName {
    pub(crate) code: [u8; 4],
    pub(crate) point: [u8; 2],
}

impl SiteName {
    pub(crate) fn of(line: &SiteRow) -> SiteName
        ensures { result ≡ site_name (site_view line.now) }
    {
        SiteName {
            code: line.code,
            point: line.point,
        }
    }
}

/// What a row of SOLUTION/EPOCHS is of.
#[derive(Clone, Copy, PartialEq, Eq, PartialOrd, Ord)]
pub(crate) struct SolutionName {
    pub(crate) code: [u8; 4],
    pub(crate) point: [u8; 2],
    pub(crate) soln: [u8; 4],
}

impl SolutionName {
    pub(crate) fn of(row: &EpochRow) -> SolutionName
        ensures { result ≡ solution_name row.now }
    {
        SolutionName {
            code: row.code,
            point: row.point,
            soln: row.soln,
        }
    }
}
