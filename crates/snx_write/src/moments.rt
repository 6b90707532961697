//! The sites, and the moments of their solutions.

ghost use Rattle.std.specs.Prelude.{◌≡◌, ◌++◌, ◌∷◌, [], map, OnOk};
ghost use Rattle.snx_sites.specs.Views.{site_view};
ghost use Rattle.snx_write.specs.Adding.{Adds};
ghost use Rattle.snx_write.specs.Combined as spec;

use crate::fields::{point_field, push_line, soln_field};
use snx_epoch::print_epoch;
use snx_sites::{EpochRow, SiteRow};
use std::alloc::AllocError;

/// Appends the lines of sites.
fn push_site_lines(out: &mut Vec<u8>, sites: &[SiteRow]) -> Result<(), AllocError>
    ensures { OnOk result (Adds (map (λ site. site.text) (map site_view sites.now)) out.old.items out.new.items) }
{
    for site in sites {
        push_line(out, &site.text, &[])?;
    }
    Ok(())
}

/// Appends SITE/ID.
pub(crate) fn push_sites(out: &mut Vec<u8>, sites: &[SiteRow]) -> Result<(), AllocError>
    ensures { OnOk result (Adds (spec.site_block (map site_view sites.now)) out.old.items out.new.items) }
{
    push_line(out, b"+SITE/ID", &[])?;
    push_site_lines(out, sites)?;
    push_line(out, b"-SITE/ID", &[])
}

/// Appends the line of the moments of a solution.
fn push_row(out: &mut Vec<u8>, row: &EpochRow) -> Result<(), AllocError>
    ensures { OnOk result (Adds (spec.moments_line row.now ∷ []) out.old.items out.new.items) }
{
    let others: [&[u8]; 7] = [
        &row.code,
        &point_field(&row.point),
        &soln_field(&row.soln),
        &[row.technique],
        &print_epoch(&row.start),
        &print_epoch(&row.end),
        &print_epoch(&row.mean),
    ];
    push_line(out, b"", &others)
}

/// Appends the lines of moments.
fn push_rows(out: &mut Vec<u8>, rows: &[EpochRow]) -> Result<(), AllocError>
    ensures { OnOk result (Adds (map spec.moments_line rows.now) out.old.items out.new.items) }
{
    for row in rows {
        push_row(out, row)?;
    }
    Ok(())
}

/// Appends SOLUTION/EPOCHS.
pub(crate) fn push_moments(out: &mut Vec<u8>, rows: &[EpochRow]) -> Result<(), AllocError>
    ensures { OnOk result (Adds (spec.moments_block rows.now) out.old.items out.new.items) }
{
    push_line(out, b"+SOLUTION/EPOCHS", &[])?;
    push_rows(out, rows)?;
    push_line(out, b"-SOLUTION/EPOCHS", &[])
}
