//! The whole file.

ghost use Rattle.std.specs.Prelude.{◌≡◌, ◌≤◌, ◌++◌, map, length, All, OnOk, IfOk};
ghost use Rattle.snx_epoch.specs.Moments.{IsMoment};
ghost use Rattle.control_doc.specs.Views.{control_view};
ghost use Rattle.neq_stack.specs.Neqs.{IsSound, neq_view};
ghost use Rattle.bounds_report.specs.Printing.{HasSmallDeviation};
ghost use Rattle.site_merge.specs.Answers.{sites_view};
ghost use Rattle.snx_write.specs.Combined.{combined_text};

use crate::fields::push_line;
use crate::heads::{push_comments, push_first_line, push_references, push_statistics};
use crate::matrix::push_matrix;
use crate::moments::{push_moments, push_sites};
use crate::parameters::{push_apriori, push_estimates, push_vector};
use bounds_report::Printed;
use control_doc::Control;
use neq_stack::Neq;
use site_merge::Sites;
use std::alloc::{AllocError, Global};

/// How many bytes are enough for a file of these names and sites with so many parameters.
fn room_of(files: &[&str], sites: &Sites, count: usize) -> usize
    requires { count ≤ 1000 }
{
    let matrix = count * (count + 1) / 2 * 27 + count * 27;
    let mut room = matrix + count * 300 + 2048;
    for file in files {
        room = room.saturating_add(file.len()).saturating_add(8);
    }
    for site in &sites.lines {
        room = room.saturating_add(site.text.len()).saturating_add(1);
    }
    room.saturating_add(sites.epochs.len().saturating_mul(55))
}

/// The combined file: a SINEX 2.02 text of the control's header, the names of the files in order, their sites and moments, the normal
/// equations before the rows of the control's datum, and their printed numbers, one for each parameter.
///
/// # Errors
///
/// Want of memory.
pub fn combined<const N: usize>(
    alloc: Global,
    control: &Control,
    files: &[&str],
    sites: &Sites,
    free: &Neq<N>,
    rows: &[Printed],
) -> Result<Vec<u8>, AllocError>
    requires created { IsMoment control.now.created }
    requires sound { IsSound (neq_view free.now) }
    requires rows { length rows.now ≡ length free.now.names }
    requires small { All HasSmallDeviation rows.now }
    ensures { IfOk result (λ text. text.items ≡ combined_text
        (control_view control.now) (map (λ file. file.now) files.now) (sites_view sites.now) (neq_view free.now) rows.now) }
{
    let count = free.names.len();
    let mut text = Vec::with_capacity(alloc, room_of(files, sites, count))?;
    push_first_line(&mut text, control, &sites.epochs, count)?;
    push_references(&mut text, control)?;
    push_comments(&mut text, files)?;
    push_sites(&mut text, &sites.lines)?;
    push_moments(&mut text, &sites.epochs)?;
    push_statistics(&mut text, count)?;
    push_estimates(&mut text, &control.datum, free, rows)?;
    push_apriori(&mut text, &control.datum, free)?;
    push_vector(&mut text, &control.datum, free)?;
    push_matrix(&mut text, free)?;
    push_line(&mut text, b"%ENDSNX", &[])?;
    Ok(text)
}
