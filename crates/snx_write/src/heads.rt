//! The first line, and what is said of the file as a whole.

ghost use Rattle.std.specs.Prelude.{◌≡◌, ◌≤◌, ◌<◌, ◌++◌, ◌∷◌, [], is_some, map, length, OnOk};
ghost use Rattle.snx_epoch.specs.Moments.{IsMoment};
ghost use Rattle.control_doc.specs.Views.{control_view};
ghost use Rattle.snx_write.specs.Adding.{Adds};
ghost use Rattle.snx_write.specs.Combined as spec;

use crate::fields::{constraint_code, count_field, five_digits, push_line, what_field};
use control_doc::Control;
use site_merge::span;
use snx_epoch::print_epoch;
use snx_sites::EpochRow;
use std::alloc::AllocError;

/// Whether a control has a datum.
fn has_datum(control: &Control) -> bool
    ensures { result ≡ is_some (control_view control.now).datum }
{
    match control.datum {
        Some(_) => true,
        None => false,
    }
}

/// Appends the first line of a file with so many parameters.
pub(crate) fn push_first_line(
    out: &mut Vec<u8>,
    control: &Control,
    moments: &[EpochRow],
    count: usize,
) -> Result<(), AllocError>
    requires created { IsMoment control.now.created }
    requires count { count < 100000 }
    ensures { OnOk result (Adds (spec.first_line (control_view control.now) moments.now count ∷ []) out.old.items out.new.items) }
{
    let (start, end) = span(moments);
    let others: [&[u8]; 10] = [
        b"2.02",
        &control.agency,
        &print_epoch(&control.created),
        &control.agency,
        &print_epoch(&start),
        &print_epoch(&end),
        &[control.technique],
        &five_digits(count),
        &constraint_code(has_datum(control)),
        &[control.content],
    ];
    push_line(out, b"%=SNX", &others)
}

/// Appends a line of FILE/REFERENCE, where its text is given.
fn push_given(out: &mut Vec<u8>, what: &[u8], text: &[u8]) -> Result<(), AllocError>
    requires { length what.now ≤ 18 }
    ensures { OnOk result (Adds (spec.given_line what.now text.now) out.old.items out.new.items) }
{
    if text.is_empty() {
        return Ok(());
    }
    push_line(out, b"", &[&what_field(what), text])
}

/// Appends FILE/REFERENCE.
pub(crate) fn push_references(out: &mut Vec<u8>, control: &Control) -> Result<(), AllocError>
    ensures { OnOk result (Adds (spec.reference_block (control_view control.now).header) out.old.items out.new.items) }
{
    push_line(out, b"+FILE/REFERENCE", &[])?;
    push_given(out, b"DESCRIPTION", control.description.as_bytes())?;
    push_given(out, b"OUTPUT", control.output.as_bytes())?;
    push_given(out, b"CONTACT", control.contact.as_bytes())?;
    push_given(out, b"SOFTWARE", b"snxcomb")?;
    push_line(out, b"-FILE/REFERENCE", &[])
}

/// Appends the lines of these names.
fn push_names(out: &mut Vec<u8>, files: &[&str]) -> Result<(), AllocError>
    ensures { OnOk result (Adds (map spec.comment_line (map (λ file. file.now) files.now)) out.old.items out.new.items) }
{
    for file in files {
        push_line(out, b"", &[b"INPUT", file.as_bytes()])?;
    }
    Ok(())
}

/// Appends FILE/COMMENT, with the names of the files.
pub(crate) fn push_comments(out: &mut Vec<u8>, files: &[&str]) -> Result<(), AllocError>
    ensures { OnOk result (Adds (spec.comment_block (map (λ file. file.now) files.now)) out.old.items out.new.items) }
{
    push_line(out, b"+FILE/COMMENT", &[])?;
    push_names(out, files)?;
    push_line(out, b"-FILE/COMMENT", &[])
}

/// Appends SOLUTION/STATISTICS, with the number of parameters.
pub(crate) fn push_statistics(out: &mut Vec<u8>, count: usize) -> Result<(), AllocError>
    ensures { OnOk result (Adds (spec.statistics_block count) out.old.items out.new.items) }
{
    push_line(out, b"+SOLUTION/STATISTICS", &[])?;
    push_line(
        out,
        b"",
        &[b"NUMBER OF UNKNOWNS            ", &count_field(count)],
    )?;
    push_line(out, b"-SOLUTION/STATISTICS", &[])
}
