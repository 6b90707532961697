//! The text of a name.

ghost use Rattle.std.specs.Prelude.{◌≡◌, ◌++◌, OnOk, OnErr, length, take};
ghost use Rattle.std.specs.List.{flat_map};
ghost use Rattle.param_ids.specs.Ids.{id_text};

use crate::ids::ParamId;
use blanks::trim;
use snx_epoch::print_epoch;
use std::alloc::AllocError;

fn push_parts(out: &mut Vec<u8>, parts: &[&[u8]]) -> Result<(), AllocError>
    ensures ok { OnOk result (out.new.items ≡ out.old.items ++ flat_map (λ part. part.now) parts.now) }
    ensures front { take (length out.old.items) out.new.items ≡ out.old.items }
{
    for part in parts {
        out.extend_from_slice(part)?;
    }
    Ok(())
}

/// Appends these parts, or nothing.
pub(crate) fn push_all(out: &mut Vec<u8>, parts: &[&[u8]]) -> Result<(), AllocError>
    ensures ok { OnOk result (out.new.items ≡ out.old.items ++ flat_map (λ part. part.now) parts.now) }
    ensures err { OnErr result (out.new.items ≡ out.old.items) }
{
    let before = out.len();
    let pushed = push_parts(out, parts);
    if pushed.is_err() {
        out.truncate(before);
    }
    pushed
}

/// Appends the text of a name: its texts without blanks and its moment, joined by `/`.
///
/// # Errors
///
/// Want of memory; the bytes are then as they were.
pub fn push_id(out: &mut Vec<u8>, id: &ParamId) -> Result<(), AllocError>
    ensures ok { OnOk result (out.new.items ≡ out.old.items ++ id_text id.now) }
    ensures err { OnErr result (out.new.items ≡ out.old.items) }
{
    let time = print_epoch(&id.epoch);
    let parts: [&[u8]; 9] = [
        trim(&id.kind),
        b"/",
        trim(&id.code),
        b"/",
        trim(&id.point),
        b"/",
        trim(&id.soln),
        b"/",
        &time,
    ];
    push_all(out, &parts)
}
