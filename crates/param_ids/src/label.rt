//! What a row says of its parameter before the number.

ghost use Rattle.std.specs.Prelude.{◌≡◌, ◌≤◌, ◌-◌, ◌++◌, OnOk, OnErr, length, replicate};
ghost use Rattle.param_ids.specs.Labels.{label_text};

use crate::ids::ParamId;
use crate::pushing::push_all;
use blanks::trim;
use itoa::Buffer;
use snx_epoch::print_epoch;
use std::alloc::AllocError;

/// The blanks before a text at the right of so many columns.
fn blanks_before<'a>(width: usize, text: &'a [u8]) -> &'a [u8]
    requires { width ≤ 6 }
    ensures { result.now ≡ replicate (width - length text.now) 32 }
{
    let blanks: &[u8] = b"      ";
    &blanks[..width.saturating_sub(text.len())]
}

/// Appends columns 1 to 44 of a row: the index, the name and the unit of a parameter. An index of over six digits moves the others on.
///
/// # Errors
///
/// Want of memory; the bytes are then as they were.
pub fn push_label(
    out: &mut Vec<u8>,
    index: usize,
    id: &ParamId,
    unit: &[u8; 4],
) -> Result<(), AllocError>
    ensures ok { OnOk result (out.new.items ≡ out.old.items ++ label_text index id.now unit.now) }
    ensures err { OnErr result (out.new.items ≡ out.old.items) }
{
    let mut buffer = Buffer::new();
    let number = buffer.format(index).as_bytes();
    let point = trim(&id.point);
    let soln = trim(&id.soln);
    let time = print_epoch(&id.epoch);
    let parts: [&[u8]; 16] = [
        blanks_before(6, number),
        number,
        b" ",
        &id.kind,
        b" ",
        &id.code,
        b" ",
        blanks_before(2, point),
        point,
        b" ",
        blanks_before(4, soln),
        soln,
        b" ",
        &time,
        b" ",
        unit,
    ];
    push_all(out, &parts)
}
