//! The values of a line.

ghost use Rattle.std.specs.Prelude.{◌≡◌, ◌<◌};
ghost use Rattle.snx_matrices.specs.Elements.{unless_zero, IsGiven, value_columns};

use decimal_e::Dec;
use snx_lines::{Line, field};
use snx_rows::{Cause, number_in};

/// The value, unless it is zero.
fn unless_zero(value: Dec) -> Option<Dec>
    ensures { result ≡ unless_zero value }
{
    if value.mant() == 0 { None } else { Some(value) }
}

/// The value that a text gives, if it gives one.
fn given_in(text: &[u8]) -> Result<Option<Dec>, Cause>
    ensures { IsGiven text.now result }
{
    if text.is_empty() {
        return Ok(None);
    }
    match number_in(text) {
        Ok(value) => Ok(unless_zero(value)),
        Err(cause) => Err(cause),
    }
}

/// Value `k` of a line, counted from 0, if it is given.
pub(crate) fn given_on(line: &Line, k: u32) -> Result<Option<Dec>, Cause>
    requires { k < 3 }
    ensures { IsGiven (value_columns line.now.text.now k) result }
{
    let before = 22 * k as usize;
    given_in(field(line, 14 + before, 34 + before))
}
