//! A pilot with rows and columns exchanged.

ghost use Rattle.std.specs.Prelude.{◌≤◌, IfOk};
ghost use Rattle.enclosure_check.specs.Enclosures.{IsTransposed};

use enclosures::Pilot;
use std::alloc::{AllocError, Global};
use whole_numbers::{Square, set_column};

/// The pilot with rows and columns exchanged, at the same scale.
pub fn transposed(alloc: Global, p: &Pilot) -> Result<Pilot, AllocError>
    requires { p.now.size ≤ 1000 }
    ensures { IfOk result (IsTransposed p.now) }
{
    let mut columns = Square::zeros(alloc, p.size())?;
    for k in 0..p.size() {
        set_column(&mut columns, k, p.row(k));
    }
    Ok(Pilot::new(p.g(), p.size(), columns.into_numbers()))
}
