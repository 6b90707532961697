//! How large a decimal is.

ghost use Rattle.std.specs.Prelude.{◌≡◌, ◌↔◌, ◌<ℤ◌, ◌^◌, pos, IsTrue};
ghost use Rattle.decimal_e.specs.Fractions.{IsAtMost, LieWithin};

use crate::dec::Dec;
use crate::scale::{ceil_at, floor_at};

/// The greatest size of an estimate or an a priori value, in its unit.
const MOST: i128 = 1_000_000_000_000;

/// Whether the numbers from `low` to `high` are all at most 10^12 in size.
fn lie_within(low: i128, high: i128) -> bool
    ensures { IsTrue result ↔ LieWithin (10 ^ 12) low high }
{
    -MOST <= low && high <= MOST
}

impl Dec {
    /// Whether the decimal is at most 10^12 in size, as estimates and a priori values are.
    pub fn is_modest(&self) -> bool
        ensures { IsTrue result ↔ IsAtMost (10 ^ 12) self.now }
    {
        match (floor_at(self, 0), ceil_at(self, 0)) {
            (Some(floor), Some(ceil)) => lie_within(floor, ceil),
            _ => false,
        }
    }

    /// Whether the decimal is zero.
    pub fn is_zero(&self) -> bool
        ensures { IsTrue result ↔ (self.now.mant ≡ pos 0) }
    {
        self.mant() == 0
    }

    /// Whether the decimal is below zero.
    pub fn is_negative(&self) -> bool
        ensures { IsTrue result ↔ (self.now.mant <ℤ pos 0) }
    {
        self.mant() < 0
    }
}
