//! Common a priori values, and normal equations brought to them.
#![tactic(auto)]

ghost use Rattle.apriori_shift.specs.Common.{OneCommon};
ghost use Rattle.apriori_shift.specs.Shifts.{OneShift};
ghost use Rattle.apriori_shift.specs.Moves.{ShiftHolds, SystemsMove, MultiplesMove};

mod commons;
mod differences;
mod rights;
mod shifting;

pub use commons::{Apriori, CommonError, common};
pub use shifting::{ShiftError, shift, shift_to};

/// Rows have one common value of a name or one least clash, normal equations have one shift or one first place past its bound, a system
/// in them lies, taken to the other values, in the shifted ones, and each system can be taken to other values.
pub fn shifts_hold()
    ensures one_common { OneCommon }
    ensures one_shift { OneShift }
    ensures holds { ShiftHolds }
    ensures moves { SystemsMove }
    ensures multiples { MultiplesMove }
{}

#[cfg(test)]
mod tests;
