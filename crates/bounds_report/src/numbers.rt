//! The type of the printed numbers.

/// The printed numbers of one row.
#[derive(Clone, Copy, PartialEq, Eq, Debug)]
pub struct Printed {
    /// The estimate, in units of 10^-16: 15 significant digits.
    pub estimate: i128,
    /// The lower bound, in units of 10^-16.
    pub lower: i128,
    /// The upper bound, in units of 10^-16.
    pub upper: i128,
    /// The greatest size of what the estimates leave of the row, in units of ten to the place.
    pub residual: u128,
    /// The power of ten of the residual's unit.
    pub place: i32,
    /// The standard deviation of the parameter, by the approximate inverse, in units of ten to `deviation_place`. It isn't certified.
    pub deviation: u128,
    /// The power of ten of the deviation's unit.
    pub deviation_place: i32,
}
