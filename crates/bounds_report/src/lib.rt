//! The numbers that are printed of each unknown: bounds between which its value lies, an estimate with 15 digits, what the
//! estimates leave of the normal equations, and a standard deviation by the approximate inverse.
#![tactic(auto)]

use thiserror::Error;

mod deviations;
mod differences;
mod ends;
mod intervals;
mod numbers;
mod printing;
mod residuals;
mod rounding;
mod rows;
mod terms;

pub use numbers::Printed;
pub use printing::printed;

/// Why numbers can't be printed.
#[derive(Clone, Copy, Debug, PartialEq, Eq, Error)]
pub enum PrintError {
    /// A bound or the estimate of this row is too great, or else with this row the differences of the estimates from the a priori values are.
    #[error("the numbers of row {row} are too great")]
    Range { row: usize },
    /// Memory is wanting.
    #[error("out of memory")]
    Memory,
}

#[cfg(test)]
mod tests;
