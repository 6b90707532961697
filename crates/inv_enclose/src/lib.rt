//! The inverse of a symmetric table of intervals: one that holds, for each symmetric table of fractions in them, its exact inverse.
#![tactic(auto)]

use thiserror::Error;

mod columns;
mod inverses;
mod limits;
mod refusals;
mod tables;

pub use inverses::{inverse, one_inverse};

/// Why a table of intervals has no inverse. Rows and columns count from 0.
#[derive(Clone, Copy, Debug, PartialEq, Eq, Error)]
pub enum InvError {
    /// The interval at this row and column passes its bound, in the working table or in the inverse, or the start vector of this column
    /// does in this row.
    #[error("row {row}, column {col} passes its bound")]
    Range { row: usize, col: usize },
    /// The working table has no pilot: its factor ends before this column.
    #[error("no pivot in row {row}")]
    Pivot { row: usize },
    /// The working table has no pilot: this column passes its bounds.
    #[error("column {col} passes its bounds at each scale")]
    Condition { col: usize },
    /// The error of this row, the first of more than 2^66 in the first column that has one, is `size`.
    #[error("the error of row {row} is {size}")]
    Residual { row: usize, size: u128 },
    /// The defect of this row, the first of the greatest, is `parts`: 2^30 or more.
    #[error("the defect of row {row} is {parts}")]
    Defect { row: usize, parts: u64 },
    /// Memory is wanting.
    #[error("out of memory")]
    Memory,
}

#[cfg(test)]
mod tests;
