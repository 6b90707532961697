//! The rules from a stack of normal equations to its printed numbers: the working table, its enclosure and the numbers of each
//! row, and what these promise of every system in the stack.
#![tactic(auto)]

use bounds_report::Printed;
use thiserror::Error;

mod refusals;
mod solving;

pub use solving::{certify, dominant_are_enclosed};

/// The numbers of a report.
#[derive(Drop)]
pub struct Solved {
    /// The scale of the pilot: its unit is 2^-(g + 60).
    pub g: u32,
    /// The greatest defect of a row, in parts of 2^30.
    pub parts: u64,
    /// The greatest error of a row, in units of the working table.
    pub error: u128,
    /// The printed numbers, row by row.
    pub rows: Vec<Printed>,
}

/// Why a stack has no report. Rows and columns count from 0, in the order of the names.
#[derive(Clone, Copy, Debug, PartialEq, Eq, Error)]
pub enum StackError {
    /// The working interval at this row and column passes its bound, or the start vector or the printed numbers of this row do.
    #[error("row {row}, column {col} passes its bound")]
    Range { row: usize, col: usize },
    /// The working table has no pilot: its factor ends before this column.
    #[error("no pivot in row {row}")]
    Pivot { row: usize },
    /// The working table has no pilot: this column passes its bounds.
    #[error("column {col} passes its bounds at each scale")]
    Condition { col: usize },
    /// The error of this row, the first of more than 2^66, is `size`.
    #[error("the error of row {row} is {size}")]
    Residual { row: usize, size: u128 },
    /// The defect of this row, the first of the greatest, is `parts`: 2^30 or more.
    #[error("the defect of row {row} is {parts}")]
    Defect { row: usize, parts: u64 },
    /// Memory is wanting.
    #[error("out of memory")]
    Memory,
}
