//! The certificate of a linear system that is known by intervals: a start vector, the residual test, and with it bounds
//! between which every solution of every system in the intervals lies.
#![tactic(auto)]

use thiserror::Error;

#[cfg(test)]
mod certificate_tests;
mod certificates;
mod enclosure;
#[cfg(test)]
mod enclosure_tests;
mod ends;
mod factors;
mod products;
mod row_defects;
mod row_errors;
mod transposes;
mod vector;
#[cfg(test)]
mod vector_tests;
mod working_rows;

pub use certificates::{certificate, check};
pub use enclosure::enclose;
pub use enclosures::{Enclosed, Pilot, Radius};
pub use row_defects::{defects, row_defect};
pub use row_errors::errors;
pub use transposes::transposed;
pub use vector::start_vector;
pub use working_rows::WorkingRows;

/// Why a working table has no start vector.
#[derive(Clone, Copy, Debug, PartialEq, Eq, Error)]
pub enum VectorError {
    /// After a refinement the sizes of the vector pass 2^64 in sum, at this row first.
    #[error("the start vector passes its bound in row {row}")]
    Range { row: usize },
    /// Memory is wanting.
    #[error("out of memory")]
    Memory,
}

/// Why a certificate does not pass.
#[derive(Clone, Copy, Debug, PartialEq, Eq, Error)]
pub enum CheckError {
    /// The error of this row, the first of more than 2^66, is `size`.
    #[error("the error of row {row} is {size}")]
    Residual { row: usize, size: u128 },
    /// The defect of this row, the first of the greatest, is `parts`: 2^30 or more.
    #[error("the defect of row {row} is {parts}")]
    Defect { row: usize, parts: u64 },
    /// Memory is wanting.
    #[error("out of memory")]
    Memory,
}

/// Why a working table has no enclosure.
#[derive(Clone, Copy, Debug, PartialEq, Eq, Error)]
pub enum EncloseError {
    /// The table has no pilot: its factor ends before this column.
    #[error("no pivot in row {row}")]
    Pivot { row: usize },
    /// The table has no pilot: this column passes its bounds.
    #[error("column {col} passes its bounds at each scale")]
    Condition { col: usize },
    /// The start vector passes its bound at this row.
    #[error("the start vector passes its bound in row {row}")]
    Range { row: usize },
    /// The error of this row, the first of more than 2^66, is `size`.
    #[error("the error of row {row} is {size}")]
    Residual { row: usize, size: u128 },
    /// The defect of this row, the first of the greatest, is `parts`: 2^30 or more.
    #[error("the defect of row {row} is {parts}")]
    Defect { row: usize, parts: u64 },
    /// Memory is wanting.
    #[error("out of memory")]
    Memory,
}
