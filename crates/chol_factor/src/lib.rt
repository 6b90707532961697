//! The factor of a table of midpoints: a lower triangle of whole numbers in units of 2^-60 whose product with its own
//! transpose comes near the table (Cholesky). The approximate inverse of the table is made from it.
#![tactic(auto)]

use thiserror::Error;

mod columns;
mod factors;
mod kernels;
#[cfg(test)]
mod tests;

pub use columns::factor;
pub use factors::Factor;
pub use kernels::{fixed_products, fixed_quotient};

/// Why a table has no factor.
#[derive(Clone, Copy, Debug, PartialEq, Eq, Error)]
pub enum FactorError {
    /// This column is the first that no factor has: what is left at its diagonal is not above 0, or a number of it
    /// passes 2^61 in size.
    #[error("no pivot in row {row}")]
    Pivot { row: usize },
}
