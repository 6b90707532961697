//! Matrices and right sides of a text as intervals by name.
#![tactic(auto)]

ghost use Rattle.named_tables.specs.Tables.{OneTable, OneColumn};

mod columns;
mod deviations;
mod faults;
mod limits;
mod naming;
mod numbers;
mod rights;
mod tables;
mod weights;

pub use columns::{exponents_of, units_of, values_of};
pub use deviations::{positive, sigma_in, sigma_of};
pub use faults::{RecoverError, RecoverFault};
pub use naming::{all_matched, names_of, some_row};
pub use rights::column_of;
pub use tables::{shown_table, table_by, table_of};
pub use weights::weighted;

/// Rows and elements have one table for names, or one first element that does not fit, and never both; so has a right side.
pub fn one_table()
    ensures tables { OneTable }
    ensures columns { OneColumn }
{}

#[cfg(test)]
mod tests;
