//! Solutions and their constraints.

use snx_matrices::{Cell, Content};
use snx_rows::Row;

/// The constraints that are removed from a solution.
#[derive(Clone, Copy)]
pub enum Constraint<'a> {
    /// None are.
    Free,
    /// Those of a matrix over the a priori rows, by what it has and its elements.
    Matrix(Content, &'a [Cell]),
    /// Those of the standard deviations of the a priori rows, where these are positive.
    Sigmas,
}

/// The blocks of a solution.
#[derive(Clone, Copy)]
pub struct Solution<'a> {
    /// The a priori values with their standard deviations.
    pub apriori: &'a [Row],
    /// The estimates.
    pub estimates: &'a [Row],
    /// What the matrix of the estimates has.
    pub content: Content,
    /// Its elements, over the rows of the estimates.
    pub cells: &'a [Cell],
    /// The constraints that are removed.
    pub constraint: Constraint<'a>,
}
