//! Normal equations by the names of their parameters.
#![tactic(auto)]

ghost use Rattle.neq_stack.specs.Stacks.{OneStack, StacksRegroup, StacksMove, SomeHaveStack, StackIsAtMost};
ghost use Rattle.neq_stack.specs.Systems.{StackHolds, NeqLiesInStack};

mod adding;
mod joining;
mod places;
mod stacking;
mod values;

use decimal_e::Dec;
use interval_word::Iv;
use param_ids::Names;
pub use stacking::{StackError, stack, stack_all};
use sym_blocks::SymBlock;

/// Normal equations of some parameters, in intervals: the matrix and the right side of `N (x - x0) = b`.
///
/// Each list has an entry for each name, in the order of the names, and the table a row for each. With scale exponents t the
/// interval of the table at (i, j) stands for the element of N times `10^(18 - t_i - t_j)`, that of the right side at i for the
/// element of b times `10^(18 - t_i)`.
#[derive(Drop)]
pub struct Neq<const N: usize> {
    /// The names of the parameters, in order.
    pub names: Names,
    /// The matrix.
    pub table: SymBlock<N>,
    /// The right side.
    pub right: Vec<Iv>,
    /// The a priori values x0, each at most 10^12 in size.
    pub apriori: Vec<Dec>,
    /// The units of the parameters, with blanks behind them.
    pub units: Vec<[u8; 4]>,
    /// The scale exponents, from -4 to 6.
    pub scales: Vec<i32>,
}

/// Stacks are sums: parts have one stack at most, their grouping and order change nothing, some of the parts that have a stack have one
/// too, and no interval of a stack passes in size the greatest of its parts times their number.
pub fn stacks_add()
    ensures one { OneStack }
    ensures regroup { StacksRegroup }
    ensures moved { StacksMove }
    ensures some { SomeHaveStack }
    ensures most { StackIsAtMost }
{}

/// The sum of systems that lie in parts lies in their stack, and systems that lie in normal equations by name lie in their intervals
/// in order.
pub fn stacks_hold()
    ensures holds { StackHolds }
    ensures in_order { NeqLiesInStack }
{}
