//! The blocks of a SINEX text: what their lines say.
#![tactic(auto)]

mod blocks;
mod causes;
mod indices;
mod rows;
mod steps;

pub use blocks::{one_block, read_rows};
pub use causes::{Cause, DocError, LineFault};
pub use indices::{index_of, read_index};
pub use rows::{Row, Shape, one_row, read_row};
pub use steps::number_in;

#[cfg(test)]
mod tests;
