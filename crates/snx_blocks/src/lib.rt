//! Whole SINEX texts as documents: what their blocks say, or the first bad line.
#![tactic(auto)]

mod blocks;
mod documents;
mod reading;
mod sections;

pub use documents::{Doc, Matrix};
pub use reading::read_doc;
pub use sections::Section;
pub use snx_matrices::{Cell, Content};
pub use snx_rows::{Cause, DocError, LineFault, Row};
pub use snx_sites::{EpochRow, SiteRow};

#[cfg(test)]
mod tests;
