//! The report of bounds, as text.
#![tactic(auto)]

mod lines;

pub use lines::report;
