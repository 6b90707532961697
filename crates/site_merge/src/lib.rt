//! The sites and the moments of several SINEX texts, each once.
#![tactic(auto)]

ghost use Rattle.site_merge.specs.Merged.{OneMerge};

mod epochs;
mod lines;
mod merging;
mod moments;
mod names;
mod spans;

pub use merging::{Sites, merge};
pub use spans::span;

/// Documents have one merge at most.
pub fn merges_hold()
    ensures { OneMerge }
{}

#[cfg(test)]
mod tests;
