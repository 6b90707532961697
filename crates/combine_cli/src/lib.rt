//! The top call: from the words of a command and the files of a desk to the files that it leaves and its status.
#![tactic(auto)]

mod combining;
mod commons;
mod datum;
mod decide;
mod groups;
mod laws;
mod naming;
mod parts;
mod solving;
mod stacking;
mod summing;
mod telling;
mod top;

pub use combining::{Combined, combine_core};
pub use laws::{
    alike_controls, bounds_hold_their_solutions, dominant_stacks_are_enclosed,
    exact_systems_are_as_written, files_are_added, files_are_moved, refusals_are_told,
    stopped_outputs_are_fronts,
};
pub use refusal_lines::{Name, Refusal, Scope, line, status};
pub use top::run;
