//! Why a run writes nothing: its refusals, with the status and the line of each.
#![tactic(auto)]

mod name;
mod refusal;

pub use name::Name;
pub use refusal::{DESK_LINE, MEMORY_LINE, Refusal, Scope, line, status};
