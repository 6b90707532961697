//! What a command reads: its words, its control file, and the SINEX files that are combined.
#![tactic(auto)]

mod controls;
mod files;
mod inputs;
mod laws;
mod words;

pub use controls::read_control_file;
pub use files::{named, read_file, read_text};
pub use inputs::{Input, read_inputs};
pub use laws::one_reading;
pub use words::{CombineNames, Command, SolveNames, read_words};
