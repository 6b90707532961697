// The outside as one trait: files that are read and written whole, and lines that are said.
#![tactic(auto)]

mod desk;
mod laws;
mod memory;
mod outputs;
mod standard;
#[cfg(test)]
mod tests;
mod whole;

pub use desk::{Desk, DeskError};
pub use laws::{fronts_are_beginnings, outputs_come_in_order, parts_are_fronts, rises_are_real};
pub use memory::MemDesk;
pub use outputs::{Output, write_outputs};
pub use standard::StdDesk;
pub use whole::{ReadError, read_all, write_file};
