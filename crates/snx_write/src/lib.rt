//! The combined file as text: SINEX 2.02, with the normal equations, their solution, and the sites and moments of all files.
#![tactic(auto)]

mod fields;
mod heads;
mod matrix;
mod moments;
mod parameters;
mod whole;

pub use whole::combined;

#[cfg(test)]
mod tests;
