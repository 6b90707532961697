//! Information matrices by name: as they stand in a text, or as inverses of covariances.
#![tactic(auto)]

mod information;
mod inverting;
mod naming;
mod weights;

pub use information::{information_of, multiples, one_information};

#[cfg(test)]
mod tests;
