//! Covariances by name, from correlations and standard deviations.
#![tactic(auto)]

mod covariances;
mod deviations;
mod digits;
mod products;
mod triangles;

pub use covariances::{correlated, one_covariances};

#[cfg(test)]
mod tests;
