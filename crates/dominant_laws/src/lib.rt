//! Working tables that are never refused: where in each row the diagonal outweighs the rest, and all intervals are
//! narrow, there is a pilot, a start vector and a certificate, and nothing but memory can be wanting.
#![tactic(auto)]

mod enclosure;
mod rows;
#[cfg(test)]
mod tests;

pub use enclosure::enclose_dominant;
pub use rows::dominant;
