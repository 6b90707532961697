//! The names of parameters: what a row of a SINEX text calls the number that it gives.
#![tactic(auto)]

mod ids;
mod label;
mod listing;
mod pushing;
mod scaling;
mod texts;

pub use ids::{IdFault, ParamId};
pub use label::push_label;
pub use listing::{Names, NamesError};
pub use pushing::push_id;
pub use scaling::{Scales, scale_of};
pub use texts::{code_of, kind_of, point_of, soln_of, unit_of};

#[cfg(test)]
mod tests;
