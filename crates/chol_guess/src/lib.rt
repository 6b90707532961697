//! The pilot of a working table: an approximate inverse R on whole numbers, by a Cholesky factor and forward and back
//! substitution of each unit column. What it is good for is decided by the certificate, so nothing is claimed of how near it comes.
#![tactic(auto)]

ghost use Rattle.std.specs.Prelude.{◌≡◌};
ghost use Rattle.chol_guess.specs.Refusals.{of_factor};
ghost use Rattle.chol_guess.specs.declared.PilotError.TheVariants.{Memory};

use chol_factor::FactorError;
use std::alloc::AllocError;
use thiserror::Error;

mod columns;
mod kernels;
mod midpoints;
mod pilots;
mod scales;
#[cfg(test)]
mod tests;

pub use enclosures::Pilot;
pub use midpoints::midpoint_square;
pub use pilots::{pilot, pilot_of};

/// Why a table has no pilot.
#[derive(Clone, Copy, Debug, PartialEq, Eq, Error)]
pub enum PilotError {
    /// The factor has no column here: what is left at its diagonal is not above 0, or a number of it passes its bound.
    #[error("no pivot in row {row}")]
    Pivot { row: usize },
    /// This column of the inverse is the first that passes its bounds at the least scale, and none fits at a greater one.
    #[error("column {col} passes its bounds at each scale")]
    Condition { col: usize },
    /// Memory is wanting.
    #[error("out of memory")]
    Memory,
}

impl From<FactorError> for PilotError {
    ghost from_gives = { λ e r. r ≡ of_factor e };

    fn from(e: FactorError) -> PilotError {
        match e {
            FactorError::Pivot { row } => PilotError::Pivot { row },
        }
    }
}

impl From<AllocError> for PilotError {
    ghost from_gives = { λ _ r. r ≡ Memory };

    fn from(_e: AllocError) -> PilotError {
        PilotError::Memory
    }
}
