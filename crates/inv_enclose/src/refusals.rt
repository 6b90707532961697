//! The refusals of the steps, as refusals of an inverse.

ghost use Rattle.std.specs.Prelude.{◌≡◌, ◌↔◌, IsTrue};
ghost use Rattle.inv_enclose.specs.Refusals.{of_working, of_pilot, of_vector, of_check};
ghost use Rattle.inv_enclose.specs.declared.InvError.TheVariants.{Memory};

use crate::InvError;
use chol_guess::PilotError;
use enclosure_check::{CheckError, VectorError};
use equil::EquilError;
use std::alloc::AllocError;

impl From<AllocError> for InvError {
    ghost from_gives = { λ _ r. r ≡ Memory };

    fn from(_refusal: AllocError) -> InvError {
        InvError::Memory
    }
}

impl From<EquilError> for InvError {
    ghost from_gives = { λ x r. r ≡ of_working x };

    fn from(refusal: EquilError) -> InvError {
        match refusal {
            EquilError::Range { row, col } => InvError::Range { row, col },
            EquilError::Memory => InvError::Memory,
        }
    }
}

impl From<PilotError> for InvError {
    ghost from_gives = { λ x r. r ≡ of_pilot x };

    fn from(refusal: PilotError) -> InvError {
        match refusal {
            PilotError::Pivot { row } => InvError::Pivot { row },
            PilotError::Condition { col } => InvError::Condition { col },
            PilotError::Memory => InvError::Memory,
        }
    }
}

impl From<CheckError> for InvError {
    ghost from_gives = { λ x r. r ≡ of_check x };

    fn from(refusal: CheckError) -> InvError {
        match refusal {
            CheckError::Residual { row, size } => InvError::Residual { row, size },
            CheckError::Defect { row, parts } => InvError::Defect { row, parts },
            CheckError::Memory => InvError::Memory,
        }
    }
}

/// Whether memory is wanting.
pub fn wants_memory(refusal: InvError) -> bool
    ensures { IsTrue result ↔ (refusal ≡ Memory) }
{
    match refusal {
        InvError::Memory => true,
        _ => false,
    }
}

/// The refusal of the start vector of a column.
pub fn of_vector(col: usize, refusal: VectorError) -> InvError
    ensures { result ≡ of_vector col refusal }
{
    match refusal {
        VectorError::Range { row } => InvError::Range { row, col },
        VectorError::Memory => InvError::Memory,
    }
}
