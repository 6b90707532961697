//! The refusals of the steps, as refusals of a stack.

ghost use Rattle.std.specs.Prelude.{◌≡◌};
ghost use Rattle.stack_rules.specs.Refusals.{of_working, of_enclosure, of_printing};
ghost use Rattle.stack_rules.specs.declared.StackError.TheVariants.{Memory};

use crate::StackError;
use bounds_report::PrintError;
use enclosure_check::EncloseError;
use equil::EquilError;
use std::alloc::AllocError;

impl From<AllocError> for StackError {
    ghost from_gives = { λ _ r. r ≡ Memory };

    fn from(_refusal: AllocError) -> StackError {
        StackError::Memory
    }
}

impl From<EquilError> for StackError {
    ghost from_gives = { λ x r. r ≡ of_working x };

    fn from(refusal: EquilError) -> StackError {
        match refusal {
            EquilError::Range { row, col } => StackError::Range { row, col },
            EquilError::Memory => StackError::Memory,
        }
    }
}

impl From<EncloseError> for StackError {
    ghost from_gives = { λ x r. r ≡ of_enclosure x };

    fn from(refusal: EncloseError) -> StackError {
        match refusal {
            EncloseError::Pivot { row } => StackError::Pivot { row },
            EncloseError::Condition { col } => StackError::Condition { col },
            EncloseError::Range { row } => StackError::Range { row, col: row },
            EncloseError::Residual { row, size } => StackError::Residual { row, size },
            EncloseError::Defect { row, parts } => StackError::Defect { row, parts },
            EncloseError::Memory => StackError::Memory,
        }
    }
}

impl From<PrintError> for StackError {
    ghost from_gives = { λ x r. r ≡ of_printing x };

    fn from(refusal: PrintError) -> StackError {
        match refusal {
            PrintError::Range { row } => StackError::Range { row, col: row },
            PrintError::Memory => StackError::Memory,
        }
    }
}
