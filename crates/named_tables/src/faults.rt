//! Why a text has no normal equations.

ghost use Rattle.std.specs.Prelude.{◌≡◌};
ghost use Rattle.named_tables.specs.declared.faults.RecoverError.TheVariants.{Memory, Fault};

use param_ids::ParamId;
use std::alloc::AllocError;
use thiserror::Error;

/// Why the blocks of a text give no normal equations.
#[derive(Clone, Copy, Debug, PartialEq, Eq, Error)]
pub enum RecoverFault {
    /// A row has this name, and there is none of it in the block that must have one: the first such row.
    #[error("no row of this name")]
    Unmatched { id: ParamId },
    /// The row of this name has no positive standard deviation, which its correlations need: the first such row.
    #[error("no standard deviation")]
    NoWeight { id: ParamId },
    /// There is no row.
    #[error("no row")]
    Empty,
    /// The number for these names, times the weight, is no decimal of the type, or an interval passes its bound. A number of a right
    /// side names its row twice.
    #[error("a number is too great")]
    Range { row: ParamId, col: ParamId },
    /// A table of covariances has no factor: its column of this name has none.
    #[error("no pivot")]
    Pivot { id: ParamId },
    /// The column of this name of the approximate inverse of covariances passes its bounds at each scale.
    #[error("a column of the inverse passes its bounds")]
    Condition { id: ParamId },
    /// In the first column of the inverse that has one, the first error past its bound, in the row of this name.
    #[error("the error of a row is {size}")]
    Residual { id: ParamId, size: u128 },
    /// The first of the greatest defects of the inverse of covariances, in parts of 2^30, is a whole or more, in the row of this name.
    #[error("the defect of a row is {parts}")]
    Defect { id: ParamId, parts: u64 },
}

/// Why normal equations are not answered.
#[derive(Clone, Copy, Debug, PartialEq, Eq, Error)]
pub enum RecoverError {
    /// There are none.
    #[error("{0}")]
    Fault(RecoverFault),
    /// Want of memory.
    #[error("out of memory")]
    Memory,
}

impl From<AllocError> for RecoverError {
    ghost from_gives = { λ _ r. r ≡ Memory };

    fn from(_refusal: AllocError) -> RecoverError {
        RecoverError::Memory
    }
}

impl From<RecoverFault> for RecoverError {
    ghost from_gives = { λ fault r. r ≡ Fault fault };

    fn from(fault: RecoverFault) -> RecoverError {
        RecoverError::Fault(fault)
    }
}
