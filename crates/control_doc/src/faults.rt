//! Faults of a control file.

ghost use Rattle.std.specs.Prelude.{◌≡◌};
ghost use Rattle.control_doc.specs.declared.faults.ControlError.TheVariants.{Memory};

use std::alloc::{AllocError, AllocFailed};
use thiserror::Error;

/// Why a control file says no control. `read_control` never gives `SameName`, which is for whoever knows the other names.
#[derive(Clone, Copy, Debug, PartialEq, Eq)]
pub enum ControlCause {
    /// The text is no TOML.
    Syntax,
    /// A key that is not known, or one that is missing.
    Key,
    /// A value of another kind, also inside a list.
    Kind,
    /// A wrong value, or a name of what is not there.
    Value,
    /// What stood before: a file name, a site, a parameter.
    Repeated,
    /// More files than may be combined.
    TooMany,
    /// A listed file that is also the control file or an output.
    SameName,
}

/// The first fault of a control file.
#[derive(Debug, Drop)]
pub struct ControlFault {
    /// Its cause.
    pub cause: ControlCause,
    /// The key at which it is found, as `file.0.weight`; empty for Syntax.
    pub path: String,
}

/// Why a reader answers no control.
#[derive(Debug, Drop, Error)]
pub enum ControlError {
    /// The first fault.
    #[error("{:?} at {}", .0.cause, .0.path)]
    Fault(ControlFault),
    /// Want of memory.
    #[error("out of memory")]
    Memory,
}

impl From<AllocError> for ControlError {
    ghost from_gives = { λ _ r. r ≡ Memory };

    fn from(_refusal: AllocError) -> ControlError {
        ControlError::Memory
    }
}

impl<T: Drop> From<AllocFailed<T>> for ControlError {
    ghost from_gives = { λ _ r. r ≡ Memory };

    fn from(_refusal: AllocFailed<T>) -> ControlError {
        ControlError::Memory
    }
}
