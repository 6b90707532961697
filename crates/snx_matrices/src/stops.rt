//! Why a step of the pass gives nothing.

ghost use Rattle.std.specs.Prelude.{◌≡◌};
ghost use Rattle.snx_matrices.specs.declared.stops.Stop.TheVariants as stops;

use snx_rows::{Cause, DocError, LineFault};
use std::alloc::AllocFailed;
use thiserror::Error;

/// Why a step gives nothing, before the line's number is known.
#[derive(Debug, Drop, Error)]
pub(crate) enum Stop {
    /// The line is bad.
    #[error("{0}")]
    Cause(Cause),
    /// Want of memory.
    #[error("out of memory")]
    Memory,
}

impl From<Cause> for Stop {
    ghost from_gives = { λ cause r. r ≡ stops.Cause cause };

    fn from(cause: Cause) -> Stop {
        Stop::Cause(cause)
    }
}

impl<T: Drop> From<AllocFailed<T>> for Stop {
    ghost from_gives = { λ _ r. r ≡ stops.Memory };

    fn from(_refusal: AllocFailed<T>) -> Stop {
        Stop::Memory
    }
}
