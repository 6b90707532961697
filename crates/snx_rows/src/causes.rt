//! Why a line is bad.

ghost use Rattle.std.specs.Prelude.{◌≡◌};
ghost use Rattle.snx_rows.specs.declared.causes.DocError.TheVariants.{Line, Memory};

use decimal_e::DecFault;
use snx_epoch::EpochFault;
use snx_lines::FrameCause;
use std::alloc::{AllocError, AllocFailed};
use thiserror::Error;

/// Why a line is bad.
#[derive(Clone, Copy, Debug, PartialEq, Eq, Error)]
pub enum Cause {
    /// It breaks the frame of the text.
    #[error("{0:?}")]
    Frame(FrameCause),
    /// A text that may not stand in its columns.
    #[error("a text that may not stand in its columns")]
    Field,
    /// A moment.
    #[error("{0}")]
    Epoch(EpochFault),
    /// An index that isn't digits for a number from 1 to 99999, or is of no row.
    #[error("no index")]
    Index,
    /// A value or a standard deviation.
    #[error("{0}")]
    Number(DecFault),
    /// An estimate or an a priori value over 10^12 in size.
    #[error("over 10^12 in size")]
    Size,
    /// An element on the other side of the diagonal.
    #[error("on the other side of the diagonal")]
    Triangle,
    /// What stood before.
    #[error("stood before")]
    Repeated,
    /// A matrix whose block of rows hasn't ended before.
    #[error("no rows before the matrix")]
    MissingBlock,
    /// More rows than a block may have.
    #[error("too many rows")]
    TooMany,
}

/// A bad line.
#[derive(Clone, Copy, Debug, PartialEq, Eq, Error)]
#[error("line {line}: {cause}")]
pub struct LineFault {
    /// Its number in the text, from 1.
    pub line: u32,
    /// Why it is bad.
    pub cause: Cause,
}

/// Why a reader of lines answers nothing.
#[derive(Debug, Drop, Error)]
pub enum DocError {
    /// The first bad line.
    #[error("{0}")]
    Line(LineFault),
    /// Want of memory.
    #[error("out of memory")]
    Memory,
}

impl From<LineFault> for DocError {
    ghost from_gives = { λ fault r. r ≡ Line fault };

    fn from(fault: LineFault) -> DocError {
        DocError::Line(fault)
    }
}

impl From<AllocError> for DocError {
    ghost from_gives = { λ _ r. r ≡ Memory };

    fn from(_refusal: AllocError) -> DocError {
        DocError::Memory
    }
}

impl<T: Drop> From<AllocFailed<T>> for DocError {
    ghost from_gives = { λ _ r. r ≡ Memory };

    fn from(_refusal: AllocFailed<T>) -> DocError {
        DocError::Memory
    }
}
