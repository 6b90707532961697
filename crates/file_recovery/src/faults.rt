//! Why a file has no normal equations.

ghost use Rattle.std.specs.Prelude.{◌≡◌};
ghost use Rattle.file_recovery.specs.declared.faults.FileError.TheVariants.{Memory, Fault};

use named_tables::RecoverFault;
use snx_blocks::Section;
use std::alloc::AllocError;
use thiserror::Error;

/// Why a file has no normal equations.
#[derive(Clone, Copy, Debug, PartialEq, Eq, Error)]
pub enum FileFault {
    /// It lacks a block that is needed.
    #[error("a block is missing")]
    MissingBlock { block: Section },
    /// Its blocks give none.
    #[error("{0}")]
    Recovery(RecoverFault),
}

/// Why the normal equations of a file are not answered.
#[derive(Clone, Copy, Debug, PartialEq, Eq, Error)]
pub enum FileError {
    /// It has none.
    #[error("{0}")]
    Fault(FileFault),
    /// Want of memory.
    #[error("out of memory")]
    Memory,
}
