//! What a text is framed into.

ghost use Rattle.std.specs.Prelude.{◌≡◌};
ghost use Rattle.snx_lines.specs.declared.blocks.FrameError.TheVariants.{Memory};

use crate::columns::Line;
use std::alloc::AllocError;
use thiserror::Error;

/// Why a text has no frame.
#[derive(Clone, Copy, Debug, PartialEq, Eq)]
pub enum FrameCause {
    /// Line 1 does not begin with `%=SNX`.
    NoHeader,
    /// Line 1 has none of `2.00`, `2.01` and `2.02` in columns 7 to 10.
    Version,
    /// A first byte that the format does not know, a `%` line that is not the footer, or a line of data outside a block.
    FirstColumn,
    /// A title while a block is open.
    Nested,
    /// An end line with another name than the open block's, or with none open.
    WrongEnd,
    /// The footer, or the end of the text, with a block open.
    NoEnd,
    /// A line that is not blank after the footer.
    AfterFooter,
    /// The end of the text without a footer.
    NoFooter,
}

/// The first bad line of a text.
#[derive(Clone, Copy, Debug, PartialEq, Eq)]
pub struct FrameFault {
    /// Its number from 1; at the end of the text the number after the last line.
    pub line: u32,
    /// Why it is bad.
    pub cause: FrameCause,
}

/// A block of a text.
#[derive(Debug, Drop)]
pub struct Block<'a> {
    /// The title's text after `+`, up to the first blank.
    pub name: &'a [u8],
    /// The line that opens the block.
    pub title: Line<'a>,
    /// Its lines of data that are not all blank.
    pub body: Vec<Line<'a>>,
}

/// A text up to its first bad line.
#[derive(Debug, Drop)]
pub struct Framing<'a> {
    /// The blocks before that line, in the order of their titles. The last may have no end.
    pub blocks: Vec<Block<'a>>,
    /// The first bad line, if there is one.
    pub stop: Option<FrameFault>,
}

/// A whole text: its first line and its blocks in order.
#[derive(Debug, Drop)]
pub struct Frame<'a> {
    /// Line 1.
    pub header: Line<'a>,
    /// The blocks in the order of their titles.
    pub blocks: Vec<Block<'a>>,
}

/// Why `frame` gives no frame.
#[derive(Debug, Drop, Error)]
pub enum FrameError {
    /// The text is not framed as SINEX asks.
    #[error("line {}: {:?}", .0.line, .0.cause)]
    Fault(FrameFault),
    /// Want of memory.
    #[error("out of memory")]
    Memory,
}

impl From<AllocError> for FrameError {
    ghost from_gives = { λ _ r. r ≡ Memory };

    fn from(_e: AllocError) -> FrameError {
        FrameError::Memory
    }
}
