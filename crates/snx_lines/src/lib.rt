//! The lines of a SINEX text and the blocks that they frame.
#![tactic(auto)]

mod blocks;
mod columns;
mod passing;

pub use blocks::{Block, Frame, FrameCause, FrameError, FrameFault, Framing};
pub use columns::{Kind, Line, field, word};
pub use passing::{frame, framing};

#[cfg(test)]
mod tests;
