//! The pass over the lines of a text.

ghost use Rattle.std.specs.Prelude.{◌≡◌, ◌+◌, ◌≤◌, ◌<◌, ◌^◌, ℕ, length, drop, IfOk};
ghost use Rattle.std.specs.Option.{option_copied, option_map};
ghost use Rattle.stated_order.specs.Lists.{Ascends};
ghost use Rattle.snx_lines.specs.Lines.{lines_in, line_at, kind_of};
ghost use Rattle.snx_lines.specs.Framing.{is_header, is_version, has_version, is_footer, first_cause, later_cause, kind_cause, end_cause, PlainFraming, IsFraming, lines_held, StandsBefore, StandBelow};
ghost use Rattle.snx_lines.specs.Views.{line_view, block_view, framing_view, Frames};
ghost use Rattle.snx_lines.specs.Passing.{start, next_cause, text_end_cause, kept, framed, state_view, name_open, with_line, blocks_with};

use crate::blocks::{Block, Frame, FrameCause, FrameError, FrameFault, Framing};
use crate::columns::{Kind, Line, cut_at_80, kind_from, name_from};
use blanks::is_all_blank;
use bstr::ByteSlice;
use std::alloc::{AllocError, Global};

fn begins_as_header(text: &[u8]) -> bool
    ensures { result ≡ is_header text.now }
{
    text.starts_with(b"%=SNX")
}

fn begins_as_footer(text: &[u8]) -> bool
    ensures { result ≡ is_footer text.now }
{
    text.starts_with(b"%ENDSNX")
}

fn is_read_version(text: &[u8]) -> bool
    ensures { result ≡ is_version text.now }
{
    text.starts_with(b"2.00") || text.starts_with(b"2.01") || text.starts_with(b"2.02")
}

/// What follows column 6.
#[tactic(auto, using(std::proofs::lemmas::List::drop_min))]
fn after_6<'a>(text: &'a [u8]) -> &'a [u8]
    ensures { result.now ≡ drop 6 text.now }
{
    let from = 6usize.min(text.len());
    &text[from..]
}

fn has_read_version(text: &[u8]) -> bool
    ensures { result ≡ has_version text.now }
{
    is_read_version(after_6(text))
}

/// Why line 1 is bad, if it is.
fn judge_first(text: &[u8]) -> Option<FrameCause>
    ensures { result ≡ first_cause text.now }
{
    if !begins_as_header(text) {
        return Some(FrameCause::NoHeader);
    }
    if has_read_version(text) {
        None
    } else {
        Some(FrameCause::Version)
    }
}

/// Why an end line is bad, by the name of the open block.
fn judge_end(open_name: Option<&[u8]>, text: &[u8]) -> Option<FrameCause>
    ensures { result ≡ end_cause (option_copied open_name.entry) text.now }
{
    match open_name {
        Some(name) if name == name_from(text) => None,
        _ => Some(FrameCause::WrongEnd),
    }
}

/// Why a line that is read is bad, by its kind.
fn judge_kind(open_name: Option<&[u8]>, text: &[u8]) -> Option<FrameCause>
    ensures { result ≡ kind_cause (kind_of text.now) (option_copied open_name.entry) text.now }
{
    match (kind_from(text), open_name) {
        (None, _) => Some(FrameCause::FirstColumn),
        (Some(Kind::Comment), _) => None,
        (Some(Kind::End), name) => judge_end(name, text),
        (Some(Kind::Start), None) => None,
        (Some(Kind::Start), Some(_)) => Some(FrameCause::Nested),
        (Some(Kind::Data), None) => Some(FrameCause::FirstColumn),
        (Some(Kind::Data), Some(_)) => None,
        (Some(Kind::Header), name) => {
            if !begins_as_footer(text) {
                Some(FrameCause::FirstColumn)
            } else if name.is_some() {
                Some(FrameCause::NoEnd)
            } else {
                None
            }
        }
    }
}

/// Why a line after line 1 is bad, if it is.
fn judge_later(closed: bool, open_name: Option<&[u8]>, text: &[u8]) -> Option<FrameCause>
    ensures { result ≡ later_cause closed (option_copied open_name.entry) text.now }
{
    if is_all_blank(text) {
        None
    } else if closed {
        Some(FrameCause::AfterFooter)
    } else {
        judge_kind(open_name, text)
    }
}

/// What is known after some lines.
#[derive(Drop)]
pub(crate) struct Framer<'a> {
    alloc: Global,
    blocks: Vec<Block<'a>>,
    current: Option<Block<'a>>,
    closed: bool,
    number: u32,
}

impl<'a> Framer<'a> {
    /// Before line 1.
    fn new(alloc: Global) -> Framer<'a>
        ensures { state_view result ≡ start }
    {
        Framer {
            alloc,
            blocks: Vec::new(alloc),
            current: None,
            closed: false,
            number: 0,
        }
    }

    /// The name of the block that is open.
    fn open_name(&self) -> Option<&'a [u8]>
        ensures { option_copied result ≡ name_open (state_view self.now).current }
    {
        match &self.current {
            Some(block) => Some(block.name),
            None => None,
        }
    }

    /// Why a further line is bad, if it is.
    fn judge(&self, text: &[u8]) -> Option<FrameCause>
        ensures { result ≡ next_cause (state_view self.now) text.now }
    {
        if self.number == 0 {
            judge_first(text)
        } else {
            judge_later(self.closed, self.open_name(), text)
        }
    }

    /// Why the end of the text is bad, if it is.
    fn judge_end_of_text(&self) -> Option<FrameCause>
        ensures { result ≡ text_end_cause (state_view self.now) }
    {
        if self.number == 0 {
            Some(FrameCause::NoHeader)
        } else if self.closed {
            None
        } else if self.current.is_some() {
            Some(FrameCause::NoEnd)
        } else {
            Some(FrameCause::NoFooter)
        }
    }

    /// Ends the block that is open.
    fn end_block(&mut self) -> Result<(), AllocError>
        ensures { IfOk result (λ _. state_view self.new ≡ record (state_view self.old) { blocks = blocks_with (state_view self.old).current (state_view self.old).blocks; current = None }) }
    {
        if let Some(block) = self.current.take() {
            self.blocks.push(block)?;
        }
        Ok(())
    }

    /// Puts a line of data into the block that is open.
    fn add_line(&mut self, line: Line<'a>) -> Result<(), AllocError>
        ensures { IfOk result (λ _. state_view self.new ≡ record (state_view self.old) { current = option_map (with_line (line_view line.entry)) (state_view self.old).current }) }
    {
        if let Some(mut block) = self.current.take() {
            block.body.push(line)?;
            self.current = Some(block);
        }
        Ok(())
    }

    /// Keeps what a line that is not bad does.
    fn keep(&mut self, text: &'a [u8]) -> Result<(), AllocError>
        requires { self.old.number < 2 ^ 31 }
        ensures { IfOk result (λ _. state_view self.new ≡ kept (state_view self.old) text.now) }
    {
        self.number += 1;
        self.closed = self.closed || begins_as_footer(text);
        let number = self.number;
        match kind_from(text) {
            Some(kind @ Kind::Start) => {
                let body = Vec::new(self.alloc);
                self.current = Some(Block {
                    name: name_from(text),
                    title: Line { number, kind, text },
                    body,
                });
            }
            Some(Kind::End) => self.end_block()?,
            Some(kind @ Kind::Data) => {
                if !is_all_blank(text) {
                    self.add_line(Line { number, kind, text })?;
                }
            }
            Some(Kind::Header | Kind::Comment) | None => {}
        }
        Ok(())
    }

    /// The blocks so far, with the one that is open, and a fault of the next line where it is bad for a cause.
    fn finished(mut self, cause: Option<FrameCause>) -> Result<Framing<'a>, AllocError>
        requires { self.number < 2 ^ 31 }
        ensures { IfOk result (λ framing. framing_view framing ≡ framed (state_view self.entry) cause) }
    {
        self.end_block()?;
        let line = self.number + 1;
        Ok(Framing {
            blocks: self.blocks,
            stop: cause.map(|cause| FrameFault { line, cause }),
        })
    }
}

/// The blocks of a text of at most 64 MiB up to its first bad line, and that line with its cause, as the SINEX 2.02
/// format description asks. The block that is open there is among them. Lines are borrowed from the text.
///
/// # Errors
///
/// Want of memory.
pub fn framing<'a>(alloc: Global, text: &'a [u8]) -> Result<Framing<'a>, AllocError>
    requires { length text.now ≤ 2 ^ 26 }
    ensures framed { IfOk result (λ f. IsFraming (lines_in text.now) (framing_view f)) }
    // each text has one framing
    ensures alone { IfOk result (λ f. (other : PlainFraming) → IsFraming (lines_in text.now) other → other ≡ framing_view f) }
    // titles and lines of data ascend in number
    ensures ascend { IfOk result (λ f. Ascends StandsBefore (lines_held (framing_view f).blocks)) }
    // and stand before the bad line
    ensures below { IfOk result (λ f. StandBelow f.stop (lines_held (framing_view f).blocks)) }
{
    let mut framer = Framer::new(alloc);
    for line in text.lines() {
        let line = cut_at_80(line);
        if let Some(cause) = framer.judge(line) {
            return framer.finished(Some(cause));
        }
        framer.keep(line)?;
    }
    let cause = framer.judge_end_of_text();
    framer.finished(cause)
}

/// The frame of a text of at most 64 MiB: its header and its blocks. Lines are borrowed from the text.
///
/// # Errors
///
/// The first bad line of the text with its cause; or want of memory.
pub fn frame<'a>(alloc: Global, text: &'a [u8]) -> Result<Frame<'a>, FrameError>
    requires { length text.now ≤ 2 ^ 26 }
    ensures { Frames (lines_in text.now) result }
{
    let framing = framing(alloc, text)?;
    if let Some(fault) = framing.stop {
        return Err(FrameError::Fault(fault));
    }
    let line_1 = text.lines().next().unwrap_or_default();
    let header = Line {
        number: 1,
        kind: Kind::Header,
        text: cut_at_80(line_1),
    };
    Ok(Frame {
        header,
        blocks: framing.blocks,
    })
}
