//! Lines and their columns.

ghost use Rattle.std.specs.Prelude.{◌≡◌, ◌+◌, ◌-◌, ◌≤◌, ◌<◌, ℕ, length, take, drop};
ghost use Rattle.std.specs.List.{before_first, position_or_len};
ghost use Rattle.blanks.specs.Blanks.{is_blank};
ghost use Rattle.snx_lines.specs.Lines.{kind_by, kind_of, columns, name_on, cut, from_blank, word_at, title_word};

use blanks::{is_blank, trim, trim_front};

/// What the first column of a line says.
#[derive(Clone, Copy, Debug, PartialEq, Eq)]
pub enum Kind {
    /// `%`: the header or the footer.
    Header,
    /// `*`: a comment.
    Comment,
    /// `+`: the title of a block.
    Start,
    /// `-`: the end of a block.
    End,
    /// A blank, or no column at all.
    Data,
}

/// A line of a text, cut at column 80.
#[derive(Clone, Copy, Debug)]
pub struct Line<'a> {
    /// Its number in the text, from 1.
    pub number: u32,
    /// What its first column says.
    pub kind: Kind,
    /// Its bytes without the line's end.
    pub text: &'a [u8],
}

/// What a line's first column says; nothing where its byte is none of the format's.
pub(crate) fn kind_from(text: &[u8]) -> Option<Kind>
    ensures { result ≡ kind_of text.now }
{
    match text {
        [] => Some(Kind::Data),
        [b'%', ..] => Some(Kind::Header),
        [b'*', ..] => Some(Kind::Comment),
        [b'+', ..] => Some(Kind::Start),
        [b'-', ..] => Some(Kind::End),
        [b' ' | b'\t', ..] => Some(Kind::Data),
        _ => None,
    }
}

/// The first 80 columns.
#[tactic(auto, using(std::proofs::lemmas::List::take_min))]
pub(crate) fn cut_at_80<'a>(text: &'a [u8]) -> &'a [u8]
    ensures { result.now ≡ cut text.now }
{
    let end = 80usize.min(text.len());
    &text[..end]
}

/// How many bytes stand before the first blank.
fn first_blank(text: &[u8]) -> usize
    ensures place { result ≡ position_or_len is_blank text.now }
    ensures within { result ≤ length text.now }
{
    for (i, b) in text.iter().enumerate() {
        if is_blank(*b) {
            return i;
        }
    }
    text.len()
}

/// A text up to its first blank.
fn to_blank<'a>(text: &'a [u8]) -> &'a [u8]
    ensures { result.now ≡ before_first is_blank text.now }
{
    let end = first_blank(text);
    &text[..end]
}

/// A text from its first blank on.
fn from_blank<'a>(text: &'a [u8]) -> &'a [u8]
    ensures { result.now ≡ from_blank text.now }
{
    let start = first_blank(text);
    &text[start..]
}

/// A text without its first column.
fn after_column_1<'a>(text: &'a [u8]) -> &'a [u8]
    ensures { result.now ≡ drop 1 text.now }
{
    match text {
        [] => text,
        [_, rest @ ..] => rest,
    }
}

/// The name on a title or an end line.
pub(crate) fn name_from<'a>(text: &'a [u8]) -> &'a [u8]
    ensures { result.now ≡ name_on text.now }
{
    to_blank(after_column_1(text))
}

/// Word `k` of a title after its name, counted from 0. It is empty where the title has no such word.
pub fn word<'a>(title: &Line<'a>, k: usize) -> &'a [u8]
    ensures { result.now ≡ title_word title.now.text.now k }
{
    let mut rest = from_blank(after_column_1(title.text));
    let mut left = k;
    while left > 0 {
        rest = from_blank(trim_front(rest));
        left -= 1;
    }
    to_blank(trim_front(rest))
}

/// Columns `from` to `to` of a line, counted from 1, without the blanks at both ends. Columns that the line lacks are blank.
pub fn field<'a>(line: &Line<'a>, from: usize, to: usize) -> &'a [u8]
    requires first { 1 ≤ from }
    requires order { from ≤ to }
    ensures { result.now ≡ columns line.now.text.now from to }
{
    let text = line.text;
    let end = to.min(text.len());
    let start = (from - 1).min(end);
    trim(&text[start..end])
}
