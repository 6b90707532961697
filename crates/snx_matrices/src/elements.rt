//! What a matrix is made of.

ghost use Rattle.std.specs.Prelude.{◌≡◌};
ghost use Rattle.snx_matrices.specs.Elements.{triangle_of, content_of, normal_heading, solution_heading, lacks_word};

use decimal_e::Dec;
use snx_lines::{Line, word};

/// Which elements of a symmetric matrix its lines give.
#[derive(Clone, Copy, Debug, PartialEq, Eq)]
pub enum Triangle {
    /// `L`: those whose row's index is at or above their column's.
    Lower,
    /// `U`: those whose row's index is at or below their column's.
    Upper,
}

/// What the elements of a matrix are.
#[derive(Clone, Copy, Debug, PartialEq, Eq)]
pub enum Content {
    /// Covariances.
    Cova,
    /// Correlations.
    Corr,
    /// Elements of an information matrix, the inverse of a covariance matrix; or of a normal equation matrix.
    Info,
}

/// An element that a matrix gives. It is not zero.
#[derive(Clone, Copy, Debug)]
pub struct Cell {
    /// The place of its row in the block of rows, from 0.
    pub row: u32,
    /// The place of its column there.
    pub col: u32,
    /// Its value.
    pub value: Dec,
}

/// What the title of a matrix says.
#[derive(Clone, Copy, Debug, PartialEq, Eq)]
pub struct Heading {
    /// Which elements are given.
    pub triangle: Triangle,
    /// What they are.
    pub content: Content,
}

/// A row that a line calls by its index.
#[derive(Clone, Copy)]
pub(crate) struct Called {
    /// Its index.
    pub index: u32,
    /// Its place, from 0.
    pub place: u32,
}

/// The two rows that a line calls.
#[derive(Clone, Copy)]
pub(crate) struct Pair {
    /// The row of its elements.
    pub row: Called,
    /// The column of its first value.
    pub column: Called,
}

/// The triangle that a word names.
fn triangle_of(text: &[u8]) -> Option<Triangle>
    ensures { result ≡ triangle_of text.now }
{
    if text == b"L".as_slice() {
        Some(Triangle::Lower)
    } else if text == b"U".as_slice() {
        Some(Triangle::Upper)
    } else {
        None
    }
}

/// What a word says of the elements.
fn content_of(text: &[u8]) -> Option<Content>
    ensures { result ≡ content_of text.now }
{
    if text == b"COVA".as_slice() {
        Some(Content::Cova)
    } else if text == b"CORR".as_slice() {
        Some(Content::Corr)
    } else if text == b"INFO".as_slice() {
        Some(Content::Info)
    } else {
        None
    }
}

/// Whether a title has no word `k` after its name, counted from 0.
fn lacks_word(title: &Line, k: usize) -> bool
    ensures { result ≡ lacks_word title.now.text.now k }
{
    word(title, k).is_empty()
}

/// What the title of a normal equation matrix says: one word after its name, `L` or `U`. None where it says anything else.
pub fn normal_heading(title: &Line) -> Option<Heading>
    ensures { result ≡ normal_heading title.now.text.now }
{
    if !lacks_word(title, 1) {
        return None;
    }
    let triangle = triangle_of(word(title, 0))?;
    Some(Heading {
        triangle,
        content: Content::Info,
    })
}

/// What the title of a solution's matrix says: `L` or `U`, and one of `COVA`, `CORR` and `INFO`. None where it says anything else.
pub fn solution_heading(title: &Line) -> Option<Heading>
    ensures { result ≡ solution_heading title.now.text.now }
{
    if !lacks_word(title, 2) {
        return None;
    }
    let triangle = triangle_of(word(title, 0))?;
    let content = content_of(word(title, 1))?;
    Some(Heading { triangle, content })
}
