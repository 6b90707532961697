//! Lines of matrices, the elements that they give, and titles.

ghost use Rattle.std.specs.Prelude.{IfOk};
ghost use Rattle.snx_rows.specs.Blocks.{AreSound};
ghost use Rattle.snx_rows.specs.declared.rows.Shape.TheVariants.{Vector};

use crate::{Cell, Content, Heading, Triangle, normal_heading, read_elements, solution_heading};
use decimal_e::DecFault;
use snx_lines::{Kind, Line};
use snx_rows::{Cause, DocError, LineFault, Row, Shape, read_rows};
use std::alloc::{AllocError, Global};
use std::test::Fail;

// Four rows, whose indices are 3, 1, 2 and 5.
const ROWS: [&[u8]; 4] = [
    b"     3 STAX   ABCD  A    1 24:001:00000 m    2  .100000000000000E+01",
    b"     1 STAY   ABCD  A    1 24:001:00000 m    2  .100000000000000E+01",
    b"     2 STAZ   ABCD  A    1 24:001:00000 m    2  .100000000000000E+01",
    b"     5 STAX   EFGH  A    1 24:001:00000 m    2  .100000000000000E+01",
];

// The row's place, the column's, and the mantissa and the exponent of the value.
type Element = (u32, u32, i128, i32);

// Lines, from the seventh of a text on, and their elements.
const READ: [(Triangle, &[&[u8]], &[Element]); 6] = [
    (Triangle::Lower, &[], &[]),
    (
        Triangle::Lower,
        &[
            b"     1     1  .100000000000000E+01",
            b"     2     1  .200000000000000E+01 -.300000000000000E-01",
            b" 00003 1      4.D+02                                      .5d+00",
            b"     5     5\t7",
        ],
        &[
            (1, 1, 1, 0),
            (2, 1, 2, 0),
            (2, 2, -3, -2),
            (0, 1, 4, 2),
            (0, 0, 5, -1),
            (3, 3, 7, 0),
        ],
    ),
    (
        Triangle::Upper,
        &[b"     1     1  .100000000000000E+01  .200000000000000E+01  .300000000000000E+01"],
        &[(1, 1, 1, 0), (1, 2, 2, 0), (1, 0, 3, 0)],
    ),
    // Zeros are none: in the other triangle, in the column of no row, and before the same element.
    (
        Triangle::Lower,
        &[
            b"     2     2  .000000000000000E+00  0.0                   -.0E+00",
            b"     2     2  .100000000000000E+01",
        ],
        &[(2, 2, 1, 0)],
    ),
    // A line of no values needs a column that is a row's, and no more.
    (Triangle::Upper, &[b"     5     1", b"     5     1   "], &[]),
    // Whatever follows column 78 is not read.
    (
        Triangle::Lower,
        &[b"     5     1  .100000000000000E+01  .200000000000000E+01  .300000000000000E+01 x"],
        &[(3, 1, 1, 0), (3, 2, 2, 0), (3, 0, 3, 0)],
    ),
];

// Bad lines. Each has what stands in the next ones too, so that the order is seen.
const REFUSED: [(Triangle, &[&[u8]], u32, Cause); 14] = [
    (Triangle::Lower, &[b""], 7, Cause::Index),
    (Triangle::Lower, &[b"     4     2  x"], 7, Cause::Index),
    (Triangle::Lower, &[b"     1     4  x"], 7, Cause::Index),
    (Triangle::Lower, &[b"     1    +1  x"], 7, Cause::Index),
    (Triangle::Lower, &[b"     0     1  x"], 7, Cause::Index),
    (
        Triangle::Lower,
        &[b"     1     2  .1E                    x"],
        7,
        Cause::Number(DecFault::Char { at: 3 }),
    ),
    (
        Triangle::Lower,
        &[b"     1     2  .100000000000000E+01  x"],
        7,
        Cause::Triangle,
    ),
    (
        Triangle::Upper,
        &[b"     2     1  .100000000000000E+01"],
        7,
        Cause::Triangle,
    ),
    (
        Triangle::Lower,
        &[b"     2     1  .100000000000000E+01  x                     .200000000000000E+01"],
        7,
        Cause::Number(DecFault::Char { at: 0 }),
    ),
    (
        Triangle::Lower,
        &[b"     2     1                                              .200000000000000E+01"],
        7,
        Cause::Triangle,
    ),
    // The second value stands in column 4, which is of no row, and on the other side of the diagonal.
    (
        Triangle::Lower,
        &[b"     3     3  .100000000000000E+01  .200000000000000E+01"],
        7,
        Cause::Index,
    ),
    (
        Triangle::Lower,
        &[
            b"     2     1  .100000000000000E+01",
            b"     2     1  .100000000000000E+01",
        ],
        8,
        Cause::Repeated,
    ),
    (
        Triangle::Lower,
        &[
            b"     3     1  .100000000000000E+01  .200000000000000E+01",
            b"     3     2  .200000000000000E+01  x",
            b"     4",
        ],
        8,
        Cause::Repeated,
    ),
    (
        Triangle::Upper,
        &[
            b"     1     1  .1E                    x",
            b"     9     1  .100000000000000E+01",
        ],
        7,
        Cause::Number(DecFault::Char { at: 3 }),
    ),
];

// Titles, and what they say of a normal equation matrix and of a solution's.
const TITLES: [(&[u8], Option<Triangle>, Option<(Triangle, Content)>); 12] = [
    (b"+M L", Some(Triangle::Lower), None),
    (b"+M  \tU ", Some(Triangle::Upper), None),
    (b"+M L COVA", None, Some((Triangle::Lower, Content::Cova))),
    (b"+M U  CORR", None, Some((Triangle::Upper, Content::Corr))),
    (b"+M L\tINFO ", None, Some((Triangle::Lower, Content::Info))),
    (b"+M", None, None),
    (b"+M l", None, None),
    (b"+M LU", None, None),
    (b"+M COVA L", None, None),
    (b"+M L COVA x", None, None),
    (b"+M L CORRS", None, None),
    (b"+ML", None, None),
];

fn line_of<'a>(number: u32, text: &'a [u8]) -> Line<'a> {
    Line {
        number,
        kind: Kind::Data,
        text,
    }
}

fn lines_of<'a>(alloc: Global, texts: &[&'a [u8]]) -> Result<Vec<Line<'a>>, AllocError> {
    let mut lines = Vec::new(alloc);
    let mut number = 7_u32;
    for text in texts {
        lines.push(line_of(number, *text))?;
        number = number.wrapping_add(1);
    }
    Ok(lines)
}

fn four_rows(alloc: Global) -> Result<Vec<Row>, DocError>
    ensures { IfOk result (λ rows. AreSound Vector rows.items) }
{
    let lines = lines_of(alloc, &ROWS)?;
    read_rows(alloc, Shape::Vector, &lines)
}

fn read(alloc: Global, triangle: Triangle, texts: &[&[u8]]) -> Result<Vec<Cell>, DocError> {
    let rows = four_rows(alloc)?;
    let lines = lines_of(alloc, texts)?;
    read_elements(alloc, triangle, &rows, &lines)
}

fn element(cell: &Cell) -> Element {
    (cell.row, cell.col, cell.value.mant(), cell.value.exp())
}

#[test]
fn reads_matrices(rt: HostRuntime) -> Result<(), Fail> {
    for (triangle, texts, elements) in READ {
        let cells = read(rt.alloc(), triangle, texts)?;
        assert_eq!(rt; cells.len(), elements.len());
        for (cell, expected) in cells.iter().zip(elements) {
            assert_eq!(rt; element(cell), *expected);
        }
    }
    for (triangle, texts, line, cause) in REFUSED {
        match read(rt.alloc(), triangle, texts) {
            Err(DocError::Line(fault)) => {
                assert_eq!(rt; fault, LineFault { line, cause });
            }
            _ => return Err("no elements")?,
        }
    }
    Ok(())
}

#[test]
fn reads_titles(rt: HostRuntime) -> Result<(), Fail> {
    for (text, normal, solution) in TITLES {
        let title = line_of(7, text);
        let normal = normal.map(|triangle| Heading {
            triangle,
            content: Content::Info,
        });
        let solution = solution.map(|(triangle, content)| Heading { triangle, content });
        assert_eq!(rt; normal_heading(&title), normal);
        assert_eq!(rt; solution_heading(&title), solution);
    }
    Ok(())
}
