//! Rows on lines, and the lines that are none.

use crate::{Cause, DocError, LineFault, Row, Shape, read_index, read_row, read_rows};
use decimal_e::{Dec, DecFault};
use snx_epoch::EpochFault;
use snx_lines::{Kind, Line};
use std::alloc::{AllocError, Global};
use std::test::Fail;

fn line_of<'a>(text: &'a [u8]) -> Line<'a> {
    Line {
        number: 7,
        kind: Kind::Data,
        text,
    }
}

fn read(text: &[u8], shape: Shape) -> Result<Row, LineFault> {
    read_row(&line_of(text), shape)
}

fn mant_of(dev: Option<Dec>) -> Option<i128> {
    match dev {
        Some(dev) => Some(dev.mant()),
        None => None,
    }
}

// Lines, and the index, the value's mantissa and the deviation's of the row that each is.
const READ: [(&[u8], Shape, u32, i128, Option<i128>); 7] = [
    (
        b"     1 STAX   ABCD  A    1 24:001:00000 m    2  .100000000000000E+01 .250000E-02",
        Shape::Value,
        1,
        1,
        Some(25),
    ),
    (
        b" 00012 STAX   ABCD  A    1 24:001:00000 m    2  .100000000000000E+13 -.0E+00",
        Shape::Value,
        12,
        1,
        Some(0),
    ),
    (
        b" 99999 STAX   ABCD  A    1 24:001:00000 m    2 -.100000000000000E+13",
        Shape::Value,
        99999,
        -1,
        None,
    ),
    (
        b" 7     STAX                00:000:00000         .300000000000000E+01",
        Shape::Value,
        7,
        3,
        None,
    ),
    (
        b" \t34\t  STAX   ABCD  A    1              m/y   \t5\t",
        Shape::Vector,
        34,
        5,
        None,
    ),
    (
        b"     2 STAX   ABCD  A    1 24:001:00000 m    2  .600000000000000E+20",
        Shape::Vector,
        2,
        6,
        None,
    ),
    (
        b"     2 STAX   ABCD  A    1 24:001:00000 m    2  .600000000000000E+01 -1 no number",
        Shape::Vector,
        2,
        6,
        None,
    ),
];

// Lines that are no row. Each has what stands in the next lines too, so that the order is seen.
const REFUSED: [(&[u8], Shape, Cause); 14] = [
    (
        b"       0 AX   ABCD  A    1 24:001:0000  m\x7f   2  .1E",
        Shape::Value,
        Cause::Index,
    ),
    (
        b"     0 STAX   ABCD  A    1 24:001:00000 m    2  .1E+01",
        Shape::Value,
        Cause::Index,
    ),
    (
        b"    +1 STAX   ABCD  A    1 24:001:00000 m    2  .1E+01",
        Shape::Value,
        Cause::Index,
    ),
    (
        b"   1 1 STAX   ABCD  A    1 24:001:00000 m    2  .1E+01",
        Shape::Vector,
        Cause::Index,
    ),
    (b"", Shape::Value, Cause::Index),
    (
        b"     1        ABCD  A    1 24:001:0000  m\x7f   2  .1E",
        Shape::Value,
        Cause::Field,
    ),
    (
        b"     1 STAX   ABCD  A    1 24:001:0000  m\x7f   2  .1E",
        Shape::Value,
        Cause::Epoch(EpochFault::Shape),
    ),
    (
        b"     1 STAX   ABCD  A    1 24:366:86401 m\x7f   2  .1E",
        Shape::Value,
        Cause::Epoch(EpochFault::Second),
    ),
    (
        b"     1 STAX   ABCD  A    1 24:001:00000 m\x7f   2  .1E",
        Shape::Vector,
        Cause::Field,
    ),
    (
        b"     1 STAX   ABCD  A    1 24:001:00000 m    2  .1E",
        Shape::Vector,
        Cause::Number(DecFault::Char { at: 3 }),
    ),
    (
        b"     1 STAX   ABCD  A    1 24:001:00000 m    2",
        Shape::Value,
        Cause::Number(DecFault::Empty),
    ),
    (
        b"     1 STAX   ABCD  A    1 24:001:00000 m    2  .100000000000001E+13 -.1E+00",
        Shape::Value,
        Cause::Size,
    ),
    (
        b"     1 STAX   ABCD  A    1 24:001:00000 m    2  .100000000000000E+13 -.1E+00",
        Shape::Value,
        Cause::Number(DecFault::Char { at: 0 }),
    ),
    (
        b"     1 STAX   ABCD  A    1 24:001:00000 m    2  .100000000000000E+13 -.1X",
        Shape::Value,
        Cause::Number(DecFault::Char { at: 3 }),
    ),
];

#[test]
fn reads_rows(rt: HostRuntime) -> Result<(), Fail> {
    for (text, shape, index, mant, dev) in READ {
        assert_eq!(rt; read_index(&line_of(text)), Some(index));
        match read(text, shape) {
            Ok(row) => {
                assert_eq!(rt; row.index, index);
                assert_eq!(rt; row.id.kind, *b"STAX  ");
                assert_eq!(rt; row.value.mant(), mant);
                assert_eq!(rt; mant_of(row.dev), dev);
                assert_eq!(rt; row.line, 7);
            }
            Err(_) => return Err("a row")?,
        }
    }
    for (text, shape, cause) in REFUSED {
        match read(text, shape) {
            Ok(_) => return Err("no row")?,
            Err(fault) => {
                assert_eq!(rt; fault, LineFault { line: 7, cause });
            }
        }
    }
    Ok(())
}

fn lines_of<'a>(alloc: Global, texts: &[(u32, &'a [u8])]) -> Result<Vec<Line<'a>>, AllocError> {
    let mut lines = Vec::new(alloc);
    for (number, text) in texts {
        lines.push(Line {
            number: *number,
            kind: Kind::Data,
            text,
        })?;
    }
    Ok(lines)
}

const ONE: &[u8] = b"     1 STAX   ABCD  A    1 24:001:00000 m    2  .100000000000000E+01";

const TWO: &[u8] = b"    12 STAY   ABCD  A    1 24:001:00000 m    2  .100000000000000E+01";

const INDEX_AGAIN: &[u8] = b"    01 STAZ   ABCD  A    1 24:001:00000 m    2  .300000000000000E+01";

const NAME_AGAIN: &[u8] = b"     3 STAY   ABCD  A   01 24:001:00000 m    2  .300000000000000E+01";

const NO_NAME: &[u8] = b"    12        ABCD  A    1 24:001:00000 m    2  .300000000000000E+01";

// Blocks by their lines, and how many rows each has, or its first bad line.
const BLOCKS: [(&[(u32, &[u8])], Result<usize, LineFault>); 6] = [
    (&[], Ok(0)),
    (&[(8, TWO), (9, ONE)], Ok(2)),
    (
        &[(8, TWO), (9, ONE), (11, INDEX_AGAIN), (12, NO_NAME)],
        Err(LineFault {
            line: 11,
            cause: Cause::Repeated,
        }),
    ),
    (
        &[(8, ONE), (9, TWO), (10, NAME_AGAIN)],
        Err(LineFault {
            line: 10,
            cause: Cause::Repeated,
        }),
    ),
    (
        &[(8, ONE), (9, INDEX_AGAIN), (10, NAME_AGAIN)],
        Err(LineFault {
            line: 9,
            cause: Cause::Repeated,
        }),
    ),
    (
        &[(8, TWO), (13, NO_NAME), (14, TWO)],
        Err(LineFault {
            line: 13,
            cause: Cause::Field,
        }),
    ),
];

#[test]
fn reads_blocks(rt: HostRuntime) -> Result<(), Fail> {
    for (texts, said) in BLOCKS {
        let lines = lines_of(rt.alloc(), texts)?;
        match read_rows(rt.alloc(), Shape::Value, &lines) {
            Ok(rows) => {
                assert_eq!(rt; Ok(rows.len()), said);
            }
            Err(DocError::Line(fault)) => {
                assert_eq!(rt; Err(fault), said);
            }
            Err(DocError::Memory) => return Err("out of memory")?,
        }
    }
    Ok(())
}
