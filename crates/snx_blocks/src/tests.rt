//! Small texts, their documents and their first bad lines.

use crate::{Cause, Doc, DocError, LineFault, read_doc};
use snx_lines::FrameCause;
use std::alloc::{AllocError, Global};
use std::test::Fail;
use std::thread::Threads;

const HEADER: &[u8] = b"%=SNX 2.02 ABC 24:002:00000 ABC 24:001:00000 24:002:00000 P 00001 2 S";

const ROW: &[u8] = b"     1 STAX   ABCD  A    1 24:001:00000 m    2  .100000000000000E+01";

const OTHER_ROW: &[u8] = b"     2 STAY   ABCD  A    1 24:001:00000 m    2  .200000000000000E+01";

const ELEMENT: &[u8] = b"     1     1   .40000000000000E+01";

// Each block that is read, once, and one that is passed over. The blocks of rows have one, two and one.
const WHOLE: [&[u8]; 32] = [
    HEADER,
    b"+FILE/COMMENT",
    b" SOLUTION/ESTIMATE",
    b"-FILE/COMMENT",
    b"+SITE/ID",
    b" ABCD  A 12345M001 P a site",
    b"-SITE/ID",
    b"+SOLUTION/EPOCHS",
    b" ABCD  A    1 P 24:001:00000 24:002:00000 24:001:43200",
    b"-SOLUTION/EPOCHS",
    b"+SOLUTION/ESTIMATE",
    ROW,
    b"-SOLUTION/ESTIMATE",
    b"+SOLUTION/APRIORI",
    ROW,
    OTHER_ROW,
    b"-SOLUTION/APRIORI",
    b"+SOLUTION/MATRIX_ESTIMATE L COVA",
    ELEMENT,
    b"-SOLUTION/MATRIX_ESTIMATE",
    b"+SOLUTION/MATRIX_APRIORI L INFO",
    ELEMENT,
    b"     2     1   .10000000000000E+01   .50000000000000E+01",
    b"-SOLUTION/MATRIX_APRIORI L INFO",
    b"+SOLUTION/NORMAL_EQUATION_VECTOR",
    ROW,
    b"-SOLUTION/NORMAL_EQUATION_VECTOR",
    b"+SOLUTION/NORMAL_EQUATION_MATRIX U",
    ELEMENT,
    b"-SOLUTION/NORMAL_EQUATION_MATRIX U",
    b"* text",
    b"%ENDSNX",
];

// What follows a text's first line, and its first bad line. Most have what is bad for another cause too, so that the order is seen.
const REFUSED: [(&[&[u8]], u32, Cause); 9] = [
    (&[], 2, Cause::Frame(FrameCause::NoFooter)),
    (
        &[b"+SITE/ID", b"-SITE/ID", b"+SITE/ID", b" ?"],
        4,
        Cause::Repeated,
    ),
    (
        &[
            b"+SOLUTION/ESTIMATE",
            ROW,
            b"-SOLUTION/ESTIMATE",
            b"+SOLUTION/ESTIMATE",
            b"     0",
        ],
        5,
        Cause::Repeated,
    ),
    // A matrix of a priori values has no rows in the estimates, and its title names no triangle either.
    (
        &[
            b"+SOLUTION/ESTIMATE",
            ROW,
            b"-SOLUTION/ESTIMATE",
            b"+SOLUTION/MATRIX_APRIORI",
        ],
        5,
        Cause::MissingBlock,
    ),
    (
        &[
            b"+SOLUTION/ESTIMATE",
            ROW,
            b"-SOLUTION/ESTIMATE",
            b"+SOLUTION/MATRIX_ESTIMATE L",
            b"     0",
        ],
        5,
        Cause::Field,
    ),
    (
        &[
            b"+SOLUTION/NORMAL_EQUATION_VECTOR",
            ROW,
            b"-SOLUTION/NORMAL_EQUATION_VECTOR",
            b"+SOLUTION/NORMAL_EQUATION_MATRIX L",
            b"-SOLUTION/NORMAL_EQUATION_MATRIX",
            b"+SOLUTION/NORMAL_EQUATION_MATRIX",
        ],
        7,
        Cause::Repeated,
    ),
    (
        &[
            b"+SOLUTION/NORMAL_EQUATION_VECTOR",
            ROW,
            b"-SOLUTION/NORMAL_EQUATION_VECTOR",
            b"+SOLUTION/NORMAL_EQUATION_MATRIX L",
            b"     1     2",
            b"#",
        ],
        6,
        Cause::Index,
    ),
    // The block has no end, and a row of it is bad before.
    (&[b"+SOLUTION/APRIORI", ROW, b"     0"], 4, Cause::Index),
    (
        &[b"+SOLUTION/APRIORI", ROW],
        4,
        Cause::Frame(FrameCause::NoEnd),
    ),
];

fn joined(alloc: Global, lines: &[&[u8]]) -> Result<Vec<u8>, AllocError> {
    let mut text = Vec::new(alloc);
    for line in lines {
        text.extend_from_slice(line)?;
        text.push(b'\n')?;
    }
    Ok(text)
}

fn read<R: Threads + Sync>(rt: &R, alloc: Global, text: &[u8]) -> Result<Doc, DocError> {
    if text.len() > 10_000 {
        return Err(DocError::Memory);
    }
    read_doc(rt, alloc, text)
}

/// The first bad line of a text; line 0 where it has none.
fn fault_of<R: Threads + Sync>(rt: &R, alloc: Global, text: &[u8]) -> LineFault {
    match read(rt, alloc, text) {
        Err(DocError::Line(fault)) => fault,
        _ => LineFault {
            line: 0,
            cause: Cause::Field,
        },
    }
}

#[test]
fn a_whole_text(rt: HostRuntime) -> Result<(), Fail> {
    let text = joined(rt.alloc(), &WHOLE)?;
    let doc = read(&rt, rt.alloc(), &text)?;
    let estimates = doc.estimates.as_ref().ok_or("estimates")?;
    assert_eq!(rt; estimates.len(), 1);
    let apriori = doc.apriori.as_ref().ok_or("a priori values")?;
    assert_eq!(rt; apriori.len(), 2);
    let vector = doc.vector.as_ref().ok_or("right sides")?;
    assert_eq!(rt; vector.len(), 1);
    let estimate_matrix = doc.estimate_matrix.as_ref().ok_or("their matrix")?;
    assert_eq!(rt; estimate_matrix.cells.len(), 1);
    let apriori_matrix = doc
        .apriori_matrix
        .as_ref()
        .ok_or("the matrix of a priori values")?;
    assert_eq!(rt; apriori_matrix.cells.len(), 3);
    let normal_matrix = doc
        .normal_matrix
        .as_ref()
        .ok_or("the normal equation matrix")?;
    assert_eq!(rt; normal_matrix.cells.len(), 1);
    let sites = doc.sites.as_ref().ok_or("sites")?;
    assert_eq!(rt; sites.len(), 1);
    let epochs = doc.epochs.as_ref().ok_or("epochs")?;
    assert_eq!(rt; epochs.len(), 1);
    Ok(())
}

#[test]
fn first_bad_lines(rt: HostRuntime) -> Result<(), Fail> {
    for (lines, line, cause) in REFUSED {
        let mut text = joined(rt.alloc(), &[HEADER])?;
        let rest = joined(rt.alloc(), lines)?;
        text.extend_from_slice(&rest)?;
        let want = LineFault { line, cause };
        assert_eq!(rt; fault_of(&rt, rt.alloc(), &text), want, "at {line}");
    }
    Ok(())
}
