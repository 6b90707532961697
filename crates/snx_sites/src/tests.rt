//! Sites and moments on lines, and the lines that say none.

use crate::{EpochRow, SiteRow, read_epochs, read_sites};
use snx_epoch::{Epoch, EpochFault};
use snx_lines::{Kind, Line};
use snx_rows::{Cause, DocError};
use std::alloc::Global;
use std::test::Fail;

fn lines_of<'a>(text: &'a [u8]) -> [Line<'a>; 1] {
    [Line {
        number: 7,
        kind: Kind::Data,
        text,
    }]
}

fn sites_on(alloc: Global, text: &[u8]) -> Result<Vec<SiteRow>, DocError> {
    read_sites(alloc, &lines_of(text))
}

fn epochs_on(alloc: Global, text: &[u8]) -> Result<Vec<EpochRow>, DocError> {
    read_epochs(alloc, &lines_of(text))
}

// Lines of SITE/ID, and the code, the point and the text of the site that each is.
const SITES: [(&[u8], [u8; 4], [u8; 2], &[u8]); 3] = [
    (
        b" ABMF  A 97103M001 P Les Abymes             298 28 20.9  16 15 44.3   -25.6 \t ",
        *b"ABMF",
        *b"A ",
        b" ABMF  A 97103M001 P Les Abymes             298 28 20.9  16 15 44.3   -25.6",
    ),
    (b" 7", *b"7   ", *b"  ", b" 7"),
    (
        b" \tB   AB \x00\xff",
        *b"B   ",
        *b"AB",
        b" \tB   AB \x00\xff",
    ),
];

// Lines of SOLUTION/EPOCHS, and the solution, the technique and the moments that each gives.
const MOMENTS: [(&[u8], [u8; 4], u8, Epoch, Epoch, Epoch); 3] = [
    (
        b" ABMF  A    1 P 70:001:00001 70:002:86400 70:002:00003",
        *b"1   ",
        b'P',
        Epoch::At { day: 0, second: 1 },
        Epoch::At { day: 2, second: 0 },
        Epoch::At { day: 1, second: 3 },
    ),
    (
        b" ABMF  A 0012 \t 00:000:00000 70:001:00002",
        *b"12  ",
        b' ',
        Epoch::Never,
        Epoch::At { day: 0, second: 2 },
        Epoch::Never,
    ),
    (
        b" ABMF  A ----",
        *b"----",
        b' ',
        Epoch::Never,
        Epoch::Never,
        Epoch::Never,
    ),
];

// Lines that are bad. Each has what stands in the next lines too, so that the order is seen.
const REFUSED: [(&[u8], Cause); 7] = [
    (b" A\x7fMF \xff  0\x01 1\x1f 7x:001:00001", Cause::Field),
    (b" ABMF \xff  0\x01 1\x1f 7x:001:00001", Cause::Field),
    (b" ABMF  A 0\x01 1\x1f 7x:001:00001", Cause::Field),
    (b" ABMF  A    1 \x1f 7x:001:00001", Cause::Field),
    (
        b" ABMF  A    1 P 7x:001:00001 70:366:00000 70:001:86401",
        Cause::Epoch(EpochFault::Shape),
    ),
    (
        b" ABMF  A    1 P 70:001:00001 70:366:00000 70:001:86401",
        Cause::Epoch(EpochFault::Day),
    ),
    (
        b" ABMF  A    1 P 70:001:00001 70:001:00000 70:001:86401",
        Cause::Epoch(EpochFault::Second),
    ),
];

#[test]
fn reads_lines(rt: HostRuntime) -> Result<(), Fail> {
    for (text, code, point, said) in SITES {
        match sites_on(rt.alloc(), text) {
            Ok(sites) => {
                for site in &sites {
                    assert_eq!(rt; site.code, code);
                    assert_eq!(rt; site.point, point);
                    assert_eq!(rt; site.text.as_slice(), said);
                }
                assert_eq!(rt; sites.len(), 1);
            }
            Err(_) => return Err("a site")?,
        }
    }
    for (text, soln, technique, start, end, mean) in MOMENTS {
        match epochs_on(rt.alloc(), text) {
            Ok(rows) => {
                for row in &rows {
                    assert_eq!(rt; row.code, *b"ABMF");
                    assert_eq!(rt; row.point, *b"A ");
                    assert_eq!(rt; row.soln, soln);
                    assert_eq!(rt; row.technique, technique);
                    assert_eq!(rt; row.start, start);
                    assert_eq!(rt; row.end, end);
                    assert_eq!(rt; row.mean, mean);
                }
                assert_eq!(rt; rows.len(), 1);
            }
            Err(_) => return Err("moments")?,
        }
    }
    for (text, cause) in REFUSED {
        match epochs_on(rt.alloc(), text) {
            Err(DocError::Line(fault)) => {
                assert_eq!(rt; fault.line, 7);
                assert_eq!(rt; fault.cause, cause);
            }
            _ => return Err("a bad line")?,
        }
    }
    Ok(())
}
