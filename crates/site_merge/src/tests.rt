//! Three documents, the last without blocks, and their sites and moments.

ghost use Rattle.snx_epoch.specs.Moments.{IsMoment};

use crate::{merge, merges_hold, span};
use snx_blocks::Doc;
use snx_epoch::Epoch;
use snx_sites::{EpochRow, SiteRow};
use std::alloc::{AllocError, Global};
use std::test::Fail;

// A code, a point and the text of a line.
type Site = ([u8; 4], [u8; 2], &'static [u8]);

// A code, a point, a solution and a technique, and the days of the start, the end and the mean; no day is Never.
type Moments = (
    [u8; 4],
    [u8; 2],
    [u8; 4],
    u8,
    Option<i32>,
    Option<i32>,
    Option<i32>,
);

const FIRST_SITES: [Site; 3] = [
    (*b"BBBB", *b"A ", b"first"),
    (*b"BBBB", *b"A ", b"again"),
    (*b"AAAA", *b"A ", b"left"),
];

const SECOND_SITES: [Site; 3] = [
    (*b"BBBB", *b"A ", b"second"),
    (*b"AAAA", *b" B", b"right"),
    (*b"AAAA", *b"A ", b""),
];

const SITES: [Site; 3] = [
    (*b"AAAA", *b" B", b"right"),
    (*b"AAAA", *b"A ", b"left"),
    (*b"BBBB", *b"A ", b"first"),
];

const FIRST_MOMENTS: [Moments; 3] = [
    (*b"BBBB", *b"A ", *b"2   ", b'P', None, None, Some(1)),
    (
        *b"AAAA",
        *b"A ",
        *b"1   ",
        b'P',
        Some(10),
        Some(20),
        Some(19),
    ),
    (*b"AAAA", *b"A ", *b"1   ", b'L', Some(11), None, None),
];

const SECOND_MOMENTS: [Moments; 4] = [
    (
        *b"AAAA",
        *b"A ",
        *b"1   ",
        b'R',
        Some(-3),
        Some(12),
        Some(11),
    ),
    (*b"BBBB", *b"A ", *b"10  ", b'R', None, Some(30), Some(30)),
    (*b"AAAA", *b" B", *b"1   ", b'R', Some(7), Some(8), None),
    (*b"BBBB", *b"A ", *b"2   ", b'R', None, None, None),
];

// Each mean here is at noon of its day.
const MOMENTS: [Moments; 4] = [
    (*b"AAAA", *b" B", *b"1   ", b'R', Some(7), Some(8), Some(7)),
    (
        *b"AAAA",
        *b"A ",
        *b"1   ",
        b'P',
        Some(-3),
        Some(20),
        Some(8),
    ),
    (*b"BBBB", *b"A ", *b"10  ", b'R', None, Some(30), None),
    (*b"BBBB", *b"A ", *b"2   ", b'P', None, None, None),
];

fn on(day: Option<i32>, second: u32) -> Epoch
    ensures { IsMoment result }
{
    match day {
        Some(day) => Epoch::at(day, second).unwrap_or(Epoch::Never),
        None => Epoch::Never,
    }
}

fn sites_of(alloc: Global, sites: &[Site]) -> Result<Vec<SiteRow>, AllocError> {
    let mut lines = Vec::new(alloc);
    for site in sites {
        let mut text = Vec::new(alloc);
        text.extend_from_slice(site.2)?;
        lines.push(SiteRow {
            code: site.0,
            point: site.1,
            text,
        })?;
    }
    Ok(lines)
}

fn epochs_of(alloc: Global, moments: &[Moments]) -> Result<Vec<EpochRow>, AllocError> {
    let mut rows = Vec::new(alloc);
    for row in moments {
        rows.push(EpochRow {
            code: row.0,
            point: row.1,
            soln: row.2,
            technique: row.3,
            start: on(row.4, 0),
            end: on(row.5, 0),
            mean: on(row.6, 0),
        })?;
    }
    Ok(rows)
}

fn doc(sites: Option<Vec<SiteRow>>, epochs: Option<Vec<EpochRow>>) -> Doc {
    Doc {
        estimates: None,
        apriori: None,
        vector: None,
        estimate_matrix: None,
        apriori_matrix: None,
        normal_matrix: None,
        sites,
        epochs,
    }
}

#[test]
fn each_once(rt: HostRuntime) -> Result<(), Fail> {
    merges_hold();
    let alloc = rt.alloc();
    let first = doc(
        Some(sites_of(alloc, &FIRST_SITES)?),
        Some(epochs_of(alloc, &FIRST_MOMENTS)?),
    );
    let second = doc(
        Some(sites_of(alloc, &SECOND_SITES)?),
        Some(epochs_of(alloc, &SECOND_MOMENTS)?),
    );
    let third = doc(None, None);
    let merged = merge(alloc, &[&first, &second, &third])?;
    assert_eq!(rt; merged.lines.len(), SITES.len());
    for (line, want) in merged.lines.iter().zip(&SITES) {
        assert_eq!(rt; line.code, want.0);
        assert_eq!(rt; line.point, want.1);
        assert_eq!(rt; line.text.as_slice(), want.2);
    }
    assert_eq!(rt; merged.epochs.len(), MOMENTS.len());
    for (row, want) in merged.epochs.iter().zip(&MOMENTS) {
        assert_eq!(rt; row.code, want.0);
        assert_eq!(rt; row.point, want.1);
        assert_eq!(rt; row.soln, want.2);
        assert_eq!(rt; row.technique, want.3);
        assert_eq!(rt; row.start, on(want.4, 0));
        assert_eq!(rt; row.end, on(want.5, 0));
        assert_eq!(rt; row.mean, on(want.6, 43200));
    }
    assert_eq!(rt; span(&merged.epochs), (on(Some(-3), 0), on(Some(30), 0)));
    assert_eq!(rt; span(&[]), (Epoch::Never, Epoch::Never));
    Ok(())
}
