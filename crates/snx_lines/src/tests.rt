//! Frames and columns of a small text.

use crate::{Frame, FrameCause, FrameError, FrameFault, Kind, Line, field, frame, framing, word};
use std::alloc::{AllocError, Global};
use std::test::Fail;

static HEADER: &[u8] = b"%=SNX 2.02 ABC 24:002:00000 ABC 24:001:00000 24:002:00000 P 00001 2 S";

static LINES: [&[u8]; 11] = [
    b"%=SNX 2.02 ABC 24:002:00000 ABC 24:001:00000 24:002:00000 P 00001 2 S",
    b"+SOLUTION/APRIORI",
    b"     1 STAX   ABCD  A    1 24:001:00000 m    2  .100000000000000E+01 .000000E+00",
    b"-SOLUTION/APRIORI",
    b"+SOLUTION/NORMAL_EQUATION_VECTOR",
    b"     1 STAX   ABCD  A    1 24:001:00000 m    2  .200000000000000E+01",
    b"-SOLUTION/NORMAL_EQUATION_VECTOR",
    b"+SOLUTION/NORMAL_EQUATION_MATRIX L",
    b"     1     1   .40000000000000E+01",
    b"-SOLUTION/NORMAL_EQUATION_MATRIX L",
    b"%ENDSNX",
];

fn joined(alloc: Global, lines: &[&[u8]], end: &[u8]) -> Result<Vec<u8>, AllocError> {
    let mut text = Vec::new(alloc);
    for line in lines {
        text.extend_from_slice(line)?;
        text.extend_from_slice(end)?;
    }
    Ok(text)
}

fn framed<'a>(alloc: Global, text: &'a [u8]) -> Result<Frame<'a>, FrameError> {
    if text.len() > 10_000 {
        return Err(FrameError::Memory);
    }
    frame(alloc, text)
}

/// The line and the cause of a text's fault; line 0 where it has a frame.
fn fault_of(alloc: Global, text: &[u8]) -> FrameFault {
    match framed(alloc, text) {
        Err(FrameError::Fault(fault)) => fault,
        _ => FrameFault {
            line: 0,
            cause: FrameCause::NoHeader,
        },
    }
}

#[test]
fn cuts_after_each_line(rt: HostRuntime) -> Result<(), Fail> {
    let wants = [
        (1, FrameCause::NoHeader),
        (2, FrameCause::NoFooter),
        (3, FrameCause::NoEnd),
        (4, FrameCause::NoEnd),
        (5, FrameCause::NoFooter),
        (6, FrameCause::NoEnd),
        (7, FrameCause::NoEnd),
        (8, FrameCause::NoFooter),
        (9, FrameCause::NoEnd),
        (10, FrameCause::NoEnd),
        (11, FrameCause::NoFooter),
    ];
    for (kept, (line, cause)) in wants.iter().enumerate() {
        let some = LINES.get(..kept).ok_or("kept")?;
        let text = joined(rt.alloc(), some, b"\n")?;
        let want = FrameFault {
            line: *line,
            cause: *cause,
        };
        assert_eq!(rt; fault_of(rt.alloc(), &text), want, "after {kept} lines");
    }
    Ok(())
}

#[test]
fn first_faults(rt: HostRuntime) -> Result<(), Fail> {
    let cases: [(&[&[u8]], u32, FrameCause); 13] = [
        (&[b"", HEADER], 1, FrameCause::NoHeader),
        (&[b"* text", HEADER], 1, FrameCause::NoHeader),
        (&[b"%=SNX 2.03"], 1, FrameCause::Version),
        (&[b"%=SNX"], 1, FrameCause::Version),
        (&[HEADER, b"+A", b"-B"], 3, FrameCause::WrongEnd),
        (&[HEADER, b"+A/B", b"-A"], 3, FrameCause::WrongEnd),
        (&[HEADER, b"-A"], 2, FrameCause::WrongEnd),
        (&[HEADER, b"+A", b"+A"], 3, FrameCause::Nested),
        (&[HEADER, b"+A", b"%ENDSNX"], 3, FrameCause::NoEnd),
        (&[HEADER, b" 1"], 2, FrameCause::FirstColumn),
        (&[HEADER, b"%=SNX"], 2, FrameCause::FirstColumn),
        (&[HEADER, b"#"], 2, FrameCause::FirstColumn),
        (
            &[HEADER, b"%ENDSNX", b" ", b"* text"],
            4,
            FrameCause::AfterFooter,
        ),
    ];
    for (lines, line, cause) in cases {
        let text = joined(rt.alloc(), lines, b"\n")?;
        let want = FrameFault { line, cause };
        assert_eq!(rt; fault_of(rt.alloc(), &text), want, "at {line}");
    }
    Ok(())
}

#[test]
fn blocks_and_columns(rt: HostRuntime) -> Result<(), Fail> {
    let plain = joined(rt.alloc(), &LINES, b"\n")?;
    let carriage = joined(rt.alloc(), &LINES, b"\r\n")?;
    for text in [&plain, &carriage] {
        let whole = framed(rt.alloc(), text)?;
        assert_eq!(rt; whole.header.text, HEADER);
        assert_eq!(rt; whole.blocks.len(), 3);
        let last = whole.blocks.get(2).ok_or("last")?;
        assert_eq!(rt; last.name, b"SOLUTION/NORMAL_EQUATION_MATRIX".as_slice());
        assert_eq!(rt; last.title.number, 8);
        assert_eq!(rt; word(&last.title, 0), b"L".as_slice());
        assert_eq!(rt; word(&last.title, 1), b"".as_slice());
        assert_eq!(rt; last.body.len(), 1);
        let row = last.body.get(0).ok_or("row")?;
        assert_eq!(rt; row.number, 9);
        assert_eq!(rt; row.kind, Kind::Data);
        assert_eq!(rt; field(row, 2, 6), b"1".as_slice());
        assert_eq!(rt; field(row, 14, 34), b".40000000000000E+01".as_slice());
        assert_eq!(rt; field(row, 58, 78), b"".as_slice());
    }
    Ok(())
}

#[test]
fn the_open_block_is_kept(rt: HostRuntime) -> Result<(), Fail> {
    let some = LINES.get(..6).ok_or("lines")?;
    let text = joined(rt.alloc(), some, b"\n")?;
    if text.len() > 10_000 {
        return Ok(());
    }
    let read = framing(rt.alloc(), &text)?;
    let want = FrameFault {
        line: 7,
        cause: FrameCause::NoEnd,
    };
    assert_eq!(rt; read.stop, Some(want));
    assert_eq!(rt; read.blocks.len(), 2);
    let last = read.blocks.get(1).ok_or("last")?;
    assert_eq!(rt; last.title.number, 5);
    assert_eq!(rt; last.body.len(), 1);
    Ok(())
}

#[test]
fn blanks_and_column_81(rt: HostRuntime) -> Result<(), Fail> {
    let mut wide = Vec::new(rt.alloc());
    for _ in 0..80 {
        wide.push(b' ')?;
    }
    wide.push(b'x')?;
    let lines = [
        HEADER, &wide, b"\t\t", b"+A b", b"\t12\t", b" ", b"* c", b"-A\tc", b"%ENDSNX", b"\t",
    ];
    let text = joined(rt.alloc(), &lines, b"\n")?;
    let whole = framed(rt.alloc(), &text)?;
    let block = whole.blocks.get(0).ok_or("block")?;
    assert_eq!(rt; block.name, b"A".as_slice());
    assert_eq!(rt; block.body.len(), 1);
    let row = block.body.get(0).ok_or("row")?;
    assert_eq!(rt; field(row, 1, 4), b"12".as_slice());
    assert_eq!(rt; field(row, 3, 80), b"2".as_slice());
    Ok(())
}

fn crosses_threads<T: Send + Sync>(value: &T) -> &T {
    value
}

#[test]
fn values_cross_threads(rt: HostRuntime) -> Result<(), Fail> {
    let text = joined(rt.alloc(), &LINES, b"\n")?;
    let whole = framed(rt.alloc(), &text)?;
    let whole = crosses_threads(&whole);
    let block = crosses_threads(whole.blocks.get(0).ok_or("block")?);
    let title: &Line = crosses_threads(&block.title);
    assert_eq!(rt; *crosses_threads(&title.kind), Kind::Start);
    let error = FrameError::Memory;
    crosses_threads(&error);
    Ok(())
}
