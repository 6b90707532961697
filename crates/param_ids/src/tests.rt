//! Names on rows, in lists and in tables of scales.

use crate::{
    IdFault, Names, NamesError, ParamId, Scales, kind_of, push_id, push_label, scale_of, unit_of,
};
use snx_epoch::{Epoch, EpochFault};
use snx_lines::{Kind, Line};
use std::alloc::AllocError;
use std::test::Fail;

fn read(row: &[u8]) -> Result<ParamId, IdFault> {
    ParamId::read(&Line {
        number: 1,
        kind: Kind::Data,
        text: row,
    })
}

#[test]
fn reads_names(rt: HostRuntime) -> Result<(), Fail> {
    let rows: [(&[u8], &[u8]); 5] = [
        (
            b"     1 STAX   ABCD  A    1 24:001:00000 m    2",
            b"STAX/ABCD/A/1/24:001:00000",
        ),
        (
            b"     1 STAX   ABCD  A 0001 24:001:86400 m    2",
            b"STAX/ABCD/A/1/24:002:00000",
        ),
        (
            b"     1 XPO    ----  -  000 00:000:00000",
            b"XPO/----/-/0/00:000:00000",
        ),
        (b"     1 STAX   A\tCD  A 01A  ", b"Field"),
        (
            b"     1 \tSTA   ABCD  A ---- 51:001:00000",
            b"STA/ABCD/A/----/51:001:00000",
        ),
    ];
    for (row, want) in rows {
        let mut out = Vec::new(rt.alloc());
        match read(row) {
            Ok(id) => push_id(&mut out, &id)?,
            Err(IdFault::Field) => out.extend_from_slice(b"Field")?,
            Err(IdFault::Epoch(_)) => out.extend_from_slice(b"Epoch")?,
        }
        assert_eq!(rt; out.as_slice(), want);
    }
    let blank = read(b"     1        ABCD  A    1 24:001:00000");
    assert_eq!(rt; blank, Err(IdFault::Field));
    let shape = read(b"     1 STAX   ABCD  A    1 24:1:0");
    let shape = crosses_threads(&shape);
    assert_eq!(rt; *shape, Err(IdFault::Epoch(EpochFault::Shape)));
    Ok(())
}

#[test]
fn writes_labels(rt: HostRuntime) -> Result<(), Fail> {
    let labels: [(usize, &[u8; 4], &[u8]); 4] = [
        (1, b"m   ", b"     1 STAX   ABCD  A    1 24:001:00000 m   "),
        (
            99999,
            b"masD",
            b" 99999 XPO    ---- AB ---- 00:000:00000 masD",
        ),
        (
            120,
            b"m/y ",
            b"   120 RS_RA  1234      12 51:001:86399 m/y ",
        ),
        (7, b"    ", b"     7 ZTD                 50:365:86399     "),
    ];
    for (index, unit, label) in labels {
        let mut out = Vec::new(rt.alloc());
        match read(label) {
            Ok(id) => push_label(&mut out, index, &id, unit)?,
            Err(_) => return Err("a name")?,
        }
        assert_eq!(rt; out.as_slice(), label);
    }
    Ok(())
}

#[test]
fn reads_texts(rt: HostRuntime) {
    assert_eq!(rt; kind_of(b"STAX"), Some(*b"STAX  "));
    assert_eq!(rt; kind_of(b""), None);
    assert_eq!(rt; kind_of(b"STATION"), None);
    assert_eq!(rt; unit_of(b"m/y"), Some(*b"m/y "));
    assert_eq!(rt; unit_of(b"m\x7f"), None);
    let named = ParamId::named(b"STAX", b"ABCD", b"A", b"0003", b"");
    assert_eq!(rt; named, Ok(with_soln(b'3')));
}

fn with_soln(digit: u8) -> ParamId {
    ParamId {
        kind: *b"STAX  ",
        code: *b"ABCD",
        point: *b"A ",
        soln: [digit, b' ', b' ', b' '],
        epoch: Epoch::Never,
    }
}

fn crosses_threads<T: Send + Sync>(value: &T) -> &T {
    value
}

#[test]
fn lists_names(rt: HostRuntime) -> Result<(), Fail> {
    let list = [with_soln(b'3'), with_soln(b'1'), with_soln(b'2')];
    let names = match Names::from_list(rt.alloc(), &list) {
        Ok(names) => names,
        Err(_) => return Err(AllocError)?,
    };
    let names = crosses_threads(&names);
    assert_eq!(rt; names.len(), 3);
    assert_eq!(rt; names.find(&with_soln(b'1')), Some(0));
    assert_eq!(rt; names.find(&with_soln(b'3')), Some(2));
    assert_eq!(rt; names.find(&with_soln(b'4')), None);
    let copy = names.clone_in()?;
    assert_eq!(rt; copy.find(&with_soln(b'2')), Some(1));
    let more = [with_soln(b'2'), with_soln(b'5'), with_soln(b'4')];
    let union = match Names::from_list(rt.alloc(), &more) {
        Ok(more) => match names.merge(&more) {
            Ok(union) => union,
            Err(_) => return Err(AllocError)?,
        },
        Err(_) => return Err(AllocError)?,
    };
    assert_eq!(rt; union.len(), 5);
    assert_eq!(rt; union.find(&with_soln(b'2')), Some(1));
    assert_eq!(rt; union.find(&with_soln(b'5')), Some(4));
    let twice = [
        with_soln(b'3'),
        with_soln(b'2'),
        with_soln(b'3'),
        with_soln(b'2'),
    ];
    let repeated = Names::from_list(rt.alloc(), &twice);
    crosses_threads(&repeated);
    let least = match &repeated {
        Err(NamesError::Repeated { id }) => *id,
        _ => with_soln(b'9'),
    };
    assert_eq!(rt; *crosses_threads(&least), with_soln(b'2'));
    Ok(())
}

#[test]
fn counts_names(rt: HostRuntime) -> Result<(), Fail> {
    let mut list = Vec::new(rt.alloc());
    for thousand in [b'1', b'2'] {
        for hundred in b'0'..=b'9' {
            for ten in b'0'..=b'9' {
                for one in b'0'..=b'9' {
                    let mut id = with_soln(one);
                    id.code = [thousand, hundred, ten, one];
                    list.push(id)?;
                }
            }
        }
    }
    let whole = list.as_slice();
    for (len, want) in [(1000, 0), (1001, 1001), (2000, 2000)] {
        let some = whole.get(..len).ok_or("some")?;
        if some.len() > 65535 {
            return Ok(());
        }
        let count = match Names::from_list(rt.alloc(), some) {
            Err(NamesError::TooMany { count }) => count,
            Err(_) => 1,
            Ok(_) => 0,
        };
        assert_eq!(rt; count, want);
    }
    Ok(())
}

#[test]
fn sets_scales(rt: HostRuntime) -> Result<(), Fail> {
    let mut scales = Scales::standard(rt.alloc())?;
    assert_eq!(rt; scale_of(b"RS_RA ", &scales), 6);
    assert_eq!(rt; scale_of(b"RS_DE ", &scales), 6);
    assert_eq!(rt; scale_of(b"STAX  ", &scales), 0);
    scales.set(*b"ZTD   ", 2)?;
    scales.set(*b"RS_RA ", -4)?;
    let scales = crosses_threads(&scales);
    assert_eq!(rt; scale_of(b"ZTD   ", scales), 2);
    assert_eq!(rt; scale_of(b"RS_RA ", scales), -4);
    assert_eq!(rt; scale_of(b"RS_DE ", scales), 6);
    Ok(())
}
