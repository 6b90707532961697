//! Texts of moments, and the order of moments.

ghost use Rattle.std.specs.Prelude.{◌≡◌};
ghost use Rattle.snx_epoch.specs.Moments.{epoch_cmp};

use crate::{Epoch, EpochFault, middle, print_epoch, read_epoch};
use std::cmp::Ordering;

fn at(day: i32, second: u32) -> Result<Epoch, EpochFault> {
    Ok(Epoch::At { day, second })
}

#[test]
fn reads_moments(rt: HostRuntime) {
    let cases: [(&[u8], Result<Epoch, EpochFault>); 18] = [
        (b"50:366:00000", Err(EpochFault::Day)),
        (b"51:001:00000", at(-6940, 0)),
        (b"00:000:00000", Ok(Epoch::Never)),
        (b"24:366:86399", at(20088, 86399)),
        (b"24:001:86400", at(19724, 0)),
        (b"24:1:0", Err(EpochFault::Shape)),
        (b"", Ok(Epoch::Never)),
        (b" \t ", Ok(Epoch::Never)),
        (b" \t24:001:00000 ", at(19723, 0)),
        (b"24:001:00000x", Err(EpochFault::Shape)),
        (b"24-001-00000", Err(EpochFault::Shape)),
        (b"2x:001:00000", Err(EpochFault::Shape)),
        (b"00:000:00001", Err(EpochFault::Day)),
        (b"23:366:00000", Err(EpochFault::Day)),
        (b"24:000:99999", Err(EpochFault::Day)),
        (b"24:001:86401", Err(EpochFault::Second)),
        (b"50:365:86399", at(29584, 86399)),
        (b"50:365:86400", Err(EpochFault::Second)),
    ];
    for (text, want) in cases {
        assert_eq!(rt; read_epoch(text), want, "at {text:?}");
    }
}

#[test]
fn prints_moments(rt: HostRuntime) {
    let never = Epoch::Never;
    let first = Epoch::At {
        day: -6940,
        second: 0,
    };
    let last = Epoch::At {
        day: 29584,
        second: 86399,
    };
    assert_eq!(rt; print_epoch(&never), *b"00:000:00000");
    assert_eq!(rt; print_epoch(&first), *b"51:001:00000");
    assert_eq!(rt; print_epoch(&last), *b"50:365:86399");
    assert_eq!(rt; middle(&never, &last), Epoch::Never);
    assert_eq!(rt; middle(&first, &never), Epoch::Never);
    let half = Epoch::At {
        day: 11322,
        second: 43199,
    };
    assert_eq!(rt; middle(&first, &last), half);
    assert_eq!(rt; Epoch::at(-6940, 0), Some(first));
    assert_eq!(rt; Epoch::at(29584, 86399), Some(last));
    assert_eq!(rt; Epoch::at(-6941, 0), None);
    assert_eq!(rt; Epoch::at(29585, 0), None);
    assert_eq!(rt; Epoch::at(0, 86400), None);
}

/// The derived order is that of the definition.
fn order_of(a: &Epoch, b: &Epoch) -> Ordering
    ensures { result ≡ epoch_cmp a.now b.now }
{
    a.cmp(b)
}

fn crosses_threads<T: Send + Sync>(value: T) -> T {
    value
}

#[test]
fn never_stands_first(rt: HostRuntime) {
    let first = crosses_threads(Epoch::At { day: 0, second: 9 });
    let last = Epoch::At { day: 1, second: 0 };
    assert_eq!(rt; order_of(&Epoch::Never, &first), Ordering::Less);
    assert_eq!(rt; order_of(&first, &last), Ordering::Less);
    assert_eq!(rt; order_of(&last, &last), Ordering::Equal);
    assert_eq!(rt; crosses_threads(EpochFault::Shape), EpochFault::Shape);
}
