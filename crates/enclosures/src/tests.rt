//! Which numbers are kept, and that the types cross threads.

use crate::{Enclosed, Pilot, Radius};
use std::test::Fail;

fn crosses_threads<T: Send + Sync>() {}

#[test]
fn entries_are_kept_or_refused(rt: HostRuntime) -> Result<(), Fail> {
    let alloc = rt.alloc();
    let most = 1i64 << 50;
    let kept = Pilot::from_entries(10, 1, vec![in alloc; most]?);
    assert_eq!(rt; kept.map(|p| (p.g(), p.size())), Some((10, 1)));
    assert!(rt; Pilot::from_entries(5, 1, vec![in alloc; most]?).is_none());
    assert!(rt; Pilot::from_entries(60, 1, vec![in alloc; most]?).is_none());
    assert!(rt; Pilot::from_entries(10, 2, vec![in alloc; most]?).is_none());
    assert!(rt; Pilot::from_entries(10, 1, vec![in alloc; most + 1]?).is_none());
    crosses_threads::<Pilot>();
    crosses_threads::<Radius>();
    crosses_threads::<Enclosed>();
    Ok(())
}
