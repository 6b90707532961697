//! Of two moments the earlier and the later.

ghost use Rattle.std.specs.Prelude.{◌≡◌};
ghost use Rattle.snx_epoch.specs.Moments.{IsMoment, epoch_cmp};
ghost use Rattle.site_merge.specs.Merged.{earlier, later};

use snx_epoch::Epoch;
use std::cmp::Ordering;

/// How two moments stand.
fn order_of(a: &Epoch, b: &Epoch) -> Ordering
    ensures { result ≡ epoch_cmp a.now b.now }
{
    a.cmp(b)
}

/// The earlier of two moments; Never only where both are.
pub(crate) fn earlier(a: Epoch, b: Epoch) -> Epoch
    requires a { IsMoment a }
    requires b { IsMoment b }
    ensures value { result ≡ earlier a b }
    ensures range { IsMoment result }
{
    match a {
        Epoch::Never => b,
        Epoch::At { .. } => match b {
            Epoch::Never => a,
            Epoch::At { .. } => {
                if order_of(&b, &a) == Ordering::Less {
                    b
                } else {
                    a
                }
            }
        },
    }
}

/// The later of two moments; Never only where both are.
pub(crate) fn later(a: Epoch, b: Epoch) -> Epoch
    requires a { IsMoment a }
    requires b { IsMoment b }
    ensures value { result ≡ later a b }
    ensures range { IsMoment result }
{
    if order_of(&a, &b) == Ordering::Less {
        b
    } else {
        a
    }
}
