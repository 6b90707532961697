//! From the first start to the last end.

ghost use Rattle.std.specs.Prelude.{◌≡◌};
ghost use Rattle.snx_epoch.specs.Moments.{IsMoment};
ghost use Rattle.site_merge.specs.Merged.{IsEarliest, IsLatest, starts, ends, first_start, last_end};

use crate::moments::{earlier, later};
use snx_epoch::Epoch;
use snx_sites::EpochRow;

/// The least start and the greatest end of these rows that aren't Never; Never where there is none.
pub fn span(epochs: &[EpochRow]) -> (Epoch, Epoch)
    ensures start { result.0 ≡ first_start epochs.now }
    ensures end { result.1 ≡ last_end epochs.now }
    ensures earliest { IsEarliest (starts epochs.now) result.0 }
    ensures latest { IsLatest (ends epochs.now) result.1 }
    ensures start_range { IsMoment result.0 }
    ensures end_range { IsMoment result.1 }
{
    let mut start = Epoch::Never;
    let mut end = Epoch::Never;
    for row in epochs {
        start = earlier(start, row.start);
        end = later(end, row.end);
    }
    (start, end)
}
