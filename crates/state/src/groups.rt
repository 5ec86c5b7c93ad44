// The delta groups of both runs.
ghost use Rattle.std.specs.Prelude.{◌≡◌, ◌<◌};
ghost use Rattle.quantity.specs.Limits.{deltas};
ghost use Rattle.state.specs.Groups.{sets_both, with_group};

use crate::{DeltaGroups, Opening};
use quantity::Day;

// Whether an assignment of that day sets both runs: up to day C.
pub fn sets_both(o: Opening, day: Day) -> bool
    ensures { result ≡ sets_both o day.0 }
{
    day <= o.clearing
}

// Another group for a delta, in both runs or in run 2 only: area 0 is T.
pub fn with_group(groups: DeltaGroups, both: bool, area: u64, group: u64) -> DeltaGroups
    requires { area < deltas }
    ensures { result ≡ with_group both area group groups }
{
    let mut r = groups;
    r.second[area as usize] = group;
    if !both {
        return r;
    }
    r.first[area as usize] = group;
    r
}
