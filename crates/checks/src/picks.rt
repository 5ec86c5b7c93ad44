// What both runs have of every point, by one walk over the versions.
ghost use Rattle.std.specs.Prelude.{◌≡◌, take, replicate};
ghost use Rattle.quantity.specs.Limits.{points};
ghost use Rattle.checks.specs.Picks.{no_picks, picks_step, PicksIn, selected_in};

use crate::points::place_of;
use crate::surveys::records_in;
use quantity::PointNo;
use quantity::limits::{POINTS, VERSIONS, point_ok};
use state::selections::{is_counted, or_else, raised_if, row_at};
use state::{PerRun, Selection, VersionRecord};

// Of no record.
fn no_picks() -> [PerRun<Selection>; POINTS as usize]
    ensures { result ≡ replicate points no_picks }
{
    let none = PerRun {
        first: Selection::None,
        second: Selection::None,
    };
    [none; POINTS as usize]
}

fn point_of(v: VersionRecord) -> PointNo
    ensures { result.0 ≡ v.point.0 }
{
    PointNo(v.point.0 as u64)
}

// One record of the point more.
fn picked(p: PerRun<Selection>, at: u64, v: VersionRecord, point: PointNo) -> PerRun<Selection>
    ensures { result ≡ picks_step point.0 p at v }
{
    let row = row_at(at, v);
    PerRun {
        first: raised_if(is_counted(v, 1, point), p.first, row),
        second: raised_if(is_counted(v, 2, point), p.second, row),
    }
}

// The point p at p - 1. A record of a number that is no point's is passed over.
pub fn picks_of(
    versions: [VersionRecord; VERSIONS as usize],
    count: u64,
) -> [PerRun<Selection>; POINTS as usize]
    ensures { PicksIn (take count versions) result }
{
    let mut picks = no_picks();
    let n = records_in(count);
    for i in 0..n {
        let v = versions[i];
        let point = point_of(v);
        if point_ok(point) {
            let k = place_of(point);
            let p = picks[k];
            picks[k] = picked(p, i as u64, v, point);
        }
    }
    picks
}

// What a run selects of the point.
pub fn selected_in(p: PerRun<Selection>, run: u64) -> Selection
    ensures { result ≡ selected_in run p }
{
    if run == 1 {
        p.first
    } else {
        or_else(p.second, p.first)
    }
}
