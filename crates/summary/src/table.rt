// The desk's points and versions as numbers, and how many of its answers are refusals.
ghost use Rattle.std.specs.Prelude.{◌≡◌, ◌≤◌, length, take};
ghost use Rattle.replay.specs.Replay.{over};
ghost use Rattle.checks.specs.Picks.{selected_in};
ghost use Rattle.summary.specs.Table.{points_places, versions_places, point_places, point_table, version_places, version_table, refusals, first_refused};

use crate::Refusals;
use amend::copies::put_row;
use checks::picks::{picks_of, selected_in};
use checks::surveys::records_in;
use quantity::limits::{POINTS, VERSIONS};
use state::selections::{status_of, version_of};
use state::{PerRun, PointRecord, PointState, Selection, VersionRecord};

// How many numbers a point has.
const POINT_NUMBERS: usize = 9;

// How many numbers a version has.
const VERSION_NUMBERS: usize = 4;

pub const POINT_PLACES: usize = POINT_NUMBERS * POINTS as usize;

pub const VERSION_PLACES: usize = VERSION_NUMBERS * VERSIONS as usize;

fn point_places(state: PointState, first: Selection, second: Selection) -> [u64; POINT_NUMBERS]
    ensures { result ≡ point_places state first second }
{
    let x = version_of(first).0;
    let y = version_of(second).0;
    let s = status_of(first);
    let t = status_of(second);
    match state {
        PointState::Free => [0, 0, 0, 0, 0, x, y, s, t],
        PointState::Active {
            since,
            kind,
            area,
            partner,
        } => [
            1,
            since.0 as u64,
            kind.0 as u64,
            area.0 as u64,
            partner.0 as u64,
            x,
            y,
            s,
            t,
        ],
    }
}

// A point's row, with what both runs select of it.
fn point_row(state: PointState, picks: PerRun<Selection>) -> [u64; POINT_NUMBERS]
    ensures { result ≡ point_places state (selected_in 1 picks) (selected_in 2 picks) }
{
    point_places(state, selected_in(picks, 1), selected_in(picks, 2))
}

// Every point, nine numbers each. The selections of all points come from one walk over the versions.
pub fn put_points(
    out: &mut [u64],
    points: [PointRecord; POINTS as usize],
    versions: [VersionRecord; VERSIONS as usize],
    count: u64,
)
    requires { points_places ≤ length out.old }
    ensures { out.new ≡ over (point_table points (take count versions)) out.old }
{
    let table = picks_of(versions, count);
    for i in 0..POINTS as usize {
        let row = point_row(points[i].state, table[i]);
        put_row(out, POINT_NUMBERS * i, &row);
    }
}

fn version_places(v: VersionRecord) -> [u64; VERSION_NUMBERS]
    ensures { result ≡ version_places v }
{
    [
        v.point.0 as u64,
        v.version.0,
        u64::from(v.status),
        v.row.0 as u64,
    ]
}

// Every version held, four numbers each. A count past the table's end means the whole table.
pub fn put_versions(out: &mut [u64], versions: [VersionRecord; VERSIONS as usize], count: u64)
    requires { versions_places ≤ length out.old }
    ensures { out.new ≡ over (version_table (take count versions)) out.old }
{
    for i in 0..records_in(count) {
        let row = version_places(versions[i]);
        put_row(out, VERSION_NUMBERS * i, &row);
    }
}

// Of the first n answers, from the last on.
pub fn refusals_of(answers: &[u64], n: usize) -> Refusals
    requires { n ≤ length answers.now }
    ensures { (result.count ≡ refusals (take n answers.now)) × (result.first ≡ first_refused 1 (take n answers.now)) }
{
    let mut count = 0;
    let mut first = 0;
    for i in (0..n).rev() {
        if answers[i] != 0 {
            count += 1;
            first = i as u64 + 1;
        }
    }
    Refusals { count, first }
}
