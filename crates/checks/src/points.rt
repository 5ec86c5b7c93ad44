// Points: a point's state, its series, and the walk over the points, with the limits of each record or without.
ghost use Rattle.std.specs.Prelude.{◌≡◌, Bool};
ghost use Rattle.quantity.specs.Lists.{all, any};
ghost use Rattle.state.specs.Point.{point_at, is_active, since_of, is_series, has_series};
ghost use Rattle.state.specs.declared.PointRecord.{PointRecord};
ghost use Rattle.checks.specs.Decides.{Decides};
ghost use Rattle.checks.specs.Survey.{place_of, state_in, Scanned};

use crate::Scan;
use crate::limits::point_record_ok;
use quantity::limits::{POINTS, point_ok};
use quantity::{Day, PointNo};
use state::{PointRecord, PointState, Series};

// Where the record of a point stands. A number that is no point's has none; the first record is read for it, and not looked at.
pub fn place_of(point: PointNo) -> usize
    ensures { result ≡ place_of point.0 }
{
    if !point_ok(point) {
        return 0;
    }
    (point.0 - 1) as usize
}

// A point's state, by the record that stands there.
pub fn state_in(p: PointRecord, point: PointNo) -> PointState
    ensures { result ≡ state_in p point.0 }
{
    if !point_ok(point) {
        return PointState::Free;
    }
    p.state
}

pub fn state_at(points: [PointRecord; POINTS as usize], point: PointNo) -> PointState
    ensures { result ≡ point_at points point.0 }
{
    state_in(points[place_of(point)], point)
}

pub fn is_active(s: PointState) -> bool
    ensures { result ≡ is_active s }
{
    matches!(s, PointState::Active { .. })
}

pub fn since_of(s: PointState) -> Day
    ensures { result.0 ≡ since_of s }
{
    match s {
        PointState::Free => Day(0),
        PointState::Active { since, .. } => Day(since.0 as u64),
    }
}

// The partner is asked first: it tells most points apart.
pub fn is_series(s: PointState, series: Series) -> bool
    ensures { result ≡ is_series series.kind series.area series.partner s }
{
    match s {
        PointState::Free => false,
        PointState::Active {
            kind,
            area,
            partner,
            ..
        } => {
            partner.0 as u64 == series.partner
                && (kind.0 as u64 == series.kind) & (area.0 as u64 == series.area)
        }
    }
}

// Whether an active point has the series, with a test of each record.
fn walk<F: Fn(PointRecord) -> bool>(points: &[PointRecord], series: Series, fits: F) -> Scan
    requires { F.IsAlwaysCallable fits }
    ensures taken { result.taken ≡ any (has_series series.kind series.area series.partner) points.now }
    ensures fit { (test : PointRecord → Bool) → Decides (F.post fits) test → result.fit ≡ all test points.now }
{
    let mut fit = true;
    let mut taken = false;
    for p in points {
        fit &= fits(*p);
        taken |= is_series(p.state, series);
    }
    Scan { fit, taken }
}

// No limit is tested.
pub fn has_series(points: [PointRecord; POINTS as usize], series: Series) -> bool
    ensures { result ≡ any (has_series series.kind series.area series.partner) points }
{
    walk(&points, series, |_| true).taken
}

pub fn scan(points: [PointRecord; POINTS as usize], series: Series) -> Scan
    ensures { Scanned series.kind series.area series.partner points result }
{
    walk(&points, series, point_record_ok)
}
