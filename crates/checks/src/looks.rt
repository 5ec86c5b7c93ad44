// One look at the desk, with its limits or without.
ghost use Rattle.std.specs.Prelude.{◌≡◌};
ghost use Rattle.state.specs.Desk.{is_open};
ghost use Rattle.state.specs.Valid.{valid_desk};
ghost use Rattle.model.specs.Causes.{asking_nothing, asking_series, asking_versions, not_check};
ghost use Rattle.checks.specs.Look.{Looked};
ghost use Rattle.checks.specs.Survey.{record_at};

use crate::Look;
use crate::limits::{frame_ok, rows_in};
use crate::points::{has_series, scan, state_at, state_in};
use crate::surveys::{nothing_found, survey, survey_tested};
use model::Asks;
use quantity::{PointNo, Version};
use state::statuses::is_check;
use state::{Desk, HeldVersion, Opening, PointRecord, Series};

// All limits are tested, by one walk over each table, whatever the call asks; where it asks for no series or version, 0 is looked for.
pub fn look(d: Desk, a: Asks) -> Look
    ensures { Looked d a result }
{
    let frame = d.frame;
    let version = a.version.unwrap_or(Version(0));
    let none = Series {
        kind: 0,
        area: 0,
        partner: 0,
    };
    let series = a.series.unwrap_or(none);
    let found = survey_tested(
        d.versions,
        frame.count,
        rows_in(frame.opening),
        a.point,
        version,
    );
    let seen = scan(d.points, series);
    let here = state_at(d.points, a.point);
    let valid = frame_ok(frame) & (seen.fit & found.fit);
    Look {
        valid,
        here,
        taken: seen.taken,
        survey: found.survey,
    }
}

// At a desk that is within its limits exactly where it is open, with the record of the point asked for. No limit is tested, and a table is walked
// only where the call asks for it.
pub fn glance(d: Desk, p: PointRecord, a: Asks) -> Look
    requires d_value { valid_desk d ≡ is_open d.frame.opening }
    requires p_value { p ≡ record_at d.points a.point.0 }
    ensures { Looked d a result }
{
    let here = state_in(p, a.point);
    let taken = match a.series {
        Some(series) => has_series(d.points, series),
        None => false,
    };
    let found = match a.version {
        Some(version) => survey(d.versions, d.frame.count, a.point, version),
        None => nothing_found(),
    };
    Look {
        valid: is_open(d.frame.opening),
        here,
        taken,
        survey: found,
    }
}

// A call that asks nothing of the tables.
pub fn asking_nothing() -> Asks
    ensures { result ≡ asking_nothing }
{
    Asks {
        point: PointNo(0),
        series: None,
        version: None,
    }
}

// A call that names a point and a series that may stand only once.
pub fn asking_series(point: PointNo, series: Series) -> Asks
    ensures { result ≡ asking_series point.0 series.kind series.area series.partner }
{
    Asks {
        point,
        series: Some(series),
        version: None,
    }
}

// A call that names a point and asks for its versions, one of them by its number.
pub fn asking_versions(point: PointNo, version: Version) -> Asks
    ensures { result ≡ asking_versions point.0 version.0 }
{
    Asks {
        point,
        series: None,
        version: Some(version),
    }
}

// Cause 1 alone.
pub fn valid(d: Desk) -> bool
    ensures { result ≡ valid_desk d }
{
    let l = look(d, asking_nothing());
    l.valid
}

pub fn is_open(o: Opening) -> bool
    ensures { result ≡ is_open o }
{
    o.quarters != 0
}

pub fn not_check(h: Option<HeldVersion>) -> bool
    ensures { result ≡ not_check h }
{
    h.is_none_or(|found| !is_check(found.record.status))
}
