// The limits of the state, behind cause 1, for any state whatever.
ghost use Rattle.std.specs.Prelude.{◌≡◌};
ghost use Rattle.quantity.specs.Limits.{group_ok};
ghost use Rattle.quantity.specs.Lists.{all};
ghost use Rattle.state.specs.Desk.{rows_in};
ghost use Rattle.state.specs.Point.{series_ok};
ghost use Rattle.state.specs.Valid.{opening_ok, point_record_ok, version_record_ok, deltas_ok, frame_ok};

use quantity::limits::{
    BOOK_ROWS, DELTAS, SCHEDULE_ROWS, VERSIONS, area_ok, day_ok, deadlines_ok, group_ok, point_ok,
    quarters_ok, version_ok,
};
use quantity::{Day, PointNo};
use state::{DeltaGroups, Frame, Opening, PointRecord, PointState, Series, VersionRecord};

#[tactic(auto, unfolding(state::specs::Point::series_ok))]
pub fn series_ok(series: Series) -> bool
    ensures { result ≡ series_ok series.kind series.area series.partner }
{
    let Series {
        kind,
        area,
        partner,
    } = series;
    match kind {
        1 => area_ok(area) & (partner < area),
        2 => area_ok(area) & group_ok(partner),
        3 | 5 => area_ok(area) & (partner == 0),
        4 => (area == 0) & group_ok(partner),
        _ => false,
    }
}

pub fn point_record_ok(p: PointRecord) -> bool
    ensures { result ≡ point_record_ok p }
{
    match p.state {
        PointState::Free => true,
        PointState::Active {
            since,
            kind,
            area,
            partner,
        } => {
            let series = Series {
                kind: kind.0 as u64,
                area: area.0 as u64,
                partner: partner.0 as u64,
            };
            day_ok(Day(since.0 as u64)) & series_ok(series)
        }
    }
}

pub fn version_record_ok(v: VersionRecord, rows: u64) -> bool
    ensures { result ≡ version_record_ok rows v }
{
    point_ok(PointNo(v.point.0 as u64)) & version_ok(v.version) & ((v.row.0 as u64) < rows)
}

#[tactic(auto, unfolding(state::specs::Valid::opening_ok))]
pub fn opening_ok(o: Opening) -> bool
    ensures { result ≡ opening_ok o }
{
    quarters_ok(o.quarters)
        && deadlines_ok(o.first, o.clearing, o.correction)
        && o.book == BOOK_ROWS * o.quarters
        && o.log % 4 == 0
        && o.schedules == SCHEDULE_ROWS * o.quarters
}

pub fn groups_ok(groups: [u64; DELTAS as usize]) -> bool
    ensures { result ≡ all group_ok groups }
{
    let mut ok = true;
    for group in &groups {
        ok &= group_ok(*group);
    }
    ok
}

// The delta groups of both runs.
#[tactic(auto, unfolding(state::specs::Valid::deltas_ok))]
pub fn deltas_ok(groups: DeltaGroups) -> bool
    ensures { result ≡ deltas_ok groups }
{
    groups_ok(groups.first) & groups_ok(groups.second)
}

// How many rows the values have: none before the opening.
pub fn rows_in(o: Opening) -> u64
    ensures { result ≡ rows_in o }
{
    o.values.checked_div(o.quarters).unwrap_or(0)
}

// All but the two tables.
#[tactic(auto, unfolding(state::specs::Valid::frame_ok))]
pub fn frame_ok(f: Frame) -> bool
    ensures { result ≡ frame_ok f }
{
    opening_ok(f.opening)
        & day_ok(f.day)
        & deltas_ok(f.groups)
        & (f.count <= VERSIONS)
        & (f.count <= rows_in(f.opening))
        & (f.used <= f.opening.log / 4)
}
