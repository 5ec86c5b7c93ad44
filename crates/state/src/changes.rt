// What accepted calls make of a desk with the frame: what is named changed, all else as it was.
ghost use Rattle.std.specs.Prelude.{◌≡◌, true, false, ◌<◌, set};
ghost use Rattle.quantity.specs.Limits.{versions, deltas, day_ok, point_ok};
ghost use Rattle.state.specs.Change.{settled_desk};
ghost use Rattle.state.specs.Desk.{is_open, open_desk, desk_with, the_day, the_groups, the_used, the_closed, the_issued, the_points, the_versions, flagged};
ghost use Rattle.state.specs.Groups.{sets_both, with_group};
ghost use Rattle.state.specs.Point.{active_point, with_point, series_ok};
ghost use Rattle.state.specs.Valid.{valid_desk};
ghost use Rattle.state.specs.Version.{new_version, restatus};
ghost use Rattle.state.specs.declared.Desk.{Desk};
ghost use Rattle.state.specs.Effect.{changed_by, Fits};

use crate::effects::unchanged;
use crate::fresh::open_frame;
use crate::groups::{sets_both, with_group};
use crate::statuses::submitted_status;
use crate::{
    Area, Effect, Frame, Kind, Opening, Partner, PerRun, PointRecord, PointState, Row, Series,
    ShortDay, ShortPoint, Status, Tables, VersionRecord,
};
use quantity::limits::DELTAS;
use quantity::{Day, PointNo, Version};

// An active point's record: its numbers are in range, and so are narrowed with no loss.
pub fn active_record(series: Series, day: Day) -> PointRecord
    requires partner_value { series_ok series.kind series.area series.partner ≡ true }
    requires day_value { day_ok day.0 ≡ true }
    ensures { result ≡ active_point series.kind series.area series.partner day.0 }
{
    let since = ShortDay(day.0 as u16);
    let kind = Kind(series.kind as u8);
    let area = Area(series.area as u8);
    let partner = Partner(series.partner as u8);
    PointRecord {
        state: PointState::Active {
            since,
            kind,
            area,
            partner,
        },
    }
}

// An activation or a deactivation: point p stands at index p - 1.
pub fn put_point(f: Frame, point: PointNo, p: PointRecord, day: Day) -> Effect
    requires { point_ok point.0 ≡ true }
    ensures { (d : Desk) → d.frame ≡ f → Fits d result × (changed_by d result ≡ desk_with (desk_with d (the_points (with_point d.points point.0 p))) (the_day day.0)) }
{
    let tables = Tables::Point {
        at: point.0 - 1,
        record: p,
    };
    Effect {
        tables,
        frame: Frame { day, ..f },
    }
}

// A version's record put, so many held, and so many rows of the log used.
pub fn put_version(f: Frame, at: u64, v: VersionRecord, count: u64, used: u64, day: Day) -> Effect
    requires { at < versions }
    ensures { (d : Desk) → d.frame ≡ f → Fits d result × (changed_by d result ≡ desk_with (desk_with (desk_with d (the_versions count (set d.versions at v))) (the_used used)) (the_day day.0)) }
{
    let tables = Tables::Version { at, record: v };
    let frame = Frame {
        count,
        used,
        day,
        ..f
    };
    Effect { tables, frame }
}

// A delta's group, up to day C in both runs and after it in run 2 only: area 0 is T.
pub fn put_group(f: Frame, area: u64, group: u64, day: Day) -> Effect
    requires { area < deltas }
    ensures { (d : Desk) → d.frame ≡ f → Fits d result × (changed_by d result ≡ desk_with (desk_with d (the_groups (with_group (sets_both d.frame.opening day.0) area group d.frame.groups))) (the_day day.0)) }
{
    let groups = with_group(f.groups, sets_both(f.opening, day), area, group);
    unchanged(Frame { groups, day, ..f })
}

// The day alone.
pub fn put_day(f: Frame, day: Day) -> Effect
    ensures { (d : Desk) → d.frame ≡ f → Fits d result × (changed_by d result ≡ desk_with d (the_day day.0)) }
{
    unchanged(Frame { day, ..f })
}

// The flags with that of a run set.
pub fn with_flag(flags: PerRun<bool>, run: u64) -> PerRun<bool>
    ensures { result ≡ flagged run flags }
{
    PerRun {
        first: (run == 1) | flags.first,
        second: (run == 2) | flags.second,
    }
}

// The run is closed; no version changes.
pub fn close_run(f: Frame, run: u64, day: Day) -> Effect
    ensures { (d : Desk) → d.frame ≡ f → Fits d result × (changed_by d result ≡ desk_with (desk_with d (the_closed (flagged run d.frame.closed))) (the_day day.0)) }
{
    let closed = with_flag(f.closed, run);
    unchanged(Frame { closed, day, ..f })
}

// The run is issued, and its versions are settled.
pub fn issue_run(f: Frame, run: u64, day: Day) -> Effect
    ensures { (d : Desk) → d.frame ≡ f → valid_desk d ≡ true → Fits d result × (changed_by d result ≡ desk_with (desk_with (settled_desk d run) (the_issued (flagged run d.frame.issued))) (the_day day.0)) }
{
    let issued = with_flag(f.issued, run);
    Effect {
        tables: Tables::Settled { run },
        frame: Frame { issued, day, ..f },
    }
}

// A desk that is not open made anew.
pub fn open_desk(opening: Opening, groups: [u64; DELTAS as usize]) -> Effect
    ensures { (d : Desk) → is_open d.frame.opening ≡ false → Fits d result × (changed_by d result ≡ open_desk opening groups) }
{
    Effect {
        tables: Tables::Fresh,
        frame: open_frame(opening, groups),
    }
}

pub fn new_version(
    first: Day,
    row: u64,
    point: PointNo,
    version: Version,
    day: Day,
) -> VersionRecord
    requires point_value { point_ok point.0 ≡ true }
    requires row_lt_versions { row < versions }
    ensures { result ≡ new_version first.0 row point.0 version.0 day.0 }
{
    VersionRecord {
        version,
        point: ShortPoint(point.0 as u16),
        row: Row(row as u16),
        status: submitted_status(first, day),
    }
}

pub fn restated(v: VersionRecord, status: Status) -> VersionRecord
    ensures { result ≡ restatus status v }
{
    VersionRecord { status, ..v }
}
