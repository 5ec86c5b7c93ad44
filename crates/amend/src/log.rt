// The log row that a change of a point's selections makes due.
ghost use Rattle.std.specs.Prelude.{◌≡◌, ◌+◌, ◌*◌};
ghost use Rattle.model.specs.Log.{log_row, due_by, logged, used_after};
ghost use Rattle.amend.specs.Lent.{RoomIn, MoreIn};

use crate::rows::differs;
use model::{LogRow, Turn};
use quantity::{Day, PointNo};
use state::Selection;
use state::selections::version_of;

pub fn log_row(day: Day, point: PointNo, run: u64, s: Selection) -> LogRow
    ensures { result ≡ log_row day.0 point.0 run s }
{
    LogRow {
        day,
        point,
        run,
        version: version_of(s),
    }
}

pub fn due_by(t: Turn, point: PointNo, day: Day) -> Option<LogRow>
    ensures { result ≡ due_by t point.0 day.0 }
{
    if differs(t.old1, t.new1) {
        return Some(log_row(day, point, 1, t.new1));
    }
    if differs(t.old2, t.new2) {
        return Some(log_row(day, point, 2, t.new2));
    }
    None
}

pub fn used_after(due: Option<LogRow>, used: u64) -> u64
    requires { MoreIn used due }
    ensures { result ≡ used_after due used }
{
    let Some(_) = due else {
        return used;
    };
    used + 1
}

// Four numbers to a row.
pub fn put_row(log: &mut [u64], used: usize, due: Option<LogRow>)
    requires { RoomIn used log.old due }
    ensures { log.new ≡ logged used due log.old }
{
    let Some(r) = due else {
        return;
    };
    let at = 4 * used;
    log[at] = r.day.0;
    log[at + 1] = r.point.0;
    log[at + 2] = r.run;
    log[at + 3] = r.version.0;
}
