// A whole message file through a fresh desk.
ghost use Rattle.std.specs.Prelude.{◌≡◌, ◌++◌, ◌*◌, ◌≤◌, length};
ghost use Rattle.checks.specs.Stepped.{stores_of};
ghost use Rattle.quantity.specs.Limits.{runs, deltas};
ghost use Rattle.book.specs.Row.{splice};
ghost use Rattle.replay.specs.Replay.{over};
ghost use Rattle.host.specs.Replay.{ending_number, ending_offset, summary_numbers, summary_places, fits, listed, places_of, Summarised};

use crate::TOO_SHORT;
use amend::copies::put_row;
use message::cause;
use quantity::limits::{DELTAS, RUNS};
use replay::Ending;
use state::{DeltaGroups, Frame};
use summary::Refusals;
use summary::table::{POINT_PLACES, VERSION_PLACES, put_points, put_versions, refusals_of};

// How many numbers of a summary stand before the delta groups.
const SUMMARY_NUMBERS: usize = 12;

// How many numbers a summary has: those, and the delta groups of each run.
const SUMMARY_PLACES: usize = SUMMARY_NUMBERS + (RUNS * DELTAS) as usize;

fn number_of(ending: Ending) -> u64
    ensures { result ≡ ending_number ending }
{
    match ending {
        Ending::End => 0,
        Ending::Refused { cause, offset: _ } => u64::from(cause),
        Ending::Full => cause::NO_ROOM,
    }
}

fn offset_of(length: u64, ending: Ending) -> u64
    ensures { result ≡ ending_offset length ending }
{
    match ending {
        Ending::End => length,
        Ending::Refused { cause: _, offset } => offset as u64,
        Ending::Full => 0,
    }
}

// Whether the places lent are as many as a summary, the points and the versions take.
fn all_fit(summary: usize, points: usize, versions: usize) -> bool
    ensures { result ≡ fits summary points versions }
{
    (SUMMARY_PLACES <= summary) & (POINT_PLACES <= points) & (VERSION_PLACES <= versions)
}

// The delta groups of both runs, behind the other numbers of a summary.
fn put_groups(summary: &mut [u64], groups: DeltaGroups)
    requires { summary_places ≤ length summary.old }
    ensures { summary.new ≡ splice summary.old summary_numbers (runs * deltas) (groups.first ++ groups.second) }
{
    put_row(summary, SUMMARY_NUMBERS, &groups.first);
    put_row(summary, SUMMARY_NUMBERS + DELTAS as usize, &groups.second);
}

// All places of a summary.
fn put_summary(summary: &mut [u64], answered: u64, offset: u64, refused: Refusals, f: Frame)
    requires { summary_places ≤ length summary.old }
    ensures { summary.new ≡ over (listed answered offset f.opening.quarters f.used f.count refused.count refused.first f.day.0 f.closed f.issued f.groups) summary.old }
{
    let numbers = [
        answered,
        offset,
        f.opening.quarters,
        f.used,
        f.count,
        refused.count,
        refused.first,
        f.day.0,
        u64::from(f.closed.first),
        u64::from(f.closed.second),
        u64::from(f.issued.first),
        u64::from(f.issued.second),
    ];
    put_row(summary, 0, &numbers);
    put_groups(summary, f.groups);
}

// 0, or the number of the first refusal; 35 where the answers are full; 2, and nothing is done, where a summary, the points or the versions have fewer
// places than 46, 2,304 and 2,048. The summary tells the calls answered, the offset, Q, the log rows used, the versions held, the calls
// refused and the first of them, the day, which runs are closed and which are issued, and the delta groups of each run.
#[unsafe(no_mangle)]
pub extern "C" fn emorizugu_replay(
    file: &[u8],
    values: &mut [u64],
    book: &mut [u64],
    log: &mut [u64],
    schedules: &mut [u64],
    series: &mut [u64],
    answers: &mut [u64],
    summary: &mut [u64],
    points: &mut [u64],
    versions: &mut [u64],
) -> u64
    ensures { Summarised file.now (stores_of values.old book.old log.old schedules.old) series.old answers.old (places_of summary.old points.old versions.old) result (stores_of values.new book.new log.new schedules.new) series.new answers.new (places_of summary.new points.new versions.new) }
{
    if !all_fit(summary.len(), points.len(), versions.len()) {
        return TOO_SHORT;
    }
    let run = replay::replay(file, values, book, log, schedules, series, answers);
    let desk = run.desk;
    let f = desk.frame;
    let offset = offset_of(file.len() as u64, run.ending);
    let refused = refusals_of(answers, run.answered);
    put_summary(summary, run.answered as u64, offset, refused, f);
    put_points(points, desk.points, desk.versions, f.count);
    put_versions(versions, desk.versions, f.count);
    number_of(run.ending)
}
