// Submit: a series goes to the next unused row of values, and counts from then on as its day says.
ghost use Rattle.std.specs.Prelude.{◌≡◌, map, ◌*◌, ◌≤◌};
ghost use Rattle.quantity.specs.Limits.{versions, most_quarters};
ghost use Rattle.quantity.specs.Word.{signed};
ghost use Rattle.state.specs.Desk.{versions_in};
ghost use Rattle.state.specs.Effect.{changed_by, Fits};
ghost use Rattle.model.specs.Call.{Lengths, submits};
ghost use Rattle.model.specs.Causes.{rules, first_of, asking_versions};
ghost use Rattle.model.specs.Log.{due as due_of};
ghost use Rattle.model.specs.View.{view_of};
ghost use Rattle.checks.specs.Lent.{lengths_in};
ghost use Rattle.checks.specs.Look.{Seen, OfEach};
ghost use Rattle.checks.specs.Stepped.{Stepped};
ghost use Rattle.submit.specs.Submit.{turn_by, submitted_in, Granted, Delivered};

use crate::conditions::{no_row, submit_ok, too_early};
use amend::copies::put_row;
use amend::log::due_by;
use amend::turns::follow;
use checks::decisions::{accept, outcome, refuse};
use checks::looks::{asking_versions, is_open, look};
use checks::points::is_active;
use checks::rules::refuse_if;
use checks::stores::{log_full, other_lengths};
use checks::{Decided, Look, Outcome, Sizes, Survey};
use model::{Cause, LogRow, Turn};
use quantity::{Day, PointNo, Version};
use state::changes::{new_version, put_version};
use state::selections::raised_if;
use state::statuses::{counts_in, submitted_status};
use state::{Desk, Effect, Frame, PointState, Row, VersionRecord, VersionRow};

// What a submission makes of its point's selections: the version that it makes stands behind those held, with the next row of values.
pub fn submit_turn(f: Frame, s: Survey, version: Version, day: Day) -> Turn
    requires { f.count ≤ versions }
    ensures { result ≡ turn_by f version day.0 s }
{
    let status = submitted_status(f.opening.first, day);
    let row = VersionRow {
        at: f.count,
        version,
        row: Row(f.count as u16),
        status,
    };
    let new1 = raised_if(counts_in(1, status), s.first, row);
    let new2 = raised_if(counts_in(2, status), s.second, row);
    Turn {
        old1: s.first,
        new1,
        old2: s.second,
        new2,
    }
}

// The table's lines for a submission, in their order.
#[tactic(auto, unfolding(model::specs::Causes::first_of, model::specs::Causes::or_if, model::specs::Causes::is_absent, quantity::specs::Lists::fold))]
fn submit_ruling(
    f: Frame,
    l: Look,
    due: Option<LogRow>,
    point: PointNo,
    version: Version,
    day: Day,
    series: &[u64],
    n: Sizes,
) -> Result<(), Cause>
    requires count_le_versions { (f.count ≤ versions) × (f.opening.quarters ≤ most_quarters) }
    requires used_bound { 4 * f.used ≤ f.opening.log }
    ensures { OfEach f (asking_versions point.0 version.0) l (λ d. due ≡ due_of (versions_in d) (submitted_in d point.0 version.0 day.0) point.0 day.0 → (m : Lengths) → result ≡ first_of (rules (view_of d) (lengths_in m n) (submits point.0 version.0 day.0 (map signed series.now)))) }
{
    let o = f.opening;
    refuse_if(!is_open(o), Cause::NotOpen)?;
    refuse_if(other_lengths(o, n), Cause::WrongLength)?;
    let fits = submit_ok(point, version, day, o.quarters, series);
    refuse_if(!fits, Cause::BadField)?;
    refuse_if(day < f.day, Cause::PastDay)?;
    refuse_if(o.correction < day, Cause::AfterCorrection)?;
    refuse_if(!is_active(l.here), Cause::NotActive)?;
    refuse_if(too_early(l.here, day), Cause::TooEarly)?;
    refuse_if(l.survey.held.is_some(), Cause::VersionPresent)?;
    refuse_if(version < l.survey.highest, Cause::VersionBelow)?;
    refuse_if(no_row(f.count, o.quarters, o.values), Cause::NoRow)?;
    refuse_if(log_full(f.used, o.log, due), Cause::NoLogRow)
}

// The values, the book and the log after a submission that is not refused. The effect has its version, the log rows used and its day.
fn submit_granted(
    f: Frame,
    here: PointState,
    turn: Turn,
    due: Option<LogRow>,
    v: VersionRecord,
    day: Day,
    series: &[u64],
    values: &mut [u64],
    book: &mut [u64],
    log: &mut [u64],
) -> Effect
    requires { Granted f here series.now values.old book.old log.old turn due }
    ensures { Delivered f here v day.0 turn due series.now values.old book.old log.old result values.new book.new log.new }
{
    let q = f.opening.quarters as usize;
    let at = f.count;
    let start = at as usize * q;
    put_row(values, start, series);
    let used = follow(f, here, turn, due, values, book, log);
    put_version(f, at, v, at + 1, used, day)
}

// The answer and what it makes of the desk, by its frame and one look at it; the stores are as after the call.
pub fn decide_submit(
    f: Frame,
    l: Look,
    point: PointNo,
    version: Version,
    day: Day,
    series: &[u64],
    values: &mut [u64],
    book: &mut [u64],
    log: &mut [u64],
) -> Decided
    requires { Seen f (asking_versions point.0 version.0) l }
    ensures { OfEach f (asking_versions point.0 version.0) l (λ d. Fits d result.effect × Stepped d (submits point.0 version.0 day.0 (map signed series.now)) values.old book.old log.old result.answer (changed_by d result.effect) values.new book.new log.new) }
{
    if !l.valid {
        return refuse(f, Cause::NotOpen);
    }
    let n = Sizes {
        values: values.len() as u64,
        book: book.len() as u64,
        log: log.len() as u64,
    };
    let turn = submit_turn(f, l.survey, version, day);
    let due = due_by(turn, point, day);
    match submit_ruling(f, l, due, point, version, day, series, n) {
        Err(cause) => refuse(f, cause),
        Ok(()) => {
            let v = new_version(f.opening.first, f.count, point, version, day);
            accept(submit_granted(f, l.here, turn, due, v, day, series, values, book, log))
        }
    }
}

pub fn submit(
    d: Desk,
    point: PointNo,
    version: Version,
    day: Day,
    series: &[u64],
    values: &mut [u64],
    book: &mut [u64],
    log: &mut [u64],
) -> Outcome
    ensures { Stepped d (submits point.0 version.0 day.0 (map signed series.now)) values.old book.old log.old result.answer result.desk values.new book.new log.new }
{
    let l = look(d, asking_versions(point, version));
    let r = decide_submit(d.frame, l, point, version, day, series, values, book, log);
    outcome(d, r)
}
