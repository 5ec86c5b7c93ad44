// Notice, on its point's highest version: a positive one turns check data into settlement data, or after C into correction settlement data; a negative
// one changes no status.
ghost use Rattle.std.specs.Prelude.{◌≡◌, ◌*◌, ◌≤◌};
ghost use Rattle.state.specs.Desk.{versions_in};
ghost use Rattle.state.specs.Effect.{changed_by, Fits};
ghost use Rattle.model.specs.Call.{Lengths, notices};
ghost use Rattle.model.specs.Causes.{rules, first_of, asking_versions};
ghost use Rattle.model.specs.Log.{due as due_of};
ghost use Rattle.model.specs.View.{view_of};
ghost use Rattle.checks.specs.Lent.{lengths_in};
ghost use Rattle.checks.specs.Look.{Seen, OfEach};
ghost use Rattle.checks.specs.Stepped.{Stepped};
ghost use Rattle.notice.specs.Notice.{noticed_in, own_by, turn_by, noticed_record, NoticeFits, NoticeEffect};

use crate::conditions::notice_ok;
use amend::log::due_by;
use amend::turns::follow;
use checks::decisions::{accept, outcome, refuse};
use checks::looks::{asking_versions, is_open, look, not_check};
use checks::points::is_active;
use checks::rules::refuse_if;
use checks::stores::{log_full, other_lengths};
use checks::{Decided, Look, Outcome, Sizes, Survey};
use model::{Cause, LogRow, Turn};
use quantity::{Day, PointNo, Version};
use state::changes::{put_version, restated};
use state::effects::unchanged;
use state::selections::{raised_earlier, row_at};
use state::statuses::{confirmed_status, counts_in, is_check};
use state::{
    Desk, Effect, Frame, HeldVersion, Opening, PointState, Selection, Status, VersionRecord,
};

// What a notice on the version found makes of a run's own selection; positive, it gives check data the status `confirmed`. A higher one that counts
// stays; the table refuses such a notice (37).
fn own_after(
    run: u64,
    old: Selection,
    held: Option<HeldVersion>,
    verdict: u64,
    confirmed: Status,
) -> Selection
    ensures { result ≡ own_by run verdict confirmed held old }
{
    match held {
        None => old,
        Some(found) => {
            if (verdict == 1) & (is_check(found.record.status) & counts_in(run, confirmed)) {
                raised_earlier(old, row_at(found.at, restated(found.record, confirmed)))
            } else {
                old
            }
        }
    }
}

// The same of both runs.
pub fn notice_turn(f: Frame, s: Survey, verdict: u64, day: Day) -> Turn
    ensures { result ≡ turn_by f verdict day.0 s }
{
    let confirmed = confirmed_status(f.opening.clearing, day);
    let new1 = own_after(1, s.first, s.held, verdict, confirmed);
    let new2 = own_after(2, s.second, s.held, verdict, confirmed);
    Turn {
        old1: s.first,
        new1,
        old2: s.second,
        new2,
    }
}

// The table's lines for a notice, in their order.
#[tactic(auto, unfolding(model::specs::Causes::first_of, model::specs::Causes::or_if, model::specs::Causes::is_absent, quantity::specs::Lists::fold))]
fn notice_ruling(
    f: Frame,
    l: Look,
    due: Option<LogRow>,
    point: PointNo,
    version: Version,
    verdict: u64,
    day: Day,
    n: Sizes,
) -> Result<(), Cause>
    requires { 4 * f.used ≤ f.opening.log }
    ensures { OfEach f (asking_versions point.0 version.0) l (λ d. due ≡ due_of (versions_in d) (noticed_in d point.0 version.0 verdict day.0) point.0 day.0 → (m : Lengths) → result ≡ first_of (rules (view_of d) (lengths_in m n) (notices point.0 version.0 verdict day.0))) }
{
    let o = f.opening;
    refuse_if(!is_open(o), Cause::NotOpen)?;
    refuse_if(other_lengths(o, n), Cause::WrongLength)?;
    refuse_if(!notice_ok(point, version, verdict, day), Cause::BadField)?;
    refuse_if(day < f.day, Cause::PastDay)?;
    refuse_if(o.correction < day, Cause::AfterCorrection)?;
    refuse_if(!is_active(l.here), Cause::NotActive)?;
    refuse_if(l.survey.held.is_none(), Cause::NoVersion)?;
    refuse_if(version < l.survey.highest, Cause::NoticeBelow)?;
    refuse_if(not_check(l.survey.held), Cause::NotCheckData)?;
    refuse_if(log_full(f.used, o.log, due), Cause::NoLogRow)
}

// The record of the version found, as the notice leaves it.
fn noticed_record(v: VersionRecord, o: Opening, verdict: u64, day: Day) -> VersionRecord
    ensures { result ≡ noticed_record o.clearing.0 verdict day.0 v }
{
    if verdict == 1 {
        restated(v, confirmed_status(o.clearing, day))
    } else {
        v
    }
}

// After a notice on the version found that is not refused. No record's row of values changes.
fn notice_granted(
    f: Frame,
    here: PointState,
    held: Option<HeldVersion>,
    turn: Turn,
    due: Option<LogRow>,
    verdict: u64,
    day: Day,
    values: &[u64],
    book: &mut [u64],
    log: &mut [u64],
) -> Effect
    requires { NoticeFits f here held values.now book.old log.old turn due }
    ensures { NoticeEffect f here held turn due verdict day.0 values.now book.old log.old result book.new log.new }
{
    let Some(found) = held else {
        return unchanged(f);
    };
    let used = follow(f, here, turn, due, values, book, log);
    let after = noticed_record(found.record, f.opening, verdict, day);
    put_version(f, found.at, after, f.count, used, day)
}

// By the desk's frame and one look at it.
pub fn decide_notice(
    f: Frame,
    l: Look,
    point: PointNo,
    version: Version,
    verdict: u64,
    day: Day,
    values: &[u64],
    book: &mut [u64],
    log: &mut [u64],
) -> Decided
    requires { Seen f (asking_versions point.0 version.0) l }
    ensures { OfEach f (asking_versions point.0 version.0) l (λ d. Fits d result.effect × Stepped d (notices point.0 version.0 verdict day.0) values.now book.old log.old result.answer (changed_by d result.effect) values.now book.new log.new) }
{
    if !l.valid {
        return refuse(f, Cause::NotOpen);
    }
    let n = Sizes {
        values: values.len() as u64,
        book: book.len() as u64,
        log: log.len() as u64,
    };
    let turn = notice_turn(f, l.survey, verdict, day);
    let due = due_by(turn, point, day);
    match notice_ruling(f, l, due, point, version, verdict, day, n) {
        Err(cause) => refuse(f, cause),
        Ok(()) => {
            accept(notice_granted(
                f,
                l.here,
                l.survey.held,
                turn,
                due,
                verdict,
                day,
                values,
                book,
                log,
            ))
        }
    }
}

pub fn notice(
    d: Desk,
    point: PointNo,
    version: Version,
    verdict: u64,
    day: Day,
    values: &[u64],
    book: &mut [u64],
    log: &mut [u64],
) -> Outcome
    ensures { Stepped d (notices point.0 version.0 verdict day.0) values.now book.old log.old result.answer result.desk values.now book.new log.new }
{
    let l = look(d, asking_versions(point, version));
    let r = decide_notice(d.frame, l, point, version, verdict, day, values, book, log);
    outcome(d, r)
}
