// Activate: a point becomes active, with its kind, area and partner.
ghost use Rattle.std.specs.Prelude.{◌≡◌};
ghost use Rattle.state.specs.Effect.{changed_by, Fits};
ghost use Rattle.model.specs.Call.{Lengths, activates, telling};
ghost use Rattle.model.specs.Causes.{asking_series};
ghost use Rattle.model.specs.Step.{refusal_by};
ghost use Rattle.checks.specs.Look.{Seen, OfEach};
ghost use Rattle.checks.specs.Stepped.{Answered};

use checks::decisions::{accept, at_work, outcome, refuse};
use checks::limits::series_ok;
use checks::looks::{asking_series, look};
use checks::points::is_active;
use checks::rules::refuse_if;
use checks::{Decided, Look, Outcome};
use model::Cause;
use quantity::limits::{day_ok, point_ok};
use quantity::{Day, PointNo};
use state::changes::{active_record, put_point};
use state::{Desk, Frame, Series};

#[tactic(auto, unfolding(model::specs::Step::refusal_by, model::specs::Causes::first_of, model::specs::Causes::or_if, quantity::specs::Lists::fold))]
fn activate_ruling(
    frame: Frame,
    l: Look,
    point: PointNo,
    series: Series,
    day: Day,
) -> Result<(), Cause>
    ensures { OfEach frame (asking_series point.0 series.kind series.area series.partner) l (λ d. (n : Lengths) → result ≡ refusal_by d (telling n (activates point.0 series.kind series.area series.partner day.0))) }
{
    let fits = point_ok(point) & (day_ok(day) & series_ok(series));
    at_work(l.valid, frame.opening)?;
    refuse_if(!fits, Cause::BadField)?;
    refuse_if(day < frame.day, Cause::PastDay)?;
    refuse_if(frame.opening.correction < day, Cause::AfterCorrection)?;
    refuse_if(is_active(l.here), Cause::PointActive)?;
    refuse_if(l.taken, Cause::SameSeries)
}

// What is decided, by the desk's frame and one look at it.
pub fn decide_activate(frame: Frame, l: Look, point: PointNo, series: Series, day: Day) -> Decided
    requires { Seen frame (asking_series point.0 series.kind series.area series.partner) l }
    ensures { OfEach frame (asking_series point.0 series.kind series.area series.partner) l (λ d. Fits d result.effect × Answered d (activates point.0 series.kind series.area series.partner day.0) result.answer (changed_by d result.effect)) }
{
    match activate_ruling(frame, l, point, series, day) {
        Err(cause) => refuse(frame, cause),
        Ok(()) => {
            let p = active_record(series, day);
            accept(put_point(frame, point, p, day))
        }
    }
}

pub fn activate(d: Desk, point: PointNo, kind: u64, area: u64, partner: u64, day: Day) -> Outcome
    ensures { Answered d (activates point.0 kind area partner day.0) result.answer result.desk }
{
    let series = Series {
        kind,
        area,
        partner,
    };
    let l = look(d, asking_series(point, series));
    let r = decide_activate(d.frame, l, point, series, day);
    outcome(d, r)
}
