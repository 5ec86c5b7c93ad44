// Deactivate: a point without a version becomes free.
ghost use Rattle.std.specs.Prelude.{◌≡◌};
ghost use Rattle.state.specs.Effect.{changed_by, Fits};
ghost use Rattle.model.specs.Call.{Lengths, deactivates, telling};
ghost use Rattle.model.specs.Causes.{asking_versions};
ghost use Rattle.model.specs.Step.{refusal_by};
ghost use Rattle.checks.specs.Look.{Seen, OfEach};
ghost use Rattle.checks.specs.Stepped.{Answered};

use checks::decisions::{accept, at_work, outcome, refuse};
use checks::looks::{asking_versions, look};
use checks::points::is_active;
use checks::rules::refuse_if;
use checks::{Decided, Look, Outcome};
use model::Cause;
use quantity::limits::{day_ok, point_ok};
use quantity::{Day, PointNo, Version};
use state::changes::put_point;
use state::{Desk, Frame, PointRecord, PointState};

#[tactic(auto, unfolding(model::specs::Step::refusal_by, model::specs::Causes::first_of, model::specs::Causes::or_if, quantity::specs::Lists::fold))]
fn deactivate_ruling(frame: Frame, l: Look, point: PointNo, day: Day) -> Result<(), Cause>
    ensures { OfEach frame (asking_versions point.0 0) l (λ d. (n : Lengths) → result ≡ refusal_by d (telling n (deactivates point.0 day.0))) }
{
    at_work(l.valid, frame.opening)?;
    refuse_if(!(point_ok(point) & day_ok(day)), Cause::BadField)?;
    refuse_if(day < frame.day, Cause::PastDay)?;
    refuse_if(frame.opening.correction < day, Cause::AfterCorrection)?;
    refuse_if(!is_active(l.here), Cause::NotActive)?;
    refuse_if(l.survey.highest.0 != 0, Cause::HasVersion)
}

// What is decided, by the desk's frame and one look at it.
pub fn decide_deactivate(frame: Frame, l: Look, point: PointNo, day: Day) -> Decided
    requires { Seen frame (asking_versions point.0 0) l }
    ensures { OfEach frame (asking_versions point.0 0) l (λ d. Fits d result.effect × Answered d (deactivates point.0 day.0) result.answer (changed_by d result.effect)) }
{
    match deactivate_ruling(frame, l, point, day) {
        Err(cause) => refuse(frame, cause),
        Ok(()) => {
            let free = PointRecord {
                state: PointState::Free,
            };
            accept(put_point(frame, point, free, day))
        }
    }
}

pub fn deactivate(d: Desk, point: PointNo, day: Day) -> Outcome
    ensures { Answered d (deactivates point.0 day.0) result.answer result.desk }
{
    let l = look(d, asking_versions(point, Version(0)));
    let r = decide_deactivate(d.frame, l, point, day);
    outcome(d, r)
}
