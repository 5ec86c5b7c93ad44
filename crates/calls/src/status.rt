// Status: that of a version of an active point. The desk stays as it is.
ghost use Rattle.std.specs.Prelude.{◌≡◌};
ghost use Rattle.model.specs.Call.{Lengths, asks, telling};
ghost use Rattle.model.specs.Causes.{asking_versions};
ghost use Rattle.model.specs.Step.{status_answer, refusal_by};
ghost use Rattle.checks.specs.Look.{OfEach};
ghost use Rattle.checks.specs.Stepped.{Answered};

use checks::decisions::at_work;
use checks::looks::{asking_versions, look};
use checks::points::is_active;
use checks::rules::refuse_if;
use checks::{Look, Outcome};
use model::{Answer, Cause};
use quantity::limits::{point_ok, version_ok};
use quantity::{PointNo, Version};
use state::{Desk, Frame, HeldVersion};

#[tactic(auto, unfolding(model::specs::Step::refusal_by, model::specs::Causes::first_of, model::specs::Causes::or_if, model::specs::Causes::is_absent, quantity::specs::Lists::fold))]
fn status_ruling(frame: Frame, l: Look, point: PointNo, version: Version) -> Result<(), Cause>
    ensures { OfEach frame (asking_versions point.0 version.0) l (λ d. (n : Lengths) → result ≡ refusal_by d (telling n (asks point.0 version.0))) }
{
    at_work(l.valid, frame.opening)?;
    refuse_if(!(point_ok(point) & version_ok(version)), Cause::BadField)?;
    refuse_if(!is_active(l.here), Cause::NotActive)?;
    refuse_if(l.survey.held.is_none(), Cause::NoVersion)
}

pub fn status_answer(held: Option<HeldVersion>) -> Answer
    ensures { result ≡ status_answer held }
{
    match held {
        None => Answer::Refused(Cause::NoVersion),
        Some(found) => Answer::HasStatus(found.record.status),
    }
}

pub fn status(d: Desk, point: PointNo, version: Version) -> Outcome
    ensures { Answered d (asks point.0 version.0) result.answer result.desk }
{
    let l = look(d, asking_versions(point, version));
    match status_ruling(d.frame, l, point, version) {
        Err(cause) => Outcome {
            answer: Answer::Refused(cause),
            desk: d,
        },
        Ok(()) => {
            let answer = status_answer(l.survey.held);
            Outcome { answer, desk: d }
        }
    }
}
