// What calls share: cause 1, and what is decided.
ghost use Rattle.std.specs.Prelude.{◌≡◌, not, Ok};
ghost use Rattle.model.specs.Causes.{or_if};
ghost use Rattle.state.specs.Effect.{changed_by, unchanged_in, Fits};
ghost use Rattle.model.specs.declared.Answer.TheVariants.{Accepted, Refused};
ghost use Rattle.model.specs.declared.Cause.TheVariants.{NotOpen};
ghost use Rattle.state.specs.Desk.{is_open};

use crate::looks::is_open;
use crate::rules::refuse_if;
use crate::{Decided, Outcome};
use model::{Answer, Cause};
use state::effects::{changed, unchanged};
use state::{Desk, Effect, Frame, Opening};

// Cause 1: the state is outside its limits, or not open.
#[tactic(auto, unfolding(model::specs::Causes::or_if))]
pub fn at_work(valid: bool, opening: Opening) -> Result<(), Cause>
    ensures { result ≡ or_if (or_if (Ok tt) (not valid) NotOpen) (not (is_open opening)) NotOpen }
{
    refuse_if(!valid, Cause::NotOpen)?;
    refuse_if(!is_open(opening), Cause::NotOpen)
}

// A refusal changes nothing.
pub fn refuse(f: Frame, cause: Cause) -> Decided
    ensures { (result.answer ≡ Refused cause) × (result.effect ≡ unchanged_in f) }
{
    let effect = unchanged(f);
    Decided {
        answer: Answer::Refused(cause),
        effect,
    }
}

pub fn accept(effect: Effect) -> Decided
    ensures { (result.answer ≡ Accepted) × (result.effect ≡ effect) }
{
    Decided {
        answer: Answer::Accepted,
        effect,
    }
}

// The desk after what was decided.
pub fn outcome(d: Desk, r: Decided) -> Outcome
    requires { Fits d r.effect }
    ensures { (result.answer ≡ r.answer) × (result.desk ≡ changed_by d r.effect) }
{
    Outcome {
        answer: r.answer,
        desk: changed(d, r.effect),
    }
}
