// Issue: the versions that a closed run selects get the status of settled ones, and the desk records that the run is issued.
ghost use Rattle.std.specs.Prelude.{◌≡◌};
ghost use Rattle.state.specs.Effect.{changed_by, Fits};
ghost use Rattle.model.specs.Call.{Lengths, issues, telling};
ghost use Rattle.model.specs.Causes.{asking_nothing};
ghost use Rattle.model.specs.Step.{refusal_by};
ghost use Rattle.checks.specs.Look.{OfEach};
ghost use Rattle.checks.specs.Stepped.{Answered};

use crate::close::flag_of;
use checks::decisions::{accept, at_work, outcome, refuse};
use checks::looks::{asking_nothing, look};
use checks::rules::refuse_if;
use checks::{Decided, Look, Outcome};
use model::Cause;
use quantity::Day;
use quantity::limits::{day_ok, run_ok};
use state::changes::issue_run;
use state::{Desk, Frame};

#[tactic(auto, unfolding(model::specs::Step::refusal_by, model::specs::Causes::first_of, model::specs::Causes::or_if, quantity::specs::Lists::fold))]
pub fn issue_ruling(frame: Frame, l: Look, run: u64, day: Day) -> Result<(), Cause>
    ensures { OfEach frame asking_nothing l (λ d. (n : Lengths) → result ≡ refusal_by d (telling n (issues run day.0))) }
{
    at_work(l.valid, frame.opening)?;
    refuse_if(!(run_ok(run) & day_ok(day)), Cause::BadField)?;
    refuse_if(day < frame.day, Cause::PastDay)?;
    refuse_if(!flag_of(frame.closed, run), Cause::NotClosed)?;
    refuse_if(flag_of(frame.issued, run), Cause::AlreadyIssued)
}

// What is decided, by the desk's frame and one look at it.
pub fn decide_issue(frame: Frame, l: Look, run: u64, day: Day) -> Decided
    ensures { OfEach frame asking_nothing l (λ d. Fits d result.effect × Answered d (issues run day.0) result.answer (changed_by d result.effect)) }
{
    match issue_ruling(frame, l, run, day) {
        Err(cause) => refuse(frame, cause),
        Ok(()) => accept(issue_run(frame, run, day)),
    }
}

pub fn issue(d: Desk, run: u64, day: Day) -> Outcome
    ensures { Answered d (issues run day.0) result.answer result.desk }
{
    let l = look(d, asking_nothing());
    let r = decide_issue(d.frame, l, run, day);
    outcome(d, r)
}
