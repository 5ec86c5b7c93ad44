// Close: the desk records that a run is closed. No version changes.
ghost use Rattle.std.specs.Prelude.{◌≡◌};
ghost use Rattle.state.specs.Effect.{changed_by, Fits};
ghost use Rattle.state.specs.Desk.{flag_of};
ghost use Rattle.model.specs.Call.{Lengths, closes, telling};
ghost use Rattle.model.specs.Causes.{deadline, asking_nothing};
ghost use Rattle.model.specs.Step.{refusal_by};
ghost use Rattle.checks.specs.Look.{OfEach};
ghost use Rattle.checks.specs.Stepped.{Answered};

use checks::decisions::{accept, at_work, outcome, refuse};
use checks::looks::{asking_nothing, look};
use checks::rules::refuse_if;
use checks::{Decided, Look, Outcome};
use model::Cause;
use quantity::Day;
use quantity::limits::{day_ok, run_ok};
use state::changes::close_run;
use state::{Desk, Frame, Opening, PerRun};

// The last day before a run can be closed.
pub fn deadline_of(opening: Opening, run: u64) -> Day
    ensures { result.0 ≡ deadline opening run }
{
    if run == 1 {
        opening.clearing
    } else {
        opening.correction
    }
}

// The flag of a run.
pub fn flag_of(flags: PerRun<bool>, run: u64) -> bool
    ensures { result ≡ flag_of run flags }
{
    if run == 1 { flags.first } else { flags.second }
}

#[tactic(auto, unfolding(model::specs::Step::refusal_by, model::specs::Causes::first_of, model::specs::Causes::or_if, quantity::specs::Lists::fold))]
pub fn close_ruling(frame: Frame, l: Look, run: u64, day: Day) -> Result<(), Cause>
    ensures { OfEach frame asking_nothing l (λ d. (n : Lengths) → result ≡ refusal_by d (telling n (closes run day.0))) }
{
    let last = deadline_of(frame.opening, run);
    at_work(l.valid, frame.opening)?;
    refuse_if(!(run_ok(run) & day_ok(day)), Cause::BadField)?;
    refuse_if(day < frame.day, Cause::PastDay)?;
    refuse_if(day <= last, Cause::CloseTooEarly)?;
    refuse_if(flag_of(frame.closed, run), Cause::AlreadyClosed)?;
    refuse_if((run == 2) & !frame.closed.first, Cause::FirstRunOpen)
}

// What is decided, by the desk's frame and one look at it.
pub fn decide_close(frame: Frame, l: Look, run: u64, day: Day) -> Decided
    ensures { OfEach frame asking_nothing l (λ d. Fits d result.effect × Answered d (closes run day.0) result.answer (changed_by d result.effect)) }
{
    match close_ruling(frame, l, run, day) {
        Err(cause) => refuse(frame, cause),
        Ok(()) => accept(close_run(frame, run, day)),
    }
}

pub fn close(d: Desk, run: u64, day: Day) -> Outcome
    ensures { Answered d (closes run day.0) result.answer result.desk }
{
    let l = look(d, asking_nothing());
    let r = decide_close(d.frame, l, run, day);
    outcome(d, r)
}
