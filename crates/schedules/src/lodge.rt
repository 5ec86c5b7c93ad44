// Lodge: a group's schedule goes to its row of the schedules, over what stood there.
ghost use Rattle.std.specs.Prelude.{◌≡◌, true, map, length};
ghost use Rattle.quantity.specs.Limits.{group_ok};
ghost use Rattle.quantity.specs.Word.{signed};
ghost use Rattle.state.specs.Effect.{changed_by, Fits};
ghost use Rattle.state.specs.Valid.{Sound};
ghost use Rattle.model.specs.Call.{Stores, Lengths, lodges, telling};
ghost use Rattle.model.specs.Causes.{lodge_ok};
ghost use Rattle.model.specs.Step.{refusal_by, granting, with_schedules};
ghost use Rattle.model.specs.declared.Answer.TheVariants.{Accepted};
ghost use Rattle.checks.specs.Stepped.{IsScheduleStep, ScheduleStepped};
ghost use Rattle.checks.specs.Lent.{with_schedules_length};

use amend::copies::put_row;
use checks::decisions::{accept, at_work, outcome, refuse};
use checks::looks::valid;
use checks::rules::refuse_if;
use checks::series::energies_ok;
use checks::{Decided, Outcome};
use model::Cause;
use quantity::Day;
use quantity::limits::{day_ok, group_ok};
use state::changes::put_day;
use state::{Desk, Effect};

// A lodging's fields, the length of its series and its energies; cause 3 where they do not fit.
fn lodge_ok(group: u64, day: Day, q: u64, series: &[u64]) -> bool
    ensures { result ≡ lodge_ok group day.0 q (map signed series.now) }
{
    let n = series.len() as u64;
    group_ok(group) & (day_ok(day) & ((n == q) & energies_ok(series)))
}

#[tactic(auto, unfolding(model::specs::Step::refusal_by, model::specs::Causes::first_of, model::specs::Causes::or_if, model::specs::Causes::other_lengths, quantity::specs::Lists::fold))]
pub fn lodge_ruling(d: Desk, size: u64, group: u64, day: Day, series: &[u64]) -> Result<(), Cause>
    ensures { (n : Lengths) → result ≡ refusal_by d (telling (with_schedules_length n size) (lodges group day.0 (map signed series.now))) }
{
    let opening = d.frame.opening;
    at_work(valid(d), opening)?;
    refuse_if(size != opening.schedules, Cause::WrongLength)?;
    let fits = lodge_ok(group, day, opening.quarters, series);
    refuse_if(!fits, Cause::BadField)?;
    refuse_if(day < d.frame.day, Cause::PastDay)?;
    refuse_if(opening.clearing < day, Cause::TooLate)
}

// The schedules and the desk after a lodging that is not refused: group g has row g - 1.
fn lodged(d: Desk, group: u64, day: Day, series: &[u64], schedules: &mut [u64]) -> Effect
    requires sound { Sound d × (group_ok group ≡ true) }
    requires series_len { length series.now ≡ d.frame.opening.quarters }
    requires schedules_len { length schedules.old ≡ d.frame.opening.schedules }
    ensures { Fits d result × ((s : Stores) → IsScheduleStep (granting d (with_schedules s schedules.old) (lodges group day.0 (map signed series.now))) Accepted (changed_by d result) schedules.new) }
{
    let q = d.frame.opening.quarters as usize;
    let start = (group - 1) as usize * q;
    put_row(schedules, start, series);
    put_day(d.frame, day)
}

// What is decided; the schedules are as after the call.
fn decide_lodge(d: Desk, group: u64, day: Day, series: &[u64], schedules: &mut [u64]) -> Decided
    ensures { Fits d result.effect × ScheduleStepped d (lodges group day.0 (map signed series.now)) schedules.old result.answer (changed_by d result.effect) schedules.new }
{
    let frame = d.frame;
    match lodge_ruling(d, schedules.len() as u64, group, day, series) {
        Err(cause) => refuse(frame, cause),
        Ok(()) => accept(lodged(d, group, day, series, schedules)),
    }
}

pub fn lodge(d: Desk, group: u64, day: Day, series: &[u64], schedules: &mut [u64]) -> Outcome
    ensures { ScheduleStepped d (lodges group day.0 (map signed series.now)) schedules.old result.answer result.desk schedules.new }
{
    let r = decide_lodge(d, group, day, series, schedules);
    outcome(d, r)
}
