// Report: a group's surplus and shortfall in a run, over the month. It changes nothing.
ghost use Rattle.std.specs.Prelude.{◌≡◌};
ghost use Rattle.model.specs.Call.{Lengths, reports, telling};
ghost use Rattle.model.specs.Step.{refusal_by};
ghost use Rattle.checks.specs.Stepped.{Reported};
ghost use Rattle.checks.specs.Lent.{with_book_length, with_schedules_length};

use crate::ReportAnswer;
use checks::decisions::at_work;
use checks::looks::valid;
use checks::rules::refuse_if;
use deviation::month::month_deviation;
use model::{Answer, Cause};
use quantity::WattHours;
use quantity::limits::{group_ok, run_ok};
use state::Desk;

// By the lengths of book and schedules.
#[tactic(auto, unfolding(model::specs::Step::refusal_by, model::specs::Causes::first_of, model::specs::Causes::or_if, model::specs::Causes::other_lengths, quantity::specs::Lists::fold))]
pub fn report_ruling(d: Desk, booked: u64, planned: u64, run: u64, group: u64) -> Result<(), Cause>
    ensures { (n : Lengths) → result ≡ refusal_by d (telling (with_schedules_length (with_book_length n booked) planned) (reports run group)) }
{
    let opening = d.frame.opening;
    at_work(valid(d), opening)?;
    let other = (planned != opening.schedules) | (booked != opening.book);
    refuse_if(other, Cause::WrongLength)?;
    refuse_if(!(run_ok(run) & group_ok(group)), Cause::BadField)
}

pub fn report(d: Desk, run: u64, group: u64, book: &[u64], schedules: &[u64]) -> ReportAnswer
    ensures { Reported d (reports run group) book.now schedules.now result.answer result.surplus.0 result.shortfall.0 }
{
    match report_ruling(d, book.len() as u64, schedules.len() as u64, run, group) {
        Err(cause) => ReportAnswer {
            answer: Answer::Refused(cause),
            surplus: WattHours(0),
            shortfall: WattHours(0),
        },
        Ok(()) => {
            let q = d.frame.opening.quarters as usize;
            let sums = month_deviation(schedules, book, q, run as usize, group as usize);
            ReportAnswer {
                answer: Answer::Accepted,
                surplus: sums.surplus,
                shortfall: sums.shortfall,
            }
        }
    }
}
