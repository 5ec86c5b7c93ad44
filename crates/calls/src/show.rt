// Show: a group's row of a run, itself a part of the lent book. Its number and its part are two entries over the same input.
ghost use Rattle.std.specs.Prelude.{◌≡◌};
ghost use Rattle.model.specs.Call.{Stores, Lengths, shows, telling};
ghost use Rattle.model.specs.Step.{refusal_by, step, with_book};
ghost use Rattle.checks.specs.Stepped.{lent};
ghost use Rattle.checks.specs.Lent.{with_book_length};

use book::place::row_start;
use checks::decisions::at_work;
use checks::looks::valid;
use checks::rules::refuse_if;
use model::{Answer, Cause};
use quantity::limits::{group_ok, run_ok};
use state::Desk;

#[tactic(auto, unfolding(model::specs::Step::refusal_by, model::specs::Causes::first_of, model::specs::Causes::or_if, model::specs::Causes::other_lengths, quantity::specs::Lists::fold))]
pub fn show_ruling(d: Desk, size: u64, run: u64, group: u64) -> Result<(), Cause>
    ensures { (n : Lengths) → result ≡ refusal_by d (telling (with_book_length n size) (shows run group)) }
{
    at_work(valid(d), d.frame.opening)?;
    refuse_if(size != d.frame.opening.book, Cause::WrongLength)?;
    refuse_if(!(run_ok(run) & group_ok(group)), Cause::BadField)
}

pub fn show_number(d: Desk, run: u64, group: u64, book: &[u64]) -> Answer
    ensures { (s : Stores) → result ≡ (step d (lent (shows run group) (with_book s book.now))).answer }
{
    match show_ruling(d, book.len() as u64, run, group) {
        Err(cause) => Answer::Refused(cause),
        Ok(()) => Answer::Accepted,
    }
}

pub fn show_row(d: Desk, run: u64, group: u64, book: &[u64]) -> &[u64]
    ensures { (s : Stores) → result.now ≡ (step d (lent (shows run group) (with_book s book.now))).part }
{
    let Ok(()) = show_ruling(d, book.len() as u64, run, group) else {
        return &book[0..0];
    };
    let q = d.frame.opening.quarters as usize;
    let start = row_start(run as usize, (group - 1) as usize, q);
    &book[start..start + q]
}
