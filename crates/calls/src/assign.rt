// Assign: a delta moves to another group, up to day C in both runs and after it in run 2 only.
ghost use Rattle.std.specs.Prelude.{◌≡◌, true, ◌*◌, ◌≤◌, length};
ghost use Rattle.quantity.specs.Limits.{most_quarters, book_rows, delta_ok, group_ok};
ghost use Rattle.state.specs.Desk.{with_frame};
ghost use Rattle.state.specs.Effect.{changed_by, Fits};
ghost use Rattle.state.specs.Valid.{deltas_ok};
ghost use Rattle.model.specs.Call.{Stores, Lengths, assigns, telling};
ghost use Rattle.model.specs.Causes.{asking_nothing};
ghost use Rattle.model.specs.Step.{refusal_by, granting, with_book};
ghost use Rattle.model.specs.declared.Answer.TheVariants.{Accepted};
ghost use Rattle.checks.specs.Look.{Seen, OfEach};
ghost use Rattle.checks.specs.Stepped.{IsBookStep, BookStepped};
ghost use Rattle.checks.specs.Lent.{with_book_length};

use amend::delta::move_delta;
use checks::decisions::{accept, at_work, outcome, refuse};
use checks::looks::{asking_nothing, look};
use checks::rules::refuse_if;
use checks::{Decided, Look, Outcome};
use model::Cause;
use quantity::Day;
use quantity::limits::{day_ok, delta_ok, group_ok};
use state::changes::put_group;
use state::groups::sets_both;
use state::{Desk, Effect, Frame};

#[tactic(auto, unfolding(model::specs::Step::refusal_by, model::specs::Causes::first_of, model::specs::Causes::or_if, model::specs::Causes::other_lengths, quantity::specs::Lists::fold))]
pub fn assign_ruling(
    frame: Frame,
    l: Look,
    size: u64,
    area: u64,
    group: u64,
    day: Day,
) -> Result<(), Cause>
    ensures { OfEach frame asking_nothing l (λ d. (n : Lengths) → result ≡ refusal_by d (telling (with_book_length n size) (assigns area group day.0))) }
{
    let opening = frame.opening;
    at_work(l.valid, opening)?;
    refuse_if(size != opening.book, Cause::WrongLength)?;
    let fits = delta_ok(area) & (group_ok(group) & day_ok(day));
    refuse_if(!fits, Cause::BadField)?;
    refuse_if(day < frame.day, Cause::PastDay)?;
    refuse_if(opening.correction < day, Cause::TooLate)
}

// The book and the desk after an assignment that is not refused.
fn assigned(frame: Frame, area: u64, group: u64, day: Day, book: &mut [u64]) -> Effect
    requires quarters_le_most_quarters { (frame.opening.quarters ≤ most_quarters) × (deltas_ok frame.groups ≡ true) }
    requires area_value { (delta_ok area ≡ true) × (group_ok group ≡ true) }
    requires book_len { length book.old ≡ book_rows * frame.opening.quarters }
    ensures { (e : Desk) → let d = with_frame e frame in Fits d result × ((s : Stores) → IsBookStep (granting d (with_book s book.old) (assigns area group day.0)) Accepted (changed_by d result) book.new) }
{
    let both = sets_both(frame.opening, day);
    move_delta(
        both,
        area,
        group,
        frame.groups,
        frame.opening.quarters as usize,
        book,
    );
    put_group(frame, area, group, day)
}

// What is decided, by the desk's frame and one look at it.
pub fn decide_assign(
    frame: Frame,
    l: Look,
    area: u64,
    group: u64,
    day: Day,
    book: &mut [u64],
) -> Decided
    requires { Seen frame asking_nothing l }
    ensures { OfEach frame asking_nothing l (λ d. Fits d result.effect × BookStepped d (assigns area group day.0) book.old result.answer (changed_by d result.effect) book.new) }
{
    match assign_ruling(frame, l, book.len() as u64, area, group, day) {
        Err(cause) => refuse(frame, cause),
        Ok(()) => accept(assigned(frame, area, group, day, book)),
    }
}

pub fn assign(d: Desk, area: u64, group: u64, day: Day, book: &mut [u64]) -> Outcome
    ensures { BookStepped d (assigns area group day.0) book.old result.answer result.desk book.new }
{
    let l = look(d, asking_nothing());
    let r = decide_assign(d.frame, l, area, group, day, book);
    outcome(d, r)
}
