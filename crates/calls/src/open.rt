// Open: the state is made anew, whatever the old one held, and book and schedules are all 0.
ghost use Rattle.std.specs.Prelude.{◌≡◌, length, replicate};
ghost use Rattle.state.specs.Desk.{with_frame};
ghost use Rattle.state.specs.Effect.{changed_by, Fits};
ghost use Rattle.model.specs.Call.{opens, telling};
ghost use Rattle.model.specs.Step.{refusal_by};
ghost use Rattle.checks.specs.Stepped.{WholeStepped, stores_of};
ghost use Rattle.checks.specs.Lent.{sizes};

use checks::decisions::{accept, outcome, refuse};
use checks::limits::{groups_ok, opening_ok};
use checks::looks::is_open;
use checks::rules::refuse_if;
use checks::{Decided, Outcome};
use model::Cause;
use quantity::Day;
use quantity::limits::DELTAS;
use state::changes::open_desk;
use state::{Desk, Frame, Opening};

// It checks 6, then 4, and never cause 1.
#[tactic(auto, unfolding(model::specs::Step::refusal_by, model::specs::Causes::first_of, model::specs::Causes::or_if, quantity::specs::Lists::fold))]
pub fn open_ruling(frame: Frame, o: Opening, groups: [u64; DELTAS as usize]) -> Result<(), Cause>
    ensures { (d : Desk) → result ≡ refusal_by (with_frame d frame) (telling (sizes o.values o.book o.log o.schedules) (opens o.quarters o.first.0 o.clearing.0 o.correction.0 groups)) }
{
    refuse_if(is_open(frame.opening), Cause::OpenAgain)?;
    refuse_if(!(opening_ok(o) & groups_ok(groups)), Cause::BadOpening)
}

// All numbers 0.
pub fn clear(store: &mut [u64])
    ensures { store.new ≡ replicate (length store.old) 0 }
{
    store.fill(0);
}

// What is decided, by the desk's frame; book and schedules are cleared where it is accepted.
pub fn decide_open(
    frame: Frame,
    quarters: u64,
    first: Day,
    clearing: Day,
    correction: Day,
    groups: [u64; DELTAS as usize],
    values: &[u64],
    book: &mut [u64],
    log: &[u64],
    schedules: &mut [u64],
) -> Decided
    ensures { (e : Desk) → let d = with_frame e frame in Fits d result.effect × WholeStepped d (opens quarters first.0 clearing.0 correction.0 groups) (stores_of values.now book.old log.now schedules.old) result.answer (changed_by d result.effect) (stores_of values.now book.new log.now schedules.new) }
{
    let o = Opening {
        quarters,
        first,
        clearing,
        correction,
        values: values.len() as u64,
        book: book.len() as u64,
        log: log.len() as u64,
        schedules: schedules.len() as u64,
    };
    match open_ruling(frame, o, groups) {
        Err(cause) => refuse(frame, cause),
        Ok(()) => {
            clear(book);
            clear(schedules);
            accept(open_desk(o, groups))
        }
    }
}

pub fn open(
    d: Desk,
    quarters: u64,
    first: Day,
    clearing: Day,
    correction: Day,
    groups: [u64; DELTAS as usize],
    values: &[u64],
    book: &mut [u64],
    log: &[u64],
    schedules: &mut [u64],
) -> Outcome
    ensures { WholeStepped d (opens quarters first.0 clearing.0 correction.0 groups) (stores_of values.now book.old log.now schedules.old) result.answer result.desk (stores_of values.now book.new log.now schedules.new) }
{
    let r = decide_open(
        d.frame, quarters, first, clearing, correction, groups, values, book, log, schedules,
    );
    outcome(d, r)
}
