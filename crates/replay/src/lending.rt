// A call on the desk, lent the parts of book and schedules that are its own.
ghost use Rattle.std.specs.Prelude.{◌≡◌, map, ◌≤◌};
ghost use Rattle.quantity.specs.Word.{signed};
ghost use Rattle.state.specs.Desk.{is_open};
ghost use Rattle.state.specs.Effect.{changed_by, Fits};
ghost use Rattle.state.specs.Valid.{valid_desk};
ghost use Rattle.model.specs.Causes.{terms};
ghost use Rattle.checks.specs.Stepped.{stores_of};
ghost use Rattle.checks.specs.Survey.{record_at};
ghost use Rattle.dispatch.specs.Asked.{asked};
ghost use Rattle.replay.specs.Feeding.{lent_of};
ghost use Rattle.replay.specs.Run.{running_of, Handed};

use checks::Decided;
use checks::looks::glance;
use dispatch::asks::{asks_of, quarters_of};
use dispatch::decisions::decide;
use message::DeskCall;
use quantity::limits::{BOOK_ROWS, DELTAS, SCHEDULE_ROWS};
use state::{Desk, PointRecord};

// The first rows × q numbers of a store; all of them where there are not so many.
pub fn lent_of(rows: usize, store: usize, q: u64) -> usize
    requires { 1 ≤ rows }
    ensures { result ≡ lent_of rows store q }
{
    let most = store / rows;
    if q <= most as u64 {
        return rows * q as usize;
    }
    store
}

// A look at the desk that is held, with the record of the point that the call names, then its decision: it is lent the first numbers of book and
// schedules, and the other stores whole.
pub fn lend_call(
    d: Desk,
    p: PointRecord,
    call: DeskCall,
    groups: [u64; DELTAS as usize],
    series: &[u64],
    values: &mut [u64],
    book: &mut [u64],
    log: &mut [u64],
    schedules: &mut [u64],
) -> Decided
    requires d_value { valid_desk d ≡ is_open d.frame.opening }
    requires p_value { p ≡ record_at d.points (terms (asked call groups (map signed series.now))).asks.point.0 }
    ensures { Fits d result.effect × Handed (running_of d (stores_of values.old book.old log.old schedules.old)) (asked call groups (map signed series.now)) result.answer (running_of (changed_by d result.effect) (stores_of values.new book.new log.new schedules.new)) }
{
    let l = glance(d, p, asks_of(call));
    let q = quarters_of(call, d.frame.opening.quarters);
    let n = lent_of(BOOK_ROWS as usize, book.len(), q);
    let m = lent_of(SCHEDULE_ROWS as usize, schedules.len(), q);
    decide(
        d.frame,
        l,
        call,
        groups,
        series,
        values,
        &mut book[0..n],
        log,
        &mut schedules[0..m],
    )
}
