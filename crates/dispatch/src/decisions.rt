// A call to its own decision.
ghost use Rattle.std.specs.Prelude.{map};
ghost use Rattle.quantity.specs.Word.{signed};
ghost use Rattle.state.specs.Effect.{changed_by, Fits};
ghost use Rattle.model.specs.Causes.{terms};
ghost use Rattle.checks.specs.Look.{Seen, OfEach};
ghost use Rattle.checks.specs.Stepped.{WholeStepped, stores_of};
ghost use Rattle.dispatch.specs.Asked.{asked};

use crate::asks::asks_of;
use calls::activate::decide_activate;
use calls::assign::decide_assign;
use calls::close::decide_close;
use calls::deactivate::decide_deactivate;
use calls::issue::decide_issue;
use calls::open::decide_open;
use checks::decisions::outcome;
use checks::looks::look;
use checks::{Decided, Look, Outcome};
use message::DeskCall;
use notice::call::decide_notice;
use quantity::limits::DELTAS;
use state::{Desk, Frame, Series};
use submit::call::decide_submit;

// By the desk's frame and one look at it. The groups are an opening's, the series a submission's energies, as many as it has.
pub fn decide(
    f: Frame,
    l: Look,
    call: DeskCall,
    groups: [u64; DELTAS as usize],
    series: &[u64],
    values: &mut [u64],
    book: &mut [u64],
    log: &mut [u64],
    schedules: &mut [u64],
) -> Decided
    requires { Seen f (terms (asked call groups (map signed series.now))).asks l }
    ensures { OfEach f (terms (asked call groups (map signed series.now))).asks l (λ d. Fits d result.effect × WholeStepped d (asked call groups (map signed series.now)) (stores_of values.old book.old log.old schedules.old) result.answer (changed_by d result.effect) (stores_of values.new book.new log.new schedules.new)) }
{
    match call {
        DeskCall::Open {
            quarters: q,
            first,
            clearing: c,
            correction: k,
        } => decide_open(f, q, first, c, k, groups, values, book, log, schedules),
        DeskCall::Activate {
            point,
            kind,
            area,
            partner,
            day,
        } => {
            let asked = Series {
                kind,
                area,
                partner,
            };
            decide_activate(f, l, point, asked, day)
        }
        DeskCall::Deactivate { point, day } => decide_deactivate(f, l, point, day),
        DeskCall::Submit {
            point,
            version,
            day,
        } => decide_submit(f, l, point, version, day, series, values, book, log),
        DeskCall::Notice {
            point,
            version,
            verdict,
            day,
        } => decide_notice(f, l, point, version, verdict, day, values, book, log),
        DeskCall::Assign { area, group, day } => decide_assign(f, l, area, group, day, book),
        DeskCall::Close { run, day } => decide_close(f, l, run, day),
        DeskCall::Issue { run, day } => decide_issue(f, l, run, day),
    }
}

// The state by value: a look at it, the decision, and the desk after it.
pub fn answer(
    d: Desk,
    call: DeskCall,
    groups: [u64; DELTAS as usize],
    series: &[u64],
    values: &mut [u64],
    book: &mut [u64],
    log: &mut [u64],
    schedules: &mut [u64],
) -> Outcome
    ensures { WholeStepped d (asked call groups (map signed series.now)) (stores_of values.old book.old log.old schedules.old) result.answer result.desk (stores_of values.new book.new log.new schedules.new) }
{
    let l = look(d, asks_of(call));
    let r = decide(
        d.frame, l, call, groups, series, values, book, log, schedules,
    );
    outcome(d, r)
}
