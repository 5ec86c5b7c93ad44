// The way back from the lent desk: the state by value to the entry and out of it again.
ghost use Rattle.std.specs.Prelude.{map};
ghost use Rattle.quantity.specs.Word.{signed};
ghost use Rattle.model.specs.Call.{lodges};
ghost use Rattle.checks.specs.Stepped.{WholeStepped, ScheduleStepped, stores_of};
ghost use Rattle.dispatch.specs.Asked.{asked};

use checks::Outcome;
use entry::apply::apply;
use entry::lodge::lodge;
use message::DeskCall;
use quantity::Day;
use quantity::limits::DELTAS;
use state::Desk;

pub fn via_apply(
    d: Desk,
    call: DeskCall,
    groups: [u64; DELTAS as usize],
    series: &[u64],
    values: &mut [u64],
    book: &mut [u64],
    log: &mut [u64],
    schedules: &mut [u64],
) -> Outcome
    ensures { WholeStepped d (asked call groups (map signed series.now)) (stores_of values.old book.old log.old schedules.old) result.answer result.desk (stores_of values.new book.new log.new schedules.new) }
{
    let mut e = d;
    let a = apply(&mut e, call, groups, series, values, book, log, schedules);
    Outcome { answer: a, desk: e }
}

pub fn via_lodge(d: Desk, group: u64, day: Day, series: &[u64], schedules: &mut [u64]) -> Outcome
    ensures { ScheduleStepped d (lodges group day.0 (map signed series.now)) schedules.old result.answer result.desk schedules.new }
{
    let mut e = d;
    let a = lodge(&mut e, group, day, series, schedules);
    Outcome { answer: a, desk: e }
}
