// Every call that a message file carries, on the desk that is lent.
ghost use Rattle.checks.specs.Stepped.{stores_of};
ghost use Rattle.entry.specs.Entered.{by_apply, Meets};

use dispatch::decisions::answer as by_value;
use message::DeskCall;
use model::Answer;
use quantity::limits::DELTAS;
use state::Desk;

// The groups are an opening's, the series a submission's energies, as many as it has; of another call any. A store that the call does not
// take may have any length and stays as it is.
pub fn apply(
    d: &mut Desk,
    call: DeskCall,
    groups: [u64; DELTAS as usize],
    series: &[u64],
    values: &mut [u64],
    book: &mut [u64],
    log: &mut [u64],
    schedules: &mut [u64],
) -> Answer
    ensures { Meets d.old (by_apply call groups series.now (stores_of values.old book.old log.old schedules.old) result d.new (stores_of values.new book.new log.new schedules.new)) }
{
    let out = by_value(*d, call, groups, series, values, book, log, schedules);
    *d = out.desk;
    out.answer
}
