// Open, on the desk that is lent.
ghost use Rattle.checks.specs.Stepped.{stores_of};
ghost use Rattle.entry.specs.Entered.{by_open, Meets};

use calls::open::open as by_value;
use model::Answer;
use quantity::Day;
use quantity::limits::DELTAS;
use state::Desk;

// The 17 delta groups: T's, then those of the areas 1 to 16.
pub fn open(
    d: &mut Desk,
    quarters: u64,
    first: Day,
    clearing: Day,
    correction: Day,
    groups: [u64; DELTAS as usize],
    values: &[u64],
    book: &mut [u64],
    log: &[u64],
    schedules: &mut [u64],
) -> Answer
    ensures { Meets d.old (by_open quarters first clearing correction groups (stores_of values.now book.old log.now schedules.old) result d.new book.new schedules.new) }
{
    let out = by_value(
        *d, quarters, first, clearing, correction, groups, values, book, log, schedules,
    );
    *d = out.desk;
    out.answer
}
