// Both sums over the month, from a book and schedules as bytes: eight to a number, lowest first, two's complement.
ghost use Rattle.std.specs.Prelude.{◌≡◌, length};
ghost use Rattle.book.specs.Refusal.{refusal_of};
ghost use Rattle.deviation.specs.Answer.{surplus_of, shortfall_of};
ghost use Rattle.deviation.specs.Bytes.{report_ok, report_refusal, surplus_in, shortfall_in};

use crate::Deviation;
use crate::month::sums_of;
use book::figure::{BOOK_BYTES, FIGURE_BYTES, word_at};
use book::place::row_start;
use book::refusal::BookRefusal;
use quantity::limits;

// The bytes of the schedules for each quarter hour: 512.
const SCHEDULE_BYTES: u64 = FIGURE_BYTES * limits::GROUPS;

fn in_range(quarters: u64, run: u64, group: u64) -> bool
    ensures { result ≡ report_ok quarters run group }
{
    limits::quarters_ok(quarters) && limits::run_ok(run) && limits::group_ok(group)
}

// Whether a book and schedules have such a report.
#[tactic(auto, unfolding(crate::specs::Bytes::report_refusal))]
pub fn check(
    book: &[u8],
    schedules: &[u8],
    quarters: u64,
    run: u64,
    group: u64,
) -> Result<(), BookRefusal>
    ensures { refusal_of result ≡ report_refusal (length book.now) (length schedules.now) quarters run group }
{
    if !in_range(quarters, run, group) {
        return Err(BookRefusal::OutOfRange);
    }
    if book.len() as u64 != BOOK_BYTES * quarters
        || schedules.len() as u64 != SCHEDULE_BYTES * quarters
    {
        return Err(BookRefusal::WrongLength);
    }
    Ok(())
}

// Both sums of a run and group.
#[tactic(auto, using(crate::proofs::Reports::found))]
pub fn try_report(
    book: &[u8],
    schedules: &[u8],
    quarters: u64,
    run: u64,
    group: u64,
) -> Result<Deviation, BookRefusal>
    ensures refusal { refusal_of result ≡ report_refusal (length book.now) (length schedules.now) quarters run group }
    ensures surplus { surplus_of result ≡ surplus_in book.now schedules.now quarters run group }
    ensures shortfall { shortfall_of result ≡ shortfall_in book.now schedules.now quarters run group }
{
    check(book, schedules, quarters, run, group)?;
    let n = quarters as usize;
    let row = (group - 1) as usize;
    let planned = row * n;
    let booked = row_start(run as usize, row, n);
    let size = FIGURE_BYTES as usize;
    Ok(sums_of(
        n,
        |k| word_at(schedules, size * (planned + k)),
        |k| word_at(book, size * (booked + k)),
    ))
}

// The same, with 0 for both where it is refused.
pub fn report(book: &[u8], schedules: &[u8], quarters: u64, run: u64, group: u64) -> Deviation
    ensures { (result.surplus.0 ≡ surplus_in book.now schedules.now quarters run group) × (result.shortfall.0 ≡ shortfall_in book.now schedules.now quarters run group) }
{
    try_report(book, schedules, quarters, run, group).unwrap_or(Deviation::NONE)
}
