// The sum of a row of the book over the month. Rows 0 to 63 are groups 1 to 64, row 64 delta T, rows 65 to 80 areas 1 to 16.
ghost use Rattle.std.specs.Prelude.{◌≡◌, ◌≤◌};
ghost use Rattle.host.specs.Month.{sum_from, row_ok, month_of, difference_of};

use book::place::row_start;
use quantity::{WattHours, limits, word};
use writer::fields::field_at;

// The sum of q figures from `start` on.
fn sum_from(book: &[u64], start: usize, q: usize) -> WattHours
    requires { (start ≤ 1000000) × (q ≤ 1000000) }
    ensures { result.0 ≡ sum_from book.now start q }
{
    let mut sum = WattHours(0);
    for n in 0..q {
        sum = word::sum(sum, WattHours(field_at(book, start + n)));
    }
    sum
}

fn row_ok(quarters: u64, run: u64, row: u64) -> bool
    ensures { result ≡ row_ok quarters run row }
{
    limits::quarters_ok(quarters) & limits::run_ok(run) & (row < limits::RUN_ROWS)
}

fn month_of(book: &[u64], quarters: u64, run: u64, row: u64) -> WattHours
    ensures { result.0 ≡ month_of book.now quarters run row }
{
    if row_ok(quarters, run, row) {
        let start = row_start(run as usize, row as usize, quarters as usize);
        sum_from(book, start, quarters as usize)
    } else {
        WattHours(0)
    }
}

// The sum of a run's row, as a 64-bit word; 0 where there is no such row.
#[unsafe(no_mangle)]
pub extern "C" fn emorizugu_sum(book: &[u64], quarters: u64, run: u64, row: u64) -> u64
    ensures { result ≡ month_of book.now quarters run row }
{
    month_of(book, quarters, run, row).0
}

// Run 2's sum of a row less run 1's, as a 64-bit word.
#[unsafe(no_mangle)]
pub extern "C" fn emorizugu_difference(book: &[u64], quarters: u64, row: u64) -> u64
    ensures { result ≡ difference_of book.now quarters row }
{
    let second = month_of(book, quarters, 2, row);
    let first = month_of(book, quarters, 1, row);
    word::difference(second, first).0
}
