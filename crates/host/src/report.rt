// A group's surplus and shortfall over the month, from a book and schedules of bytes.
ghost use Rattle.std.specs.Prelude.{◌≡◌, length};
ghost use Rattle.deviation.specs.Bytes.{report_refusal, surplus_in, shortfall_in};

use deviation::bytes::{check, report};

// 3 for a number outside its range, else 2 for a book or schedules of another length than 1,296 × Q and 512 × Q, else 0.
#[unsafe(no_mangle)]
pub extern "C" fn emorizugu_report_refusal(
    book: &[u8],
    schedules: &[u8],
    quarters: u64,
    run: u64,
    group: u64,
) -> u64
    ensures { result ≡ report_refusal (length book.now) (length schedules.now) quarters run group }
{
    match check(book, schedules, quarters, run, group) {
        Ok(()) => 0,
        Err(refusal) => refusal.into(),
    }
}

// The surplus as a 64-bit word, and 0 where the report is refused.
#[unsafe(no_mangle)]
pub extern "C" fn emorizugu_surplus(
    book: &[u8],
    schedules: &[u8],
    quarters: u64,
    run: u64,
    group: u64,
) -> u64
    ensures { result ≡ surplus_in book.now schedules.now quarters run group }
{
    report(book, schedules, quarters, run, group).surplus.0
}

// The shortfall likewise.
#[unsafe(no_mangle)]
pub extern "C" fn emorizugu_shortfall(
    book: &[u8],
    schedules: &[u8],
    quarters: u64,
    run: u64,
    group: u64,
) -> u64
    ensures { result ≡ shortfall_in book.now schedules.now quarters run group }
{
    report(book, schedules, quarters, run, group).shortfall.0
}
