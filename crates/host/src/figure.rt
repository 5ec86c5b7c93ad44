// A figure of a book of bytes.
ghost use Rattle.std.specs.Prelude.{◌≡◌, length};
ghost use Rattle.book.specs.Bytes.{figure_refusal, figure_in};

use book::figure::{check, figure};

// 3 for a number outside its range, else 2 for a length other than 1,296 × Q, else 0.
#[unsafe(no_mangle)]
pub extern "C" fn emorizugu_figure_refusal(
    book: &[u8],
    quarters: u64,
    run: u64,
    group: u64,
    quarter: u64,
) -> u64
    ensures { result ≡ figure_refusal (length book.now) quarters run group quarter }
{
    match check(book, quarters, run, group, quarter) {
        Ok(()) => 0,
        Err(refusal) => refusal.into(),
    }
}

// The figure as a 64-bit word, and 0 where it is refused.
#[unsafe(no_mangle)]
pub extern "C" fn emorizugu_figure(
    book: &[u8],
    quarters: u64,
    run: u64,
    group: u64,
    quarter: u64,
) -> u64
    ensures { result ≡ figure_in book.now quarters run group quarter }
{
    figure(book, quarters, run, group, quarter).0
}
