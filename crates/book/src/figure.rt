// The figure in a book of bytes: eight to a figure, lowest first, two's complement.
ghost use Rattle.std.specs.Prelude.{◌≡◌, ◌+◌, ◌≤◌, length};
ghost use Rattle.book.specs.Bytes.{bytes_at, figure_ok, figure_refusal, figure_in};
ghost use Rattle.book.specs.Refusal.{refusal_of, figure_of};

use crate::place::row_start;
use crate::refusal::BookRefusal;
use quantity::{WattHours, limits};

pub const FIGURE_BYTES: u64 = 8;

// The bytes of a book for each quarter hour: 1,296.
pub const BOOK_BYTES: u64 = FIGURE_BYTES * limits::BOOK_ROWS;

// How many values a byte has.
pub const BYTE: u64 = 256;

// The energy of eight bytes, a word.
pub fn word_at(book: &[u8], at: usize) -> WattHours
    requires { at + 8 ≤ length book.now }
    ensures { result.0 ≡ bytes_at book.now at }
{
    let end = at + 8;
    let bytes: [u8; 8] = book[at..end].try_into().unwrap();
    WattHours(u64::from_le_bytes(bytes))
}

fn in_range(quarters: u64, run: u64, group: u64, quarter: u64) -> bool
    ensures { result ≡ figure_ok quarters run group quarter }
{
    limits::quarters_ok(quarters)
        && limits::run_ok(run)
        && limits::group_ok(group)
        && (1..=quarters).contains(&quarter)
}

// Whether a book has such a figure.
#[tactic(auto, unfolding(crate::specs::Bytes::figure_refusal))]
pub fn check(
    book: &[u8],
    quarters: u64,
    run: u64,
    group: u64,
    quarter: u64,
) -> Result<(), BookRefusal>
    ensures { refusal_of result ≡ figure_refusal (length book.now) quarters run group quarter }
{
    if !in_range(quarters, run, group, quarter) {
        return Err(BookRefusal::OutOfRange);
    }
    if book.len() as u64 != BOOK_BYTES * quarters {
        return Err(BookRefusal::WrongLength);
    }
    Ok(())
}

#[tactic(auto, using(crate::proofs::Figures::accepted))]
pub fn try_figure(
    book: &[u8],
    quarters: u64,
    run: u64,
    group: u64,
    quarter: u64,
) -> Result<WattHours, BookRefusal>
    ensures refusal { refusal_of result ≡ figure_refusal (length book.now) quarters run group quarter }
    ensures figure { figure_of result ≡ figure_in book.now quarters run group quarter }
{
    check(book, quarters, run, group, quarter)?;
    let start = row_start(run as usize, (group - 1) as usize, quarters as usize);
    let index = start + (quarter - 1) as usize;
    Ok(word_at(book, FIGURE_BYTES as usize * index))
}

// The same, with 0 where it is refused.
pub fn figure(book: &[u8], quarters: u64, run: u64, group: u64, quarter: u64) -> WattHours
    ensures { result.0 ≡ figure_in book.now quarters run group quarter }
{
    try_figure(book, quarters, run, group, quarter).unwrap_or(WattHours(0))
}
