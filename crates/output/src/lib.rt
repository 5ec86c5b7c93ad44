// The desk program's whole output, worked out from the bytes of its input.
#![tactic(auto)]

mod figures;
mod print;
mod selections;

ghost use Rattle.std.specs.Prelude.{◌≤◌, length};
ghost use Rattle.text.specs.Text.{Put};
ghost use Rattle.output.specs.Fill.{most, Fills};
ghost use Rattle.output.specs.Parts.{Sized};
ghost use Rattle.output.specs.Output.{file_size, text_of};

use figures::{Month, SummedMonth};
use print::{put_answers, put_ending};
use quantity::limits::{BOOK_ROWS, QUARTERS, SCHEDULE_ROWS};
use text::Text;

// A buffer of so many bytes is enough for any input.
pub const MOST: usize = 330_781;

// The desk reads so many bytes of its input.
pub const FILE: usize = 65_536;

// The stores: 162 × Q book and 64 × Q schedules for Q up to 8, log rows of four numbers, and one answer more than so many bytes hold calls.
const VALUES: usize = 4096;

const BOOK: usize = BOOK_ROWS as usize * 8;

const LOG: usize = 4 * 512;

const SCHEDULES: usize = SCHEDULE_ROWS as usize * 8;

const SERIES: usize = QUARTERS as usize;

const ANSWERS: usize = 21_846;

// The output for a file, in lent stores of the desk program's sizes.
fn put_output(
    file: &[u8],
    out: &mut [u8],
    values: &mut [u64],
    book: &mut [u64],
    log: &mut [u64],
    schedules: &mut [u64],
    series: &mut [u64],
    answers: &mut [u64],
) -> usize
    requires { (length file.now ≤ file_size) × (most ≤ length out.old) × Sized values.old book.old log.old schedules.old series.old answers.old }
    ensures { Put most 0 (text_of file.now) out.old out.new result }
{
    let done = replay::replay(file, values, book, log, schedules, series, answers);
    let desk = &done.desk;
    let mut text = Text {
        buffer: out,
        filled: 0,
    };
    put_answers(&mut text, &answers[..done.answered]);
    put_ending(
        &mut text,
        done.ending,
        &SummedMonth {
            month: Month {
                book,
                quarters: desk.frame.opening.quarters as usize,
            },
        },
        desk.versions,
        desk.frame.count,
    );
    text.filled
}

// Fills a buffer with the output for an input, and answers the output's length; none where the buffer has fewer than MOST bytes, and it is as it was.
pub fn fill(input: &[u8], out: &mut [u8]) -> Option<usize>
    ensures { Fills input.now out.old out.new result }
{
    if out.len() < MOST {
        return None;
    }
    let n = FILE.min(input.len());
    let mut values = [0u64; VALUES];
    let mut book = [0u64; BOOK];
    let mut log = [0u64; LOG];
    let mut schedules = [0u64; SCHEDULES];
    let mut series = [0u64; SERIES];
    let mut answers = [0u64; ANSWERS];
    Some(put_output(
        &input[..n],
        out,
        &mut values,
        &mut book,
        &mut log,
        &mut schedules,
        &mut series,
        &mut answers,
    ))
}
