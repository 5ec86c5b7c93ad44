// A whole message file through a fresh desk: each call is read and handed on, its answer kept.
#![tactic(auto)]

pub mod lending;
pub mod run;

ghost use Rattle.checks.specs.Stepped.{stores_of};
ghost use Rattle.replay.specs.Replay.{Replays};

use crate::run::run_file;
use message::FileCause;
use state::Desk;

// How a replay ends.
#[derive(Clone, Copy)]
pub enum Ending {
    // The file ends; every call of it is answered.
    End,
    // A refusal of the reader, and the offset of the refused call.
    Refused { cause: FileCause, offset: usize },
    // The answers are full, and bytes of the file are left.
    Full,
}

// How many calls are answered, how the file ended, and the desk then.
#[derive(Clone, Copy)]
pub struct Replayed {
    pub answered: usize,
    pub ending: Ending,
    pub desk: Desk,
}

// A file on a fresh desk, whatever the stores hold. Of the book the first 162 × Q figures are lent and
// of the schedules the first 64 × Q numbers, by the opening's Q.
pub fn replay(
    file: &[u8],
    values: &mut [u64],
    book: &mut [u64],
    log: &mut [u64],
    schedules: &mut [u64],
    series: &mut [u64],
    answers: &mut [u64],
) -> Replayed
    ensures { Replays file.now (stores_of values.old book.old log.old schedules.old) series.old answers.old result (stores_of values.new book.new log.new schedules.new) series.new answers.new }
{
    run_file(file, values, book, log, schedules, series, answers)
}
