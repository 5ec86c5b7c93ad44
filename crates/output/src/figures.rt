// The figures that the program prints, out of the book.
ghost use Rattle.std.specs.Prelude.{◌≡◌, ◌≤◌};
ghost use Rattle.output.specs.Figures.{IsPlace, Summed, word_of, total_of};
ghost use Rattle.output.specs.Output.{program_quarters};

use book::place::row_start;
use quantity::{WattHours, limits, word};

pub const GROUPS: usize = limits::GROUPS as usize;

// The book of a month of so many quarter hours.
#[derive(Clone, Copy)]
pub struct Month<'a> {
    pub book: &'a [u64],
    pub quarters: usize,
}

// A month of no more quarter hours than the program takes, in none of which the groups' sum wraps.
#[derive(Clone, Copy)]
pub struct SummedMonth<'a> {
    pub month: Month<'a>,
    ghost few: { month.quarters ≤ program_quarters },
    ghost summed: { Summed month.book.now month.quarters },
}

impl Month<'_> {
    pub fn figure(&self, run: usize, group: usize, quarter: usize) -> WattHours
        requires { IsPlace self.now.quarters run quarter × (1 ≤ group) × (group ≤ 64) }
        ensures { result.0 ≡ word_of self.now.book.now self.now.quarters run quarter group }
    {
        let i = row_start(run, group - 1, self.quarters) + (quarter - 1);
        WattHours(self.book.get(i).copied().unwrap_or(0))
    }

    // The sum of the groups' figures.
    pub fn total(&self, run: usize, quarter: usize) -> WattHours
        requires { IsPlace self.now.quarters run quarter }
        ensures { result.0 ≡ total_of self.now.book.now self.now.quarters run quarter 64 }
    {
        let mut sum = WattHours(0);
        for group in 1..=GROUPS {
            sum = word::sum(sum, self.figure(run, group, quarter));
        }
        sum
    }
}
