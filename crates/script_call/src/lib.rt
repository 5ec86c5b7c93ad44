// For tests and benchmarks only: a call of a script, run on the desk.
#![tactic(auto)]

pub mod call;
pub mod record;
mod via;

use amend::copies;

// The numbers that a script gives, put into a lent buffer.
#[derive(Drop)]
pub struct Output<'a> {
    pub numbers: &'a mut [u64],
    pub filled: usize,
}

impl Output<'_> {
    // A number, where there is room for it.
    fn put(&mut self, number: u64) {
        if self.filled < self.numbers.len() {
            self.numbers[self.filled] = number;
            self.filled += 1;
        }
    }

    // A row, where there is room for all of it.
    fn put_row(&mut self, row: &[u64]) {
        if self.filled <= self.numbers.len() && row.len() <= self.numbers.len() - self.filled {
            copies::put_row(self.numbers, self.filled, row);
            self.filled += row.len();
        }
    }
}
