// The table, worked out by the rule alone: what the program calendar_table prints.
ghost use Rattle.workdays.specs.Count.{TableOf};

use crate::dates::MONTHS;
use crate::{Month, count};

pub fn generate() -> [u64; MONTHS]
    ensures { TableOf result }
{
    let mut entries = [0; MONTHS];
    let mut working = 0;
    for (i, entry) in entries.iter_mut().enumerate() {
        *entry = working;
        let month = Month::at(i);
        working += count::worked_in(month, month.days());
    }
    entries
}
