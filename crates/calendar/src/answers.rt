// A date's day number for a settled month, by the table and the days of the date's own month; and the way back, by the table and the days of one month. `None` is refusal 36.
ghost use Rattle.std.specs.Prelude.{◌≡◌, ◌<◌};
ghost use Rattle.workdays.specs.Date.{months, IsMonth, IsDate};
ghost use Rattle.workdays.specs.Count.{before};
ghost use Rattle.calendar.specs.Answer.{day_for, FirstWith};
ghost use Rattle.calendar.specs.Walk.{MonthWith, DayWith};

use crate::table;
use quantity::Day;
use quantity::limits::LAST_DAY;
use workdays::dates::MONTHS;
use workdays::judged::JudgedMonth;
use workdays::{Date, Month, count};

// The number of a date that exists.
fn number_of(settled: Month, date: Date) -> Option<Day>
    requires { IsMonth settled × IsDate date }
    ensures { result ≡ day_for settled date }
{
    let month = Month::from(date);
    let from = settled.place();
    let to = month.place();
    if to < from {
        return None;
    }
    if to == from {
        return (date.day == settled.days()).then_some(Day(0));
    }
    let n = table::entry(to) + count::worked_in(month, date.day) - table::entry(from + 1);
    (n <= LAST_DAY).then_some(Day(n))
}

pub fn day_for(settled: Month, date: Date) -> Option<Day>
    ensures { result ≡ day_for settled date }
{
    if settled.exists() && date.exists() {
        number_of(settled, date)
    } else {
        None
    }
}

// The last month from a place on with fewer working days before it than a count.
fn month_with(start: usize, count: u64) -> usize
    requires { (start < months) × (before start < count) }
    ensures { MonthWith start count result }
{
    let behind = (start + 1..MONTHS).find(|i| count <= table::entry(*i));
    behind.unwrap_or(MONTHS) - 1
}

// The day of a month up to which it has so many working days.
fn day_with(month: Month, working: u64) -> Option<Date>
    requires { IsMonth month × (0 < working) }
    ensures { DayWith month working result }
{
    let judged = JudgedMonth::of(month);
    let mut count = 0;
    for day in 1..=month.days() {
        if judged.works_on(day) {
            count += 1;
            if count == working {
                return Some(Date {
                    year: month.year,
                    month: month.month,
                    day,
                });
            }
        }
    }
    None
}

pub fn date_for(settled: Month, number: Day) -> Option<Date>
    ensures { FirstWith settled number.0 result }
{
    if !settled.exists() {
        return None;
    }
    if LAST_DAY < number.0 {
        return None;
    }
    if number.0 == 0 {
        return Some(Date {
            year: settled.year,
            month: settled.month,
            day: settled.days(),
        });
    }
    let next = settled.place() + 1;
    if next == MONTHS {
        return None;
    }
    let count = table::entry(next) + number.0;
    let found = month_with(next, count);
    day_with(Month::at(found), count - table::entry(found))
}
