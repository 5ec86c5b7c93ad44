// The answers as numbers, for a host: one gives the refusal, another the number or the date, 0 where it is refused. The settled month comes by year and month, a date by y, m and d.
ghost use Rattle.std.specs.Prelude.{◌≡◌};
ghost use Rattle.workdays.specs.Date.{month_named, date_named};
ghost use Rattle.calendar.specs.Answer.{day_for, refusal_of, day_refusal, day_number, date_refusal, date_digits, OfFirst, weekday_for};

use crate::{NO_DATE, answers};
use quantity::Day;
use workdays::{Date, Month, dates};

// 0, or the refusal where there is no answer.
fn refusal_of<T: Copy>(answer: Option<T>) -> u64
    ensures { result ≡ refusal_of answer }
{
    match answer {
        Some(_) => 0,
        None => NO_DATE,
    }
}

pub fn day_refusal(year: u64, month: u64, y: u64, m: u64, d: u64) -> u64
    ensures { result ≡ day_refusal (day_for (month_named year month) (date_named y m d)) }
{
    let date = Date {
        year: y,
        month: m,
        day: d,
    };
    refusal_of(answers::day_for(Month { year, month }, date))
}

pub fn day_number(year: u64, month: u64, y: u64, m: u64, d: u64) -> Day
    ensures { result.0 ≡ day_number (day_for (month_named year month) (date_named y m d)) }
{
    let date = Date {
        year: y,
        month: m,
        day: d,
    };
    answers::day_for(Month { year, month }, date).unwrap_or(Day(0))
}

pub fn date_refusal(year: u64, month: u64, number: Day) -> u64
    ensures { OfFirst date_refusal (month_named year month) number.0 result }
{
    refusal_of(answers::date_for(Month { year, month }, number))
}

// Year, month and day as one number: 20261112.
pub fn date_digits(year: u64, month: u64, number: Day) -> u64
    ensures { OfFirst date_digits (month_named year month) number.0 result }
{
    match answers::date_for(Month { year, month }, number) {
        Some(date) => date.year * 10000 + date.month * 100 + date.day,
        None => 0,
    }
}

// Monday is 1, Sunday 7; 0 of what is no date.
pub fn weekday_for(year: u64, month: u64, day: u64) -> u64
    ensures { result ≡ weekday_for (date_named year month day) }
{
    let date = Date { year, month, day };
    if !date.exists() {
        return 0;
    }
    dates::weekday_of(year, dates::days_of(year, month - 1) + day)
}
