// Months and dates: which there are, how long they are, where they stand.
ghost use Rattle.std.specs.Prelude.{◌≡◌, ◌+◌, ◌-◌, ◌≤◌, ◌<◌};
ghost use Rattle.quantity.specs.Meaning.{Between};
ghost use Rattle.workdays.specs.Date.{months, year_ok, leap, leap_day, days_in, month_ok, IsMonth, length_of, month_of, date_ok, index_of, month_at, days_of, weekday};

use crate::{Date, Month};

pub const FIRST_YEAR: u64 = 2020;

pub const LAST_YEAR: u64 = 2059;

pub const MONTHS: usize = 480;

fn year_ok(year: u64) -> bool
    ensures { result ≡ year_ok year }
{
    (FIRST_YEAR..=LAST_YEAR).contains(&year)
}

// The Gregorian rule.
#[tactic(auto, unfolding(crate::specs::Date::leap))]
fn is_leap(year: u64) -> bool
    ensures { result ≡ leap year }
{
    year % 4 == 0 && (year % 100 != 0 || year % 400 == 0)
}

// 1 in a leap year.
pub fn leap_day(year: u64) -> u64
    ensures { (result ≡ leap_day year) × (result ≤ 1) }
{
    u64::from(is_leap(year))
}

#[tactic(auto, unfolding(crate::specs::Date::days_in))]
pub fn days_in(year: u64, month: u64) -> u64
    ensures { (result ≡ days_in year month) × (result ≤ 31) }
{
    match month {
        2 => 28 + leap_day(year),
        4 | 6 | 9 | 11 => 30,
        _ => 31,
    }
}

impl Month {
    // Whether there is such a month in those years.
    pub fn exists(self) -> bool
        ensures { result ≡ month_ok self }
    {
        year_ok(self.year) && (1..=12).contains(&self.month)
    }

    pub fn days(self) -> u64
        ensures { (result ≡ length_of self) × (result ≤ 31) }
    {
        days_in(self.year, self.month)
    }

    // Its place in the table.
    pub fn place(self) -> usize
        requires { IsMonth self }
        ensures { (result ≡ index_of self) × (result < months) }
    {
        ((self.year - FIRST_YEAR) * 12 + (self.month - 1)) as usize
    }

    // The month at a place of the table.
    pub fn at(place: usize) -> Month
        requires { place < months }
        ensures { (result ≡ month_at place) × IsMonth result }
    {
        Month {
            year: FIRST_YEAR + (place as u64) / 12,
            month: 1 + (place as u64) % 12,
        }
    }
}

impl From<Date> for Month {
    ghost from_gives = { λ d m. m ≡ month_of d };

    fn from(d: Date) -> Month {
        Month {
            year: d.year,
            month: d.month,
        }
    }
}

impl Date {
    // Whether there is such a date in those years.
    pub fn exists(self) -> bool
        ensures { result ≡ date_ok self }
    {
        let month = Month::from(self);
        month.exists() && (1..=month.days()).contains(&self.day)
    }
}

// The days of the first months of a year.
pub fn days_of(year: u64, months: u64) -> u64
    requires { months < 12 }
    ensures { (result ≡ days_of year months) × (result ≤ 341) }
{
    (1..=months).map(|month| days_in(year, month)).sum()
}

// Monday is 1, Sunday 7, by a year and a day's place in it.
#[tactic(auto, unfolding(crate::specs::Date::weekday))]
pub fn weekday_of(year: u64, place: u64) -> u64
    requires { (Between 2020 2059 year) × (place ≤ 400) }
    ensures { (result ≡ weekday year place) × (Between 1 7 result) }
{
    1 + (365 * (year - FIRST_YEAR) + (year - 2017) / 4 + place + 1) % 7
}
