// A month with what its days are judged by, worked out once for all of them.
ghost use Rattle.std.specs.Prelude.{◌≡◌, ◌-◌, ◌≤◌, ◌<◌};
ghost use Rattle.workdays.specs.Date.{IsMonth, days_of, day_in};
ghost use Rattle.workdays.specs.Rule.{easter_day, working};

use crate::{Month, dates, easter, rule};

#[derive(Clone, Copy)]
pub struct JudgedMonth {
    pub month: Month,
    // The days of its year in front of it.
    pub start: u64,
    // Easter's place in its year.
    pub easter: u64,
    ghost exists: { IsMonth month },
    ghost in_front: { start ≡ days_of month.year (month.month - 1) },
    ghost start_below: { start ≤ 341 },
    ghost easter_sunday: { easter ≡ easter_day month.year },
    ghost easter_below: { easter < 120 },
}

impl JudgedMonth {
    pub fn of(month: Month) -> JudgedMonth
        requires { IsMonth month }
        ensures { result.month ≡ month }
    {
        JudgedMonth {
            month,
            start: dates::days_of(month.year, month.month - 1),
            easter: easter::easter_of(month.year),
        }
    }

    // Whether one of its days is a working day.
    pub fn works_on(&self, day: u64) -> bool
        requires { day ≤ 31 }
        ensures { result ≡ working (day_in self.now.month day) }
    {
        !rule::is_off(
            self.month.year,
            self.easter,
            self.month.month * 100 + day,
            self.start + day,
        )
    }
}
