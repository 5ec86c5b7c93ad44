// Days and dates of a settled month, by the calendar.
ghost use Rattle.std.specs.Prelude.{◌≡◌};
ghost use Rattle.workdays.specs.Date.{month_named, date_named};
ghost use Rattle.calendar.specs.Answer.{day_for, day_refusal, day_number, date_refusal, date_digits, OfFirst, weekday_for};

use calendar::numbers;
use quantity::Day;

// 0, or 36 where the date y-m-d has no number.
#[unsafe(no_mangle)]
pub extern "C" fn emorizugu_day_refusal(year: u64, month: u64, y: u64, m: u64, d: u64) -> u64
    ensures { result ≡ day_refusal (day_for (month_named year month) (date_named y m d)) }
{
    numbers::day_refusal(year, month, y, m, d)
}

// The number; 0 where it is refused.
#[unsafe(no_mangle)]
pub extern "C" fn emorizugu_day(year: u64, month: u64, y: u64, m: u64, d: u64) -> u64
    ensures { result ≡ day_number (day_for (month_named year month) (date_named y m d)) }
{
    numbers::day_number(year, month, y, m, d).0
}

// 0, or 36 where no date has the number.
#[unsafe(no_mangle)]
pub extern "C" fn emorizugu_date_refusal(year: u64, month: u64, day: u64) -> u64
    ensures { OfFirst date_refusal (month_named year month) day result }
{
    numbers::date_refusal(year, month, Day(day))
}

// The first date with the number, as 20261112; 0 where it is refused.
#[unsafe(no_mangle)]
pub extern "C" fn emorizugu_date(year: u64, month: u64, day: u64) -> u64
    ensures { OfFirst date_digits (month_named year month) day result }
{
    numbers::date_digits(year, month, Day(day))
}

// Monday is 1, Sunday 7; 0 of what is no date.
#[unsafe(no_mangle)]
pub extern "C" fn emorizugu_weekday(year: u64, month: u64, day: u64) -> u64
    ensures { result ≡ weekday_for (date_named year month day) }
{
    numbers::weekday_for(year, month, day)
}
