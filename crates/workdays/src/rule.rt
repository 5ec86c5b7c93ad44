// The rule: which days are working days.
ghost use Rattle.std.specs.Prelude.{◌≡◌, ◌+◌, ◌≤◌, ◌<◌};
ghost use Rattle.quantity.specs.Meaning.{Between};
ghost use Rattle.workdays.specs.Rule.{fixed_off, easter_off, wednesday_off, once_off, off, easter_day};

use crate::dates;

// Saturdays and Sundays.
const SATURDAY: u64 = 6;

const WEDNESDAY: u64 = 3;

// 24 and 31 December, and the holidays that have the same date every year. A day is written month, then day.
fn fixed_off(n: u64) -> bool
    ensures { result ≡ fixed_off n }
{
    matches!(
        n,
        101 | 106 | 308 | 501 | 815 | 920 | 1003 | 1031 | 1101 | 1224 | 1225 | 1226 | 1231
    )
}

// Good Friday, Easter Monday, and the three that follow Easter.
fn easter_off(easter: u64, place: u64) -> bool
    requires { (easter < 120) × (place ≤ 400) }
    ensures { result ≡ easter_off easter place }
{
    place + 2 == easter
        || place == easter + 1
        || place == easter + 39
        || place == easter + 50
        || place == easter + 60
}

// The last Wednesday before 23 November.
fn wednesday_off(weekday: u64, n: u64) -> bool
    ensures { result ≡ wednesday_off weekday n }
{
    weekday == WEDNESDAY && matches!(n, 1116..=1122)
}

// 8 May, in 2020 and 2025.
fn once_off(year: u64, n: u64) -> bool
    ensures { result ≡ once_off year n }
{
    n == 508 && (year == 2020 || year == 2025)
}

// By the year and its Easter, month and day, and the place in the year.
#[tactic(auto, unfolding(crate::specs::Rule::off))]
pub fn is_off(year: u64, easter: u64, n: u64, place: u64) -> bool
    requires { ((Between 2020 2059 year) × (place ≤ 400)) × ((easter ≡ easter_day year) × (easter < 120)) }
    ensures { result ≡ off year n place }
{
    let weekday = dates::weekday_of(year, place);
    SATURDAY <= weekday
        || fixed_off(n)
        || easter_off(easter, place)
        || wednesday_off(weekday, n)
        || once_off(year, n)
}
