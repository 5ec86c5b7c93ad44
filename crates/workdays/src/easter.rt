// Easter by the Gregorian rule.
ghost use Rattle.std.specs.Prelude.{◌≡◌, ◌+◌, ◌-◌, ◌<◌};
ghost use Rattle.quantity.specs.Meaning.{Between};
ghost use Rattle.workdays.specs.Rule.{exceptions, full_moon, easter_day};

use crate::dates;

fn excepted(cycle: u64, days: u64) -> u64
    ensures { result ≡ exceptions cycle days }
{
    match days {
        29 => 28,
        28 if 10 < cycle => 27,
        _ => days,
    }
}

// Days from 21 March to the full moon.
fn full_moon(year: u64) -> u64
    ensures { (result ≡ full_moon year) × (result < 29) }
{
    let cycle = year % 19;
    excepted(cycle, (19 * cycle + 24) % 30)
}

// Easter Sunday's place in its year.
#[tactic(auto, unfolding(crate::specs::Rule::easter_day))]
pub fn easter_of(year: u64) -> u64
    requires { Between 2020 2059 year }
    ensures { (result ≡ easter_day year) × (result < 120) }
{
    let moon = 80 + dates::leap_day(year) + full_moon(year);
    moon + (7 - dates::weekday_of(year, moon) % 7)
}
