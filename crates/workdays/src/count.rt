// Working days counted by the rule.
ghost use Rattle.std.specs.Prelude.{◌≡◌, ◌≤◌};
ghost use Rattle.workdays.specs.Date.{IsMonth, length_of};
ghost use Rattle.workdays.specs.Count.{worked};

use crate::Month;
use crate::judged::JudgedMonth;

// The working days among the first days of a month.
pub fn worked_in(m: Month, days: u64) -> u64
    requires { IsMonth m × (days ≤ length_of m) }
    ensures { (result ≡ worked m days) × (result ≤ 31) }
{
    let judged = JudgedMonth::of(m);
    (1..=days).filter(|day| judged.works_on(*day)).count() as u64
}
