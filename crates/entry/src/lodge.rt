// Lodge, on the desk that is lent.
ghost use Rattle.entry.specs.Entered.{by_lodge, Meets};

use model::Answer;
use quantity::Day;
use schedules::lodge::lodge as by_value;
use state::Desk;

// The group's energies, one for each quarter hour, and the schedules of all groups.
pub fn lodge(d: &mut Desk, group: u64, day: Day, series: &[u64], schedules: &mut [u64]) -> Answer
    ensures { Meets d.old (by_lodge group day series.now schedules.old result d.new schedules.new) }
{
    let out = by_value(*d, group, day, series, schedules);
    *d = out.desk;
    out.answer
}
