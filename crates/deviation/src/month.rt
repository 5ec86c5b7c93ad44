// Both sums over the month, from schedules and a book that are lent as words.
ghost use Rattle.std.specs.Prelude.{◌≡◌, ℕ, ◌<◌, length};
ghost use Rattle.deviation.specs.Deviation.{over, over_sum};
ghost use Rattle.deviation.specs.Gives.{Gives};
ghost use Rattle.deviation.specs.Place.{word_from};
ghost use Rattle.deviation.specs.Month.{month_surplus, month_shortfall, Reported};
ghost use Rattle.quantity.specs.Word.{plus};

use crate::Deviation;
use book::place::row_start;
use quantity::{WattHours, word};

// The larger of 0 and a less b.
#[tactic(auto, unfolding(crate::specs::Deviation::over))]
fn over(a: WattHours, b: WattHours) -> WattHours
    ensures { result.0 ≡ over a.0 b.0 }
{
    let difference = word::difference(a, b);
    if word::is_negative(difference) {
        WattHours(0)
    } else {
        difference
    }
}

impl Deviation {
    pub const NONE: Deviation = Deviation {
        surplus: WattHours(0),
        shortfall: WattHours(0),
    };

    // Both sums with one quarter hour more.
    pub fn with_quarter(self, schedule: WattHours, figure: WattHours) -> Deviation
        ensures { (result.surplus.0 ≡ plus self.surplus.0 (over schedule.0 figure.0)) × (result.shortfall.0 ≡ plus self.shortfall.0 (over figure.0 schedule.0)) }
    {
        let more = over(schedule, figure);
        let less = over(figure, schedule);
        let surplus = word::sum(self.surplus, more);
        let shortfall = word::sum(self.shortfall, less);
        Deviation { surplus, shortfall }
    }
}

// Both sums of n quarter hours, with what is planned and what is taken in each.
pub fn sums_of<P: Fn(usize) -> WattHours, T: Fn(usize) -> WattHours>(
    n: usize,
    planned: P,
    taken: T,
) -> Deviation
    requires planned { (k : ℕ) → k < n → P.pre planned k }
    requires taken { (k : ℕ) → k < n → T.pre taken k }
    ensures { (s f : ℕ → ℕ) → Gives (P.post planned) s n → Gives (T.post taken) f n → (result.surplus.0 ≡ over_sum s f n) × (result.shortfall.0 ≡ over_sum f s n) }
{
    let mut sums = Deviation::NONE;
    for k in 0..n {
        sums = sums.with_quarter(planned(k), taken(k));
    }
    sums
}

// Both sums of a group's schedule and its figures.
pub fn deviation_of(schedule: &[u64], figures: &[u64]) -> Deviation
    requires { length figures.now ≡ length schedule.now }
    ensures { (result.surplus.0 ≡ over_sum (word_from schedule.now 0) (word_from figures.now 0) (length schedule.now)) × (result.shortfall.0 ≡ over_sum (word_from figures.now 0) (word_from schedule.now 0) (length schedule.now)) }
{
    sums_of(
        schedule.len(),
        |k| WattHours(schedule[k]),
        |k| WattHours(figures[k]),
    )
}

// Both sums of a run and group, its two rows lent on.
#[tactic(auto, using(crate::proofs::Reports::ends))]
pub fn month_deviation(
    schedules: &[u64],
    book: &[u64],
    quarters: usize,
    run: usize,
    group: usize,
) -> Deviation
    requires { Reported (length schedules.now) (length book.now) quarters run group }
    ensures { (result.surplus.0 ≡ month_surplus schedules.now book.now quarters run group) × (result.shortfall.0 ≡ month_shortfall schedules.now book.now quarters run group) }
{
    let planned = (group - 1) * quarters;
    let booked = row_start(run, group - 1, quarters);
    deviation_of(
        &schedules[planned..planned + quarters],
        &book[booked..booked + quarters],
    )
}
