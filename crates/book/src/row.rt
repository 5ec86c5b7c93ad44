// The row adder: it sees one row of the book and a series of the same length, and nothing else.
ghost use Rattle.std.specs.Prelude.{◌≡◌, length};
ghost use Rattle.book.specs.Row.{zip, changed, back};

use crate::Way;
use quantity::{WattHours, word};

#[tactic(auto, unfolding(crate::specs::Row::changed))]
pub fn change(way: Way, figure: WattHours, energy: WattHours) -> WattHours
    ensures { result.0 ≡ changed way figure.0 energy.0 }
{
    match way {
        Way::In => word::sum(figure, energy),
        Way::Out => word::difference(figure, energy),
    }
}

// The series into the row, or out of it.
pub fn change_row(way: Way, row: &mut [u64], series: &[u64])
    requires { length series.now ≡ length row.old }
    ensures { row.new ≡ zip (changed way) row.old series.now }
{
    for (i, figure) in row.iter_mut().enumerate() {
        *figure = change(way, WattHours(*figure), WattHours(series[i])).0;
    }
}

// The old series taken back and the new one put in (or, the other way, taken out), in one pass.
pub fn replace_row(way: Way, row: &mut [u64], old: &[u64], new: &[u64])
    requires { (length old.now ≡ length row.old) × (length new.now ≡ length row.old) }
    ensures { row.new ≡ zip (changed way) (zip (changed (back way)) row.old old.now) new.now }
{
    let undo = way.opposite();
    for (i, figure) in row.iter_mut().enumerate() {
        let without = change(undo, WattHours(*figure), WattHours(old[i]));
        *figure = change(way, without, WattHours(new[i])).0;
    }
}
