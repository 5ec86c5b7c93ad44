// A delta moves from one group to another, in both runs or in run 2 only: its row as it stands in the book is copied first, since one book cannot be lent twice.
ghost use Rattle.std.specs.Prelude.{true, ◌≡◌, ◌≤◌};
ghost use Rattle.quantity.specs.Limits.{areas, groups as group_count};
ghost use Rattle.state.specs.Valid.{deltas_ok};
ghost use Rattle.model.specs.Step.{move_run, moved};
ghost use Rattle.amend.specs.Lent.{BookIn};

use crate::sides::group_row;
use book::Way;
use book::place::row_start;
use book::posting::post;
use quantity::limits::{GROUPS, QUARTERS};
use state::DeltaGroups;

// One run: out of the old group's row, into the new one's.
fn move_run(run: usize, area: u64, old: u64, new: u64, q: usize, book: &mut [u64])
    requires book_in { BookIn run q book.old }
    requires area_le_areas { (area ≤ areas) × (old ≤ group_count) × (new ≤ group_count) }
    ensures { book.new ≡ move_run run q area old new book.old }
{
    let mut row = [0u64; QUARTERS as usize];
    let from = row_start(run, (GROUPS + area) as usize, q);
    let out = row_start(run, group_row(old) as usize, q);
    let to = row_start(run, group_row(new) as usize, q);
    row[..q].copy_from_slice(&book[from..from + q]);
    post(Way::Out, book, out, q, &row, 0);
    post(Way::In, book, to, q, &row, 0);
}

// Both runs or run 2 only, each out of its own old group.
#[tactic(auto, unfolding(model::specs::Step::moved))]
pub fn move_delta(both: bool, area: u64, new: u64, groups: DeltaGroups, q: usize, book: &mut [u64])
    requires book_in { BookIn 1 q book.old }
    requires area_le_areas { (area ≤ areas) × (new ≤ group_count) × (deltas_ok groups ≡ true) }
    ensures { book.new ≡ moved both q area new groups book.old }
{
    if both {
        move_run(1, area, groups.first[area as usize], new, q, book);
    }
    move_run(2, area, groups.second[area as usize], new, q, book);
}
