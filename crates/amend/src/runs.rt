// Both runs of the book after a change of a point's selections.
ghost use Rattle.std.specs.Prelude.{true, ◌≡◌};
ghost use Rattle.quantity.specs.Limits.{group_ok};
ghost use Rattle.quantity.specs.Lists.{all};
ghost use Rattle.state.specs.Valid.{state_ok, deltas_ok};
ghost use Rattle.model.specs.Series.{sides_of};
ghost use Rattle.model.specs.Step.{amend_run, amend_by};
ghost use Rattle.amend.specs.Lent.{SeriesIn, BookIn, TurnIn};

use crate::rows::{amend_sides, differs};
use crate::sides::sides_of;
use model::Turn;
use quantity::limits::DELTAS;
use state::selections::or_else;
use state::{DeltaGroups, PointState, Selection};

// One run under its delta groups, where its selection changes.
#[tactic(auto, unfolding(model::specs::Step::amend_run))]
fn amend_run(
    run: usize,
    groups: [u64; DELTAS as usize],
    here: PointState,
    q: usize,
    old: Selection,
    new: Selection,
    values: &[u64],
    book: &mut [u64],
)
    requires book_in { BookIn run q book.old }
    requires groups_value { (all group_ok groups ≡ true) × (state_ok here ≡ true) }
    requires series_in { SeriesIn q values.now old × SeriesIn q values.now new }
    ensures { book.new ≡ amend_run run q (sides_of groups here) old new values.now book.old }
{
    if differs(old, new) {
        amend_sides(run, sides_of(groups, here), q, old, new, values, book);
    }
}

// Each run under its own delta groups. Run 2 follows run 1 where it has none of its own.
pub fn amend(
    groups: DeltaGroups,
    here: PointState,
    t: Turn,
    q: usize,
    values: &[u64],
    book: &mut [u64],
)
    requires book_in { BookIn 1 q book.old }
    requires groups_value { (deltas_ok groups ≡ true) × (state_ok here ≡ true) }
    requires turn_in { TurnIn q values.now t }
    ensures { book.new ≡ amend_by q groups here t values.now book.old }
{
    amend_run(1, groups.first, here, q, t.old1, t.new1, values, book);
    let old2 = or_else(t.old2, t.old1);
    let new2 = or_else(t.new2, t.new1);
    amend_run(2, groups.second, here, q, old2, new2, values, book);
}
