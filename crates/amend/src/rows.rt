// The rows of the book that a change of a selection touches: each is lent on to be written, the others stay.
ghost use Rattle.std.specs.Prelude.{◌≡◌, ◌+◌, ◌*◌, ◌^◌, ◌<◌, ◌≤◌, length};
ghost use Rattle.quantity.specs.Limits.{run_rows};
ghost use Rattle.book.specs.declared.Way.TheVariants.{In, Out};
ghost use Rattle.model.specs.Log.{differ};
ghost use Rattle.model.specs.Step.{post_from, amend_row, amend_side, amend_sides};
ghost use Rattle.amend.specs.Lent.{SeriesIn, BookIn, SideIn, SidesIn};

use book::Way;
use book::place::row_start;
use book::posting::{post, repost};
use model::{Side, Sides};
use state::{Selection, VersionRow};

// Where a version's series begins in the values: row i at i × Q.
fn place(r: VersionRow, q: usize) -> usize
    requires { r.row.0 * q < 2 ^ 64 }
    ensures { result ≡ r.row.0 * q }
{
    r.row.0 as usize * q
}

// A selected version's series posted to the row at a start; where there is none, the row stays.
#[tactic(auto, unfolding(model::specs::Step::post_from))]
fn post_from(way: Way, book: &mut [u64], start: usize, q: usize, values: &[u64], s: Selection)
    requires q_in_bounds { start + q ≤ length book.old }
    requires series_in { SeriesIn q values.now s }
    ensures { book.new ≡ post_from way book.old start q values.now s }
{
    let Selection::Selected(r) = s else {
        return;
    };
    post(way, book, start, q, values, place(r, q));
}

// Row k of a run: the old series is taken back, and the new one posted; in one pass where there are both.
#[tactic(auto, unfolding(model::specs::Step::post_from, model::specs::Step::amend_row))]
fn amend_row(
    way: Way,
    run: usize,
    k: u64,
    q: usize,
    old: Selection,
    new: Selection,
    values: &[u64],
    book: &mut [u64],
)
    requires book_in { BookIn run q book.old × (k < run_rows) }
    requires series_in { SeriesIn q values.now old × SeriesIn q values.now new }
    ensures { book.new ≡ amend_row way run q k old new values.now book.old }
{
    let start = row_start(run, k as usize, q);
    let Selection::Selected(from) = old else {
        post_from(way, book, start, q, values, new);
        return;
    };
    let Selection::Selected(to) = new else {
        post(way.opposite(), book, start, q, values, place(from, q));
        return;
    };
    repost(way, book, start, q, values, place(from, q), place(to, q));
}

// Each row of a side.
#[tactic(auto, unfolding(model::specs::Step::amend_side))]
fn amend_side(
    way: Way,
    run: usize,
    side: Side,
    q: usize,
    old: Selection,
    new: Selection,
    values: &[u64],
    book: &mut [u64],
)
    requires book_in { BookIn run q book.old × SideIn side }
    requires series_in { SeriesIn q values.now old × SeriesIn q values.now new }
    ensures { book.new ≡ amend_side way run q side old new values.now book.old }
{
    match side {
        Side::Outside => {}
        Side::Group(g) => amend_row(way, run, g, q, old, new, values, book),
        Side::Delta { delta, group } => {
            amend_row(way, run, delta, q, old, new, values, book);
            amend_row(way, run, group, q, old, new, values, book);
        }
    }
}

// A series goes into its one side and out of the other.
#[tactic(auto, unfolding(model::specs::Step::amend_sides))]
pub fn amend_sides(
    run: usize,
    sides: Sides,
    q: usize,
    old: Selection,
    new: Selection,
    values: &[u64],
    book: &mut [u64],
)
    requires book_in { BookIn run q book.old × SidesIn sides }
    requires series_in { SeriesIn q values.now old × SeriesIn q values.now new }
    ensures { book.new ≡ amend_sides run q sides old new values.now book.old }
{
    amend_side(Way::In, run, sides.to, q, old, new, values, book);
    amend_side(Way::Out, run, sides.from, q, old, new, values, book);
}

// Another version is selected than before, by its place or its number; a restated status is no change.
#[tactic(auto, unfolding(model::specs::Log::differ))]
pub fn differs(a: Selection, b: Selection) -> bool
    ensures { result ≡ differ a b }
{
    match (a, b) {
        (Selection::None, Selection::None) => false,
        (Selection::Selected(r), Selection::Selected(s)) => {
            (r.at != s.at) | (r.version != s.version)
        }
        _ => true,
    }
}
