// A posting lends the one row of the book that changes on to the row adder.
ghost use Rattle.std.specs.Prelude.{◌≡◌, ◌+◌, ◌≤◌, length};
ghost use Rattle.book.specs.Posting.{posted};
ghost use Rattle.book.specs.Row.{back};

use crate::{Way, row};

// The q values from `at` on, into the q figures from `start` on, or out of them.
#[tactic(auto, unfolding(crate::specs::Posting::posted, crate::specs::Row::part, crate::specs::Row::splice))]
pub fn post(way: Way, book: &mut [u64], start: usize, q: usize, values: &[u64], at: usize)
    requires { (start + q ≤ length book.old) × (at + q ≤ length values.now) }
    ensures { book.new ≡ posted way book.old start q values.now at }
{
    let end = start + q;
    let to = at + q;
    row::change_row(way, &mut book[start..end], &values[at..to]);
}

// The q values from `old` on taken back, and those from `new` on posted.
pub fn repost(
    way: Way,
    book: &mut [u64],
    start: usize,
    q: usize,
    values: &[u64],
    old: usize,
    new: usize,
)
    requires { (start + q ≤ length book.old) × (old + q ≤ length values.now) × (new + q ≤ length values.now) }
    ensures { book.new ≡ posted way (posted (back way) book.old start q values.now old) start q values.now new }
{
    let end = start + q;
    let old_end = old + q;
    let new_end = new + q;
    row::replace_row(
        way,
        &mut book[start..end],
        &values[old..old_end],
        &values[new..new_end],
    );
}
