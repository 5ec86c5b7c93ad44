// The row adder. Lengths that differ change nothing.
ghost use Rattle.std.specs.Prelude.{◌≡◌};
ghost use Rattle.book.specs.declared.Way.TheVariants.{In};
ghost use Rattle.test_drive.specs.Rows.{added, replaced};

use book::Way;

#[unsafe(no_mangle)]
#[tactic(auto, unfolding(crate::specs::Rows::added, book::specs::Row::changed))]
pub extern "C" fn drive_add_row(row: &mut [u64], series: &[u64])
    ensures { row.new ≡ added row.old series.now }
{
    if series.len() == row.len() {
        book::row::change_row(Way::In, row, series);
    }
}

// The old series out and the new one in, in one pass.
#[unsafe(no_mangle)]
#[tactic(auto, unfolding(crate::specs::Rows::replaced, book::specs::Row::changed))]
pub extern "C" fn drive_replace_row(row: &mut [u64], old: &[u64], new: &[u64])
    ensures { row.new ≡ replaced row.old old.now new.now }
{
    if old.len() == row.len() {
        if new.len() == row.len() {
            book::row::replace_row(Way::In, row, old, new);
        }
    }
}

// The same in two passes.
#[unsafe(no_mangle)]
#[tactic(auto, unfolding(crate::specs::Rows::replaced, book::specs::Row::changed))]
pub extern "C" fn drive_replace_row_twice(row: &mut [u64], old: &[u64], new: &[u64])
    ensures { row.new ≡ replaced row.old old.now new.now }
{
    if old.len() == row.len() {
        if new.len() == row.len() {
            book::row::change_row(Way::Out, row, old);
            book::row::change_row(Way::In, row, new);
        }
    }
}
