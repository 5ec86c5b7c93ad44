// A row into the places of a store. A written loop: where `copy_from_slice` takes a part of any length, an archive for C needs `memmove` from outside.
ghost use Rattle.std.specs.Prelude.{◌≡◌, ◌+◌, ◌≤◌, length};
ghost use Rattle.book.specs.Row.{splice};

// Over places that are as many.
fn copy_over(places: &mut [u64], row: &[u64])
    requires { length row.now ≡ length places.old }
    ensures { places.new ≡ row.now }
{
    for (i, place) in places.iter_mut().enumerate() {
        *place = row[i];
    }
}

// From `start` on.
pub fn put_row(store: &mut [u64], start: usize, row: &[u64])
    requires { start + length row.now ≤ length store.old }
    ensures { store.new ≡ splice store.old start (length row.now) row.now }
{
    copy_over(&mut store[start..start + row.len()], row);
}
