// Where a run's row stands in the book.
ghost use Rattle.std.specs.Prelude.{◌≡◌};
ghost use Rattle.book.specs.Place.{row_start, IsRow};

use quantity::limits::RUN_ROWS;

pub fn row_start(run: usize, k: usize, q: usize) -> usize
    requires { IsRow run k q }
    ensures { result ≡ row_start q run k }
{
    ((run - 1) * (RUN_ROWS as usize) + k) * q
}
