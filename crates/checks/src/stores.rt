// The tests of the table on the stores: their lengths, and the room in the log.
ghost use Rattle.std.specs.Prelude.{◌≡◌, ◌*◌, ◌≤◌};
ghost use Rattle.model.specs.Call.{Lengths, all_but_schedules};
ghost use Rattle.model.specs.Causes.{other_lengths, log_full};
ghost use Rattle.checks.specs.Lent.{lengths_in};

use crate::Sizes;
use model::LogRow;
use state::Opening;

// Cause 2: values, book or log in another length than at the opening.
pub fn other_lengths(o: Opening, n: Sizes) -> bool
    ensures { (m : Lengths) → result ≡ other_lengths all_but_schedules (lengths_in m n) o }
{
    (n.values != o.values) | ((n.book != o.book) | (n.log != o.log))
}

// Cause 17: a log row is due and none is left; a row has four numbers.
pub fn log_full(used: u64, log: u64, due: Option<LogRow>) -> bool
    requires { 4 * used ≤ log }
    ensures { result ≡ log_full used log due }
{
    let Some(_) = due else {
        return false;
    };
    log - 4 * used < 4
}
