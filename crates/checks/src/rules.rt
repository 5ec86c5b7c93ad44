// A line of the table of causes.
ghost use Rattle.std.specs.Prelude.{◌≡◌, cond, Ok, Err};

use model::Cause;

// Refused with the cause where the test holds. A call's ruling asks this line by line, from the top of its table, and ends at the first refusal.
pub fn refuse_if(test: bool, cause: Cause) -> Result<(), Cause>
    ensures { result ≡ cond test (Err cause) (Ok tt) }
{
    if test { Err(cause) } else { Ok(()) }
}
