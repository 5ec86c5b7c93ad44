// The test of the table on a series.
ghost use Rattle.std.specs.Prelude.{◌≡◌, map};
ghost use Rattle.quantity.specs.Limits.{energy_ok};
ghost use Rattle.quantity.specs.Lists.{all};
ghost use Rattle.quantity.specs.Word.{signed};

use quantity::WattHours;
use quantity::limits::energy_ok;

// Every energy is in its range. All are tested, with no branch.
pub fn energies_ok(series: &[u64]) -> bool
    ensures { result ≡ all energy_ok (map signed series.now) }
{
    let mut ok = true;
    for energy in series {
        ok &= energy_ok(WattHours(*energy));
    }
    ok
}
