// The tests of the table that submit alone makes.
ghost use Rattle.std.specs.Prelude.{◌≡◌, ◌||◌, map, ◌+◌, ◌*◌, ◌≤◌, leb, ltb};
ghost use Rattle.quantity.specs.Limits.{versions, most_quarters};
ghost use Rattle.quantity.specs.Word.{signed};
ghost use Rattle.state.specs.Point.{since_of};
ghost use Rattle.model.specs.Causes.{submit_ok};

use checks::points::since_of;
use checks::series::energies_ok;
use quantity::limits::{VERSIONS, day_ok, point_ok, version_ok};
use quantity::{Day, PointNo, Version};
use state::PointState;

// A submission's fields, the length of its series and its energies; cause 3 where they do not fit.
pub fn submit_ok(point: PointNo, version: Version, day: Day, q: u64, series: &[u64]) -> bool
    ensures { result ≡ submit_ok point.0 version.0 day.0 q (map signed series.now) }
{
    let n = series.len() as u64;
    point_ok(point) & (version_ok(version) & (day_ok(day) & ((n == q) & energies_ok(series))))
}

// Cause 13: the day is below the activation day + 2.
pub fn too_early(s: PointState, day: Day) -> bool
    ensures { result ≡ ltb day.0 (since_of s + 2) }
{
    let since = since_of(s);
    if day.0 < 2 {
        return true;
    }
    day.0 - 2 < since.0
}

// Cause 16: 512 versions are held, or the next row exceeds the values.
pub fn no_row(count: u64, q: u64, values: u64) -> bool
    requires { (count ≤ versions) × (q ≤ most_quarters) }
    ensures { result ≡ (leb versions count || ltb values ((count + 1) * q)) }
{
    (VERSIONS <= count) | (values < (count + 1) * q)
}
