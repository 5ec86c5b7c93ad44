// The test of the table that notice alone makes.
ghost use Rattle.std.specs.Prelude.{◌≡◌};
ghost use Rattle.model.specs.Causes.{notice_ok};

use quantity::limits::{day_ok, point_ok, version_ok};
use quantity::{Day, PointNo, Version};

// A notice's fields; cause 3 where they do not fit.
pub fn notice_ok(point: PointNo, version: Version, verdict: u64, day: Day) -> bool
    ensures { result ≡ notice_ok point.0 version.0 verdict day.0 }
{
    point_ok(point) & (version_ok(version) & ((verdict <= 1) & day_ok(day)))
}
