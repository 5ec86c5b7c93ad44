// The limits of document 01, each number in one place, and the tests of a number that comes from outside: any 64-bit number.
ghost use Rattle.std.specs.Prelude.{◌≡◌};
ghost use Rattle.quantity.specs.Limits.{quarters_ok, day_ok, deadlines_ok, version_ok, point_ok, area_ok, delta_ok, group_ok, run_ok, energy_ok};
ghost use Rattle.quantity.specs.Word.{signed};

use crate::{Day, PointNo, Version, WattHours};

pub const QUARTERS: u64 = 2980;

pub const LAST_DAY: u64 = 400;

pub const LAST_DEADLINE: u64 = 399;

pub const LAST_VERSION: u64 = 99_999_999_999_999;

pub const POINTS: u64 = 256;

pub const VERSIONS: u64 = 512;

pub const AREAS: u64 = 16;

pub const GROUPS: u64 = 64;

pub const DELTAS: u64 = 1 + AREAS;

pub const RUNS: u64 = 2;

pub const RUN_ROWS: u64 = GROUPS + DELTAS;

pub const BOOK_ROWS: u64 = RUNS * RUN_ROWS;

// A schedule for each group.
pub const SCHEDULE_ROWS: u64 = GROUPS;

// The largest energy, and the word of the smallest.
pub const ENERGY: u64 = 1_000_000_000_000;

pub const MINUS_ENERGY: u64 = 0xffff_ffff_ffff_ffff - 999_999_999_999;

pub fn quarters_ok(q: u64) -> bool
    ensures { result ≡ quarters_ok q }
{
    (1..=QUARTERS).contains(&q)
}

pub fn day_ok(day: Day) -> bool
    ensures { result ≡ day_ok day.0 }
{
    day <= Day(LAST_DAY)
}

pub fn deadlines_ok(first: Day, clearing: Day, correction: Day) -> bool
    ensures { result ≡ deadlines_ok first.0 clearing.0 correction.0 }
{
    Day(1) <= first && first < clearing && clearing < correction && correction <= Day(LAST_DEADLINE)
}

pub fn version_ok(version: Version) -> bool
    ensures { result ≡ version_ok version.0 }
{
    (1..=LAST_VERSION).contains(&version.0)
}

pub fn point_ok(point: PointNo) -> bool
    ensures { result ≡ point_ok point.0 }
{
    (1..=POINTS).contains(&point.0)
}

pub fn area_ok(area: u64) -> bool
    ensures { result ≡ area_ok area }
{
    (1..=AREAS).contains(&area)
}

// A delta: an area, or 0 for T.
pub fn delta_ok(area: u64) -> bool
    ensures { result ≡ delta_ok area }
{
    area <= AREAS
}

pub fn group_ok(group: u64) -> bool
    ensures { result ≡ group_ok group }
{
    (1..=GROUPS).contains(&group)
}

pub fn run_ok(run: u64) -> bool
    ensures { result ≡ run_ok run }
{
    (1..=RUNS).contains(&run)
}

// Both halves are compared, with no branch between them.
pub fn energy_ok(energy: WattHours) -> bool
    ensures { result ≡ energy_ok (signed energy.0) }
{
    (energy.0 <= ENERGY) | (MINUS_ENERGY <= energy.0)
}
