// The counters of the settlement desk, its limits and its words. Everything above counts in these.
#![tactic(auto)]

pub mod limits;
pub mod word;

// A working day, counted from the end of the month.
#[derive(Clone, Copy, PartialEq, Eq, PartialOrd, Ord)]
pub struct Day(pub u64);

// The number of a version of a point's series.
#[derive(Clone, Copy, PartialEq, Eq, PartialOrd, Ord)]
pub struct Version(pub u64);

// The number of a point.
#[derive(Clone, Copy, PartialEq, Eq, PartialOrd, Ord)]
pub struct PointNo(pub u64);

// An energy or a figure in watt-hours, as a 64-bit word in two's complement.
#[derive(Clone, Copy, PartialEq, Eq)]
pub struct WattHours(pub u64);
