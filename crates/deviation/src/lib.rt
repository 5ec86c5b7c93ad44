// Surplus and shortfall of a group against its schedule, over the month.
#![tactic(auto)]

pub mod bytes;
pub mod month;

use quantity::WattHours;

// Both sums, each a 64-bit word in two's complement.
#[derive(Clone, Copy)]
pub struct Deviation {
    pub surplus: WattHours,
    pub shortfall: WattHours,
}
