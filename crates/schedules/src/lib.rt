// Schedules: a group's plan is lodged, and reported against its figures.
#![tactic(auto)]

pub mod lodge;
pub mod report;

use model::Answer;
use quantity::WattHours;

// The answer of a report, and both sums over the month, each a 64-bit word in two's complement; both 0 when refused.
#[derive(Clone, Copy)]
pub struct ReportAnswer {
    pub answer: Answer,
    pub surplus: WattHours,
    pub shortfall: WattHours,
}
