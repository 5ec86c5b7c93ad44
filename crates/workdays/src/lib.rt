// Working days of the years 2020 to 2059, by the rule alone: months and dates, Easter, days off, and their count.
#![tactic(auto)]

pub mod count;
pub mod dates;
pub mod easter;
pub mod generator;
pub mod judged;
pub mod rule;

// A month of a year, 1 to 12.
#[derive(Clone, Copy)]
pub struct Month {
    pub year: u64,
    pub month: u64,
}

#[derive(Clone, Copy)]
pub struct Date {
    pub year: u64,
    pub month: u64,
    pub day: u64,
}
