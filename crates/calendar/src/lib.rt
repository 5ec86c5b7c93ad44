// Days and dates of a settled month, for the years 2020 to 2059: a date's day number, by the table of working days, and the way back.
#![tactic(auto)]

pub mod answers;
pub mod numbers;
pub mod table;

// The number of a refusal in the table of causes.
pub const NO_DATE: u64 = 36;
