// What the host program, written in C, reads: plain numbers and byte slices.
#![tactic(auto)]

pub mod call;
pub mod days;
pub mod figure;
pub mod file;
pub mod month;
mod numbers;
pub mod report;
pub mod run;
pub mod version;

// A slice that is lent has too few places.
pub const TOO_SHORT: u64 = 2;
