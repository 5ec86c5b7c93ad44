// What a host is told of a desk at the end of a file, as numbers: its points and versions, and its refusals.
#![tactic(auto)]

pub mod table;

// How many answers are refusals, and which call was refused first; 0 without one.
#[derive(Clone, Copy)]
pub struct Refusals {
    pub count: u64,
    pub first: u64,
}
