// For tests and benchmarks only: the row adder, scripts of calls, with damage to the state and the stores, and the walks over a version table.
#![tactic(auto)]

mod row;
mod script;
mod walk;

// The lengths of the stores' buffers.
#[derive(Clone, Copy)]
pub struct Room {
    pub values: usize,
    pub book: usize,
    pub log: usize,
    pub schedules: usize,
}
