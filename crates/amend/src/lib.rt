// The book and the log after a change of a point's versions, or of a delta's group.
#![tactic(auto)]

pub mod copies;
pub mod delta;
pub mod log;
pub mod rows;
pub mod runs;
pub mod sides;
pub mod turns;
