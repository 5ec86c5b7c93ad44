// What every call begins and ends with: the limits of cause 1, one look at the desk, the table of causes check by check, what is decided.
#![tactic(auto)]

pub mod decisions;
pub mod limits;
pub mod looks;
pub mod picks;
pub mod points;
pub mod rules;
pub mod series;
pub mod stores;
pub mod surveys;

use model::Answer;
use quantity::Version;
use state::{Desk, Effect, HeldVersion, PointState, Selection};

// What one walk over the versions finds: the version asked for, and of the point asked for the highest version (0 without one), run 1's selection and
// run 2's own; and how many records it read.
#[derive(Clone, Copy)]
pub struct Survey {
    pub held: Option<HeldVersion>,
    pub highest: Version,
    pub first: Selection,
    pub second: Selection,
    pub read: u64,
}

// The same, and whether each record held is within its limits.
#[derive(Clone, Copy)]
pub struct Tested {
    pub fit: bool,
    pub survey: Survey,
}

// What one walk over the points finds: whether each record is within its limits, and whether an active point has the kind, area and
// partner asked for.
#[derive(Clone, Copy)]
pub struct Scan {
    pub fit: bool,
    pub taken: bool,
}

// What a look at the desk tells: whether it is within its limits (cause 1), the state of the point asked for, and where a call asks for it
// whether an active point has the series, and what the versions have of the point and version.
#[derive(Clone, Copy)]
pub struct Look {
    pub valid: bool,
    pub here: PointState,
    pub taken: bool,
    pub survey: Survey,
}

// The lengths of values, book and log as they are lent to a call.
#[derive(Clone, Copy)]
pub struct Sizes {
    pub values: u64,
    pub book: u64,
    pub log: u64,
}

// The answer of a call, and what it makes of the desk.
#[derive(Clone, Copy)]
pub struct Decided {
    pub answer: Answer,
    pub effect: Effect,
}

// The answer of a call, and the desk after it.
#[derive(Clone, Copy)]
pub struct Outcome {
    pub answer: Answer,
    pub desk: Desk,
}
