// The one dispatch: a call of the desk, by its kind, to its own decision. Whoever calls it looks at the desk first.
#![tactic(auto)]

pub mod asks;
pub mod decisions;
